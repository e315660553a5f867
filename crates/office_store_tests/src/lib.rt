//! Tests of the keepers over `sqlite`, by public calls alone. They are in a crate of their own, since a crate with tests is proved twice, and
//! tests over files in memory take long to prove.
#![tactic(auto)]

#[cfg(test)]
mod agreement;
#[cfg(test)]
mod assembly;
#[cfg(test)]
mod damage;
#[cfg(test)]
mod disks;
#[cfg(test)]
mod paths;
#[cfg(test)]
mod stops;
