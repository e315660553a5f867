//! Tests of what no contract says and no call of `office` over memory shows: doors, readers and writers of the machine, the engine of
//! `prove` beside a reference program and on small pools, the visits of workers that share a bound, made pools, and a pool after a refusal.
//! They are in a crate of their own, since a crate with tests is proved twice, the second time with its tests. No crate uses this one. The
//! expected values are from outside: counted by hand, or made by another program.
#![tactic(auto)]

#[cfg(test)]
mod branches;
#[cfg(test)]
mod digests;
#[cfg(test)]
mod doors;
#[cfg(test)]
mod peeling;
#[cfg(test)]
mod pricing;
#[cfg(test)]
mod refusals;
#[cfg(test)]
mod small_classes;
#[cfg(test)]
mod stages;
#[cfg(test)]
mod std_adapters;
#[cfg(test)]
mod tables;
