//! Makes the calls of the program that are written down in `data/`, and compares what each tells with what is written behind it. It prints
//! for each file how many calls were made, and each that told something else. The gate runs this program. No crate uses it, and it has no
//! promises. All calls of `office` are one, since each tuple of its type parameters costs the gate minutes. `scripts` has the form of the
//! files.
#![tactic(auto)]

mod holding;
mod office_calls;
mod scripts;
mod shown;

use std::{fs, io};

/// The files of `data/`.
const FILES: &[&str] = &[
    "texts.calls",
    "faults.calls",
    "proofs.calls",
    "lotteries.calls",
    "assemblies.calls",
    "corrections.calls",
    "imports.calls",
    "desks.calls",
];

fn main(rt: HostRuntime) -> io::Result<()> {
    let alloc = rt.alloc();
    for file in FILES {
        let script = fs::read_to_string(&rt, file)?;
        let report = scripts::made(&rt, alloc, &script)?;
        print!(rt; "{file}\t{}\n{}", report.calls, report.wrong)?;
    }
    Ok(())
}
