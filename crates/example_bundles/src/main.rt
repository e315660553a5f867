//! Compares each bundle in `data/` with what `lottery` prints for the pool that the bundle contains. The gate runs this program. No crate
//! uses this one, and it has no promises.
#![tactic(auto)]

use command_pools::{Lottery, call_lottery};
use command_shell::Resources;
use define_runs::{Limits, Workers};
use outside::{MemSink, MemSource, NoWatch};
use std::alloc::Global;
use std::thread::Threads;
use std::{fs, io};

/// The names of the bundles. The pool in each is the pool of the same name in `examples/`.
const NAMES: &[&str] = &["districts", "dropout", "family", "small"];

/// The most bytes that `out` holds, and that `errs` holds.
const ROOM: usize = 1_000_000;

fn main(rt: HostRuntime) -> io::Result<()> {
    let alloc = rt.alloc();
    for name in NAMES {
        let bundle = fs::read_to_string(&rt, format!(in alloc; "{name}.bundle")?)?;
        let pool = format!(in alloc; "{}\n", pool_of(&bundle))?;
        let is_same = printed(&rt, alloc, pool.as_bytes())?.as_slice() == bundle.as_bytes();
        println!(rt; "{name}\t{is_same}")?;
    }
    Ok(())
}

/// Returns the text of a bundle's pool without its last byte: what is between the first line and the line that begins with `total`. Returns
/// an empty text if one of these lines is missing.
fn pool_of(bundle: &str) -> &str {
    bundle
        .split_once('\n')
        .and_then(|(_, rest)| rest.split_once("\ntotal\t"))
        .map_or("", |(pool, _)| pool)
}

/// Returns what `lottery` prints for a pool's text, with its default limits and four workers.
fn printed<R: Threads + Sync>(rt: &R, alloc: Global, pool: &[u8]) -> io::Result<Vec<u8>> {
    let (Some(limits), Some(workers)) = (Limits::new(127, 100_000, 50_000_000), Workers::new(4))
    else {
        return Ok(Vec::new(alloc));
    };
    let mut source = MemSource::new(alloc, pool, &[])?;
    let mut out = MemSink::new(alloc, ROOM, &[])?;
    let mut errs = MemSink::new(alloc, ROOM, &[])?;
    let resources = Resources {
        rt,
        alloc,
        watch: &NoWatch,
    };
    let lottery = Lottery { limits, workers };
    let _ = call_lottery(&resources, &lottery, &mut source, &mut out, &mut errs);
    Ok(out.written().to_vec(alloc)?)
}
