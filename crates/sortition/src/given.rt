//! The words that the program is called with.

use command_words::{CommandName, read_words};
use std::alloc::Global;
use std::io;

/// Returns the words of the call, without the program's name.
pub(crate) fn given_words(rt: &HostRuntime) -> io::Result<Vec<String>> {
    let words = std::env::args(rt)?.skip(1).collect(rt.alloc())?;
    Ok(words)
}

/// True if the words ask for `serve` with its flag `--log`.
pub(crate) fn ask_for_log(alloc: Global, words: &[String]) -> bool {
    match read_words(alloc, words) {
        Ok(given) => matches!(given.command(), CommandName::Serve) && given.flag("log"),
        Err(_) => false,
    }
}
