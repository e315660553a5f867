//! The form of a file of calls, and how its calls are made. A file is parted into blocks by lines that begin with `$` and a blank. In the
//! rest of such a line stands
//!
//! - `#` and a remark;
//! - `text` and a name: the lines of the block are the text of that name, with the marks of `shown`;
//! - `store` and numbers: from here on calls are about a new store, whose calls with these numbers fail, counted from 1;
//! - or else a call: its words, and behind `<` the name of the text on standard input. The lines of the block are what it tells: what `out`
//!   gains, what `errs` gains behind `!`, the status behind `=`, and for each link that came back what was written to it, behind `>`.
//!
//! Behind ` | ` a call has options: `line`, two numbers and a text that replaces the lines from the first number to the second; `cut` and two
//! numbers: the call is made with each beginning of the text or request whose length is from the first number to below the second; `fill` and
//! a number, for the mark `*`; the numbers of the calls that fail: `reads` of the source, `puts` of `out`, `lines` of `errs`, `door`; `room`,
//! the bytes that `out` takes; `link` or `broken` with a request, of which the latter fails at a call: `broken 2` and the request; and `held`: pieces
//! 0 and 1 of a pricing are held until piece 2 has started.

use crate::office_calls::{answer, text_of};
use crate::shown::{number_of, numbers_of, option_of};
use office_keeper::MapKeeper;
use std::alloc::{AllocError, Global};
use std::thread::Threads;

/// How many calls were made, and what those told that told something else than is written.
#[derive(Drop)]
pub(crate) struct Report {
    pub(crate) calls: u64,
    pub(crate) wrong: String,
}

/// Makes the calls of a file.
pub(crate) fn made<R: Threads + Sync>(
    rt: &R,
    alloc: Global,
    script: &str,
) -> Result<Report, AllocError> {
    let mut report = Report {
        calls: 0,
        wrong: String::new(alloc),
    };
    let mut keeper = MapKeeper::new(alloc, &[])?;
    for block in script.split("\n$ ") {
        let (line, want) = block.split_once('\n').unwrap_or((block, ""));
        if line.starts_with("store") {
            keeper = MapKeeper::new(alloc, &numbers_of(alloc, line, "store ")?)?;
        } else if !line.starts_with("text ") && !line.starts_with("#") {
            compare(rt, alloc, script, &mut keeper, line, want, &mut report)?;
        }
    }
    Ok(report)
}

/// Makes a call, once for each cut, and adds what it tells to the report where that isn't `want`.
fn compare<R: Threads + Sync>(
    rt: &R,
    alloc: Global,
    script: &str,
    keeper: &mut MapKeeper,
    line: &str,
    want: &str,
    report: &mut Report,
) -> Result<(), AllocError> {
    let text = text_of(alloc, script, line)?;
    let (from, until) = cuts_of(line);
    for cut in from..until {
        let told = answer(rt, alloc, keeper, line, &text[..cut.min(text.len())], cut)?;
        report.calls = report.calls.saturating_add(1);
        if told.as_str() != want {
            let row = format!(in alloc; "$ {line}\n{told}\n")?;
            report.wrong.push_str(&row)?;
        }
    }
    Ok(())
}

/// Returns the numbers of the option `cut`, or two that cut nothing.
fn cuts_of(line: &str) -> (usize, usize) {
    match option_of(line, "cut ") {
        Some(cuts) => match cuts.split_once(' ') {
            Some((from, until)) => (number_of(from), number_of(until)),
            None => (0, 0),
        },
        None => (usize::MAX - 1, usize::MAX),
    }
}
