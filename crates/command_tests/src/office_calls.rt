//! The one call of `office` of this program: over a source, sinks, a store and a door in memory.

use crate::holding::Holding;
use crate::shown::{add, add_written, given, number_of, numbers_of, option_of};
use command_office::office;
use office_keeper::MapKeeper;
use outside::{MemDoor, MemLink, MemSink, MemSource};
use std::alloc::{AllocError, Global};
use std::thread::Threads;

/// The bytes that `out`, `errs` and a link take if nothing else is said.
const ROOM: usize = 100_000;

/// What a call told: its status, what `out` and `errs` gained, and the door with its links.
#[derive(Drop)]
struct Told {
    status: u8,
    out: MemSink,
    errs: MemSink,
    door: MemDoor,
}

/// Makes the call of a line over this text and these links.
fn called<R: Threads + Sync>(
    rt: &R,
    alloc: Global,
    line: &str,
    text: &[u8],
    links: Vec<MemLink>,
    keeper: &mut MapKeeper,
    watch: &Holding,
) -> Result<Told, AllocError> {
    let words = words_of(alloc, line)?;
    let mut source = MemSource::new(alloc, text, &numbers_of(alloc, line, "reads ")?)?;
    let mut out = sink_of(alloc, line, "puts ", room_of(line))?;
    let mut errs = sink_of(alloc, line, "lines ", ROOM)?;
    let mut door = MemDoor::new(alloc, links, &numbers_of(alloc, line, "door ")?)?;
    let status = office(
        rt,
        alloc,
        &words,
        &mut source,
        &mut out,
        &mut errs,
        keeper,
        &mut door,
        watch,
    );
    Ok(Told {
        status,
        out,
        errs,
        door,
    })
}

/// Returns the words of a call. Two quotes stand for an empty word, and `_` for a blank.
fn words_of(alloc: Global, line: &str) -> Result<Vec<String>, AllocError> {
    let mut words = Vec::new(alloc);
    for word in call_of(line).0.split_whitespace() {
        words.push(word_of(alloc, word)?)?;
    }
    Ok(words)
}

fn word_of(alloc: Global, shown: &str) -> Result<String, AllocError> {
    match shown.split_once('_') {
        Some((before, after)) => format!(in alloc; "{before} {after}"),
        None if shown == "''" => Ok(String::new(alloc)),
        None => String::from_str(alloc, shown),
    }
}

/// Returns the words of a call and the name of its text.
fn call_of(line: &str) -> (&str, &str) {
    let call = line.split_once(" | ").map_or(line, |(call, _)| call);
    call.split_once("< ").unwrap_or((call, ""))
}

fn room_of(line: &str) -> usize {
    option_of(line, "room ").map_or(ROOM, number_of)
}

fn sink_of(alloc: Global, line: &str, option: &str, room: usize) -> Result<MemSink, AllocError> {
    MemSink::new(alloc, room, &numbers_of(alloc, line, option)?)
}

/// Returns how many letters the mark `*` stands for.
fn fill_of(line: &str) -> usize {
    option_of(line, "fill ").map_or(0, number_of)
}

/// Returns the links of a call, whose requests are cut.
fn links_of(alloc: Global, line: &str, cut: usize) -> Result<Vec<MemLink>, AllocError> {
    let fill = fill_of(line);
    let mut links = Vec::new(alloc);
    for part in line.split(" | ") {
        if let Some(request) = part.strip_prefix("link ") {
            links.push(link_of(alloc, request, &[], fill, cut)?)?;
        } else if let Some(broken) = part.strip_prefix("broken ") {
            let (call, request) = broken.split_once(' ').unwrap_or((broken, ""));
            let failing = [number_of(call) as u64];
            links.push(link_of(alloc, request, &failing, fill, cut)?)?;
        }
    }
    Ok(links)
}

fn link_of(
    alloc: Global,
    request: &str,
    failing: &[u64],
    fill: usize,
    cut: usize,
) -> Result<MemLink, AllocError> {
    let mut bytes = Vec::new(alloc);
    add(&mut bytes, request, fill)?;
    bytes.truncate(cut);
    MemLink::new(alloc, &bytes, ROOM, failing)
}

/// Returns the text of the call of a line.
pub(crate) fn text_of(alloc: Global, script: &str, line: &str) -> Result<Vec<u8>, AllocError> {
    given(alloc, script, call_of(line).1, line, fill_of(line))
}

/// Makes the call of a line over this text, with its requests cut, and returns what it tells as files of calls spell it.
pub(crate) fn answer<R: Threads + Sync>(
    rt: &R,
    alloc: Global,
    keeper: &mut MapKeeper,
    line: &str,
    text: &[u8],
    cut: usize,
) -> Result<String, AllocError> {
    let links = links_of(alloc, line, cut)?;
    let watch = Holding::of(option_of(line, "held").is_some());
    let told = called(rt, alloc, line, text, links, keeper, &watch)?;
    spelled(alloc, &told, &watch)
}

/// Spells what a call told.
fn spelled(alloc: Global, told: &Told, watch: &Holding) -> Result<String, AllocError> {
    let mut text = String::new(alloc);
    add_written(&mut text, told.out.written())?;
    if !told.errs.written().is_empty() {
        text.push_str("! ")?;
        add_written(&mut text, told.errs.written())?;
    }
    text.push_str(&format!(in alloc; "= {}{}", told.status, watch.word())?)?;
    for link in told.door.given_back() {
        text.push_str("\n> ")?;
        add_written(&mut text, link.written())?;
    }
    Ok(text)
}
