//! Says in words what a file is, and what is wrong with it.

use crate::files::other_file;
use crate::forms::{Place, before, form_like};
use crate::reading::Reading;
use crate::rows::{Done, say};
use crate::showing::push_shown;
use crate::summaries::summary;
use std::alloc::{AllocError, Global};
use text_lines::TextFault;

/// The most faulty lines that are read.
const MOST_TOLD: usize = 40;

/// The byte order mark of UTF-8.
const MARK: &[u8] = b"\xef\xbb\xbf";

/// Says in words what the bytes are. `fault` is their first fault, as the reader of their form found it, or None if they are a right text.
/// The words are plain sentences, one a line. If the fault is in line 1 or of the whole text, and the file is of another known kind, they
/// say what it is. The words about any other faulty text begin with the first fault.
pub fn words_about(
    alloc: Global,
    bytes: &[u8],
    fault: Option<TextFault>,
) -> Result<String, AllocError> {
    let Some(TextFault { line: first, kind }) = fault else {
        return summary(alloc, bytes);
    };
    let content = bytes.strip_prefix(MARK).unwrap_or(bytes);
    if first <= 1
        && let Some(words) = other_file(alloc, content)?
    {
        return Ok(words);
    }
    let mut text = String::new(alloc);
    let mut reading = Reading::new(alloc, first);
    reading.told = usize::from(content.len() < bytes.len());
    say! { &mut text; mark: Words("\\u{feff}"); 0 < reading.told => "line 1: the file begins with a byte order mark (the bytes EF BB BF, {mark}), which no text of this program has: save it as UTF-8 without one."; };
    take_lines(&mut text, &mut reading, content)?;
    let told = reading.told;
    let returns = reading.returns;
    let tabs = reading.tabs;
    say! { &mut text;
        first: Number(first), kind: Number(usize::from(kind)), returns: Number(returns), tabs: Number(tabs), told: Number(told),
        form: Words(reading.form.spelling);
        told == 0 => "line {first}: the line has a fault of kind {kind}: docs/FORMATS.md says what each kind means.";
        1 < returns => "{returns} lines end with a carriage return.";
        1 < tabs => "{tabs} lines end with a TAB.";
        1 < told => "{told} lines of this {form} are faulty.";
        told <= 1 => "Nothing else is wrong with what was read of this {form}.";
        reading.is_lost || MOST_TOLD <= told => "What follows wasn't read.";
    };
    Ok(text)
}

/// Takes the lines of a text, and tells what is wrong with them. Stops if nothing is found in the line of the first fault.
fn take_lines<'a>(text: &mut String, reading: &mut Reading<'a>, content: &'a [u8]) -> Done {
    let mut number: usize = 0;
    let mut rest: &'a [u8] = b"";
    for piece in content.split(|byte| *byte == b'\n') {
        if 0 < number {
            match reading.take(number, rest)? {
                Some(words) => tell(text, reading, number, rest, &words)?,
                None if number == reading.first && reading.told == 0 => return Ok(()),
                None => {}
            }
        }
        if reading.is_lost || MOST_TOLD <= reading.told {
            return Ok(());
        }
        number = number.saturating_add(1);
        rest = piece;
    }
    if !rest.is_empty() {
        let mut words = format!(in reading.alloc; "the last line, which begins with ")?;
        push_shown(&mut words, before(rest, b'\t'))?;
        words.push_str(", isn't ended by a line feed (LF), as every line has to be")?;
        if let Some(flaw) = reading.take(number, rest)? {
            write!(words, "; besides, {flaw}")?;
        }
        tell(text, reading, number, rest, &words)?;
        number = number.saturating_add(1);
    }
    let (_, missing) = reading.place.words();
    if !reading.is_lost && !matches!(reading.place, Place::Nothing) {
        let words = format!(in reading.alloc; "the file ends here, and {missing}")?;
        tell(text, reading, number, b"", &words)?;
    }
    Ok(())
}

/// Adds words on a line, unless it comes before that of the first fault.
fn tell(text: &mut String, reading: &mut Reading, number: usize, line: &[u8], words: &str) -> Done {
    if number < reading.first {
        return Ok(());
    }
    reading.told = reading.told.saturating_add(1);
    write!(text, "line {number}")?;
    let word = before(line, b'\t');
    if let Some(form) = form_like(word)
        && matches!(form.first, Place::Entries)
        && form.spelling.as_bytes() == word
        && word.len() < line.len()
    {
        let name = before(&line[word.len() + 1..], b'\t');
        let name = name.strip_suffix(b"\r").unwrap_or(name);
        write!(text, ", {} ", form.spelling)?;
        push_shown(text, name)?;
    }
    writeln!(text, ": {words}.")
}
