//! Texts with marks, as files of calls have them: `;` for LF, `~` for CR, `_` for a blank, `^` for a byte that is no UTF-8, `%`, `{` and `}` for
//! the control bytes 7, 31 and 127, and `*` for as many letters `a` as the option `fill` says. And the options of a call.

use std::alloc::{AllocError, Global};

/// Returns the number that a text spells, or 0.
pub(crate) fn number_of(text: &str) -> usize {
    text.parse().unwrap_or(0)
}

/// Returns what stands behind the name of an option, which ends with a blank.
pub(crate) fn option_of<'a>(line: &'a str, name: &str) -> Option<&'a str> {
    for part in line.split(" | ") {
        if let Some(value) = part.strip_prefix(name) {
            return Some(value);
        }
    }
    None
}

/// Returns the numbers of an option, or none if the call hasn't got it.
pub(crate) fn numbers_of(alloc: Global, line: &str, name: &str) -> Result<Vec<u64>, AllocError> {
    let mut numbers = Vec::new(alloc);
    if let Some(value) = option_of(line, name) {
        for number in value.split_whitespace() {
            numbers.push(number.parse().unwrap_or(0))?;
        }
    }
    Ok(numbers)
}

/// Adds the bytes of a shown text.
pub(crate) fn add(text: &mut Vec<u8>, shown: &str, fill: usize) -> Result<(), AllocError> {
    for byte in shown.as_bytes() {
        if *byte == b'*' {
            for _ in 0..fill {
                text.push(b'a')?;
            }
        } else {
            text.push(byte_of(*byte))?;
        }
    }
    Ok(())
}

/// Returns the byte that a mark stands for.
fn byte_of(mark: u8) -> u8 {
    match mark {
        b';' => b'\n',
        b'~' => b'\r',
        b'_' => b' ',
        b'^' => 0xff,
        b'%' => 0x07,
        b'{' => 0x1f,
        b'}' => 0x7f,
        other => other,
    }
}

/// Adds what a call wrote, with the mark of CR.
pub(crate) fn add_written(told: &mut String, bytes: &[u8]) -> Result<(), AllocError> {
    let text = str::from_utf8(bytes).unwrap_or("no text");
    for part in text.split_inclusive('\r') {
        match part.strip_suffix('\r') {
            Some(before) => {
                told.push_str(before)?;
                told.push_str("~")?;
            }
            None => told.push_str(part)?,
        }
    }
    Ok(())
}

/// Returns the lines of the text with this name, without the last LF.
fn named<'a>(alloc: Global, script: &'a str, name: &str) -> Result<&'a str, AllocError> {
    let head = format!(in alloc; "\n$ text {name}\n")?;
    let Some((_, rest)) = script.split_once(head.as_str()) else {
        return Ok("no such text");
    };
    Ok(rest.split_once("\n$ ").map_or(rest, |(text, _)| text))
}

/// Returns the numbers and the text of the option `line`, or zeros.
fn change_of(line: &str) -> (usize, usize, &str) {
    match option_of(line, "line ") {
        Some(value) => match value.split_once(' ') {
            Some((first, rest)) => {
                let (last, lines) = rest.split_once(' ').unwrap_or((rest, ""));
                (number_of(first), number_of(last), lines)
            }
            None => (0, 0, ""),
        },
        None => (0, 0, ""),
    }
}

/// Returns the bytes of the text that a call is given.
pub(crate) fn given(
    alloc: Global,
    script: &str,
    name: &str,
    line: &str,
    fill: usize,
) -> Result<Vec<u8>, AllocError> {
    let mut text = Vec::new(alloc);
    if name.is_empty() {
        return Ok(text);
    }
    let (first, last, lines) = change_of(line);
    let mut number = 1;
    for own in named(alloc, script, name)?.split('\n') {
        if number == first {
            add(&mut text, lines, fill)?;
        }
        if number < first || last < number {
            add(&mut text, own, fill)?;
            text.push(b'\n')?;
        }
        number = usize::saturating_add(number, 1);
    }
    Ok(text)
}
