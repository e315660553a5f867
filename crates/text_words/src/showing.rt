//! Shows a name, an id or any field in quotes, so that a reader sees blanks at its ends, look-alikes and bytes that are no text; and lists
//! and counts.

use crate::reading::{Entry, first_of};
use crate::rows::{Done, rows};

/// The most characters that are shown of a field, and the most bytes that these have.
const MOST_SHOWN: usize = 60;

const MOST_BYTES: usize = 240;

/// The most names that are listed.
const MOST_LISTED: usize = 12;

/// What words speak of.
#[derive(Clone, Copy)]
pub(crate) enum Part<'a> {
    /// A field in quotes. A character that is invisible is shown by its number, for instance as `\u{a0}`, and so is one that looks like a
    /// Latin letter, if the field has Latin letters. A byte that is no text is shown for instance as `\xe9`. A long field is cut.
    Shown(&'a [u8]),
    /// The names of the first 12 entries with commas between them, and how many more there are.
    Listed(&'a [Entry<'a>]),
    /// A number and the word for what is counted, for one or for several.
    Counted(usize, &'static str, &'static str),
    Number(usize),
    Whole(i128),
    Words(&'a str),
}

impl Part<'_> {
    /// Adds this to a text.
    pub(crate) fn push(self, text: &mut String) -> Done {
        match self {
            Part::Shown(field) => push_shown(text, field),
            Part::Listed(entries) => push_listed(text, entries),
            Part::Counted(1, one, _) => write!(text, "1 {one}"),
            Part::Counted(number, _, several) => write!(text, "{number} {several}"),
            Part::Number(number) => write!(text, "{number}"),
            Part::Whole(number) => write!(text, "{number}"),
            Part::Words(words) => text.push_str(words),
        }
    }
}

/// Adds a field in quotes.
pub(crate) fn push_shown(text: &mut String, field: &[u8]) -> Done {
    let length = field.len();
    let is_latin = field.iter().any(u8::is_ascii_alphabetic);
    let mut left = MOST_SHOWN;
    let mut bytes: usize = 0;
    text.push('"')?;
    for chunk in field[..length.min(MOST_BYTES)].utf8_chunks() {
        for character in chunk.valid().chars().take(left) {
            left = left.saturating_sub(1);
            bytes = bytes.saturating_add(character.len_utf8());
            push_character(text, character, is_latin)?;
        }
        for byte in chunk.invalid().iter().take(left) {
            left = left.saturating_sub(1);
            bytes = bytes.saturating_add(1);
            write!(text, "\\x{byte:02x}")?;
        }
    }
    text.push('"')?;
    if bytes < length {
        write!(text, ".. ({length} bytes)")?;
    }
    Ok(())
}

/// Adds a character of a field, which has Latin letters if `is_latin`.
fn push_character(text: &mut String, character: char, is_latin: bool) -> Done {
    if character == '"' || character == '\\' {
        text.push('\\')?;
    } else if is_among(&UNSEEN, character) || is_latin && is_among(&LOOK_ALIKE, character) {
        let number = u32::from(character);
        return write!(text, "\\u{{{number:x}}}");
    }
    text.push(character)
}

/// The first and the last of characters that are invisible or have no picture: control characters, blanks other than the space, combining
/// marks, typographic punctuation, the minus sign U+2212, and characters that fonts don't have, such as those for private use.
static UNSEEN: [(u32, u32); 19] = rows! {
    (0, 31) (127, 160) (0xad, 0xad) (0x300, 0x36f) (0x61c, 0x61c) (0x1680, 0x1680) (0x180b, 0x180e) (0x1ab0, 0x1aff) (0x1dc0, 0x1dff)
    (0x2000, 0x206f) (0x20d0, 0x20ff) (0x2212, 0x2212) (0x3000, 0x3000) (0xfe00, 0xfe0f) (0xfe20, 0xfe2f) (0xfeff, 0xfeff)
    (0xfff0, 0xffff) (0xe000, 0xf8ff) (0xe0000, 0x10ffff)
};

/// The first and the last of characters whose scripts have letters that look like Latin ones: Greek, Cyrillic, Armenian, Cherokee, and
/// Latin letters in another width or type.
static LOOK_ALIKE: [(u32, u32); 10] = rows! {
    (0x370, 0x58f) (0x13a0, 0x13ff) (0x1c80, 0x1c8f) (0x1f00, 0x1fff) (0x2100, 0x214f) (0x2de0, 0x2dff) (0xa640, 0xa69f) (0xab70, 0xabbf)
    (0xff01, 0xff5e) (0x1d400, 0x1d7ff)
};

/// True if the character is in a part of the table.
fn is_among(table: &[(u32, u32)], character: char) -> bool {
    let number = u32::from(character);
    for (first, last) in table {
        if *first <= number && number <= *last {
            return true;
        }
    }
    false
}

fn push_listed(text: &mut String, entries: &[Entry]) -> Done {
    for (i, entry) in entries.iter().take(MOST_LISTED).enumerate() {
        if 0 < i {
            text.push_str(", ")?;
        }
        push_shown(text, first_of(&entry.fields))?;
    }
    match entries.len() {
        0 => text.push_str("it has none"),
        number if MOST_LISTED < number => write!(text, " and {} more", number - MOST_LISTED),
        _ => Ok(()),
    }
}
