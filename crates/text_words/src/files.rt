//! Recognizes files that are no text of this program, mostly by how they begin, and says what they are and what to do.

use crate::forms::{Place, before, form_like};
use crate::rows::{Checked, first_of_rows, rows};
use std::alloc::Global;

const UTF16: &str =
    "text in UTF-16, as some editors save \"Unicode\". Save it as UTF-8 without a byte order mark.";

const WORKBOOK: &str =
    "a workbook of Excel or LibreOffice, or another ZIP archive, and no text. Save the sheet as CSV in UTF-8, and make the files of an \
office from it with tools/prepare.py.";

const PICTURE: &str = "a picture, and no text. Give the pool, the bundle or the proof itself.";

const JSON: &str = "data in JSON, which no command reads.";

/// How files of other programs begin, and what they are.
static BEGINNINGS: [(&[u8], &str); 17] = rows! {
    (b"\xff\xfe", UTF16)
    (b"\xfe\xff", UTF16)
    (b"SQLite format 3\0", "a database of SQLite, such as the store of an office. Commands over a store take its name after --store, and read it \
themselves: ./sortition report --store STORE")
    (b"PK\x03\x04", WORKBOOK)
    (b"\xd0\xcf\x11\xe0", WORKBOOK)
    (b"%PDF", "a document (PDF), and no text of this program. Give the pool, the bundle or the proof itself.")
    (b"\x89PNG", PICTURE)
    (b"\xff\xd8\xff", PICTURE)
    (b"GIF8", PICTURE)
    (b"RIFF", PICTURE)
    (b"II*\0", PICTURE)
    (b"MM\0*", PICTURE)
    (b"\x1f\x8b", "compressed (gzip). Unpack it first: gunzip < FILE")
    (b"{\\rtf", "a document of a word processor (RTF). Save it as plain text in UTF-8, with TABs between the fields.")
    (b"<", "a page (HTML or XML), and no text of this program. Load the file itself, not the page that shows it.")
    (b"{", JSON)
    (b"[", JSON)
};

/// What other commands print first, and what it is.
static PRINTED: [(&str, &str); 2] = rows! {
    ("report", "the report of a round. It is for people, and no command reads it. `pool` prints the round's pool, `show` its bundle.")
    ("seal,ticket,digits,chance,input,rule,spent,wide,refused,valid,no panel,solved,dropped,round,read fault,write fault,keeper fault,\
want of memory",
        "what another command printed, and no pool, bundle or proof. If it is the line of an error, mend that first: docs/REFERENCE.md \
says what each line means.")
};

/// How the line begins with which `prove` says that it found no trees.
const TREES_SPENT: &[u8] = b"spent\ttrees\t";

/// Says what the file is and what to do, or returns None if it isn't known here. Known are empty and blank files, files of other programs,
/// the files and stores of an office, what other commands print, and texts of this program with blanks in place of TABs.
pub(crate) fn other_file(alloc: Global, content: &[u8]) -> Checked {
    let text = content.trim_ascii_start();
    let first = before(content, b'\n');
    let known = known(text, before(first, b'\t'));
    let is_utf16 = matches!(content, [0, 1..=255, 0, ..] | [1..=255, 0, 1..=255, 0, ..]);
    let has_zero = content[..content.len().min(4096)].contains(&0);
    let has_returns = content.contains(&b'\r') && !content.contains(&b'\n');
    let words = first_of_rows! { alloc; known: Words(known), utf16: Words(UTF16);
        content.is_empty() => "This file is empty. Often the command that should have written it failed: `>` leaves an empty file. Call that command again, and look at its status.\n";
        text.is_empty() => "This file has only blanks and empty lines.\n";
        text.starts_with(TREES_SPENT) => "This file is the line of `prove` that it found no trees: the lottery is leximin greatest, but within so many nodes no proof of it was found. A bundle of it is checked by `check`, or by `cover` and `check-cover`. Or give `prove` more by --nodes.\n";
        !known.is_empty() => "This file is {known}\n";
        is_utf16 => "This file is {utf16}\n";
        has_zero => "This file is no text: it has bytes 0. Give the pool, the bundle or the proof itself.\n";
        has_returns => "The lines of this file end with a carriage return alone (CR, as old Macs end lines). Save it with line ends of Unix, LF alone.\n";
        is_charter(content) => "This file looks like the charter of an office. It is read by: ./sortition import-charter --store STORE < FILE\n";
    };
    match words? {
        None => table(alloc, content, first),
        words => Ok(words),
    }
}

/// Returns what a file is, known by its beginning or its first field, or no words.
fn known(text: &[u8], field: &[u8]) -> &'static str {
    for (beginning, what) in &BEGINNINGS {
        if text.starts_with(beginning) {
            return what;
        }
    }
    for (words, what) in &PRINTED {
        for word in words.split(',') {
            if word.as_bytes() == field {
                return what;
            }
        }
    }
    ""
}

/// True if one of the first lines sets the title or the size of a charter.
fn is_charter(content: &[u8]) -> bool {
    for line in content.split(|byte| *byte == b'\n').take(40) {
        let line = line.trim_ascii_start();
        for key in ["title", "size"] {
            if let Some(rest) = line.strip_prefix(key.as_bytes())
                && rest.trim_ascii_start().starts_with(b"=")
            {
                return true;
            }
        }
    }
    false
}

/// Says what a table is, known by its first line; or what is wrong with a text of this program that has blanks where TABs should be.
fn table(alloc: Global, content: &[u8], first: &[u8]) -> Checked {
    let mut commas: usize = 0;
    let mut semicolons: usize = 0;
    for byte in first {
        commas = commas.saturating_add(usize::from(*byte == b','));
        semicolons = semicolons.saturating_add(usize::from(*byte == b';'));
    }
    let has_tab = first.contains(&b'\t');
    let (separator, separators) = match (has_tab, commas < semicolons) {
        (true, _) => (b'\t', "TABs"),
        (false, true) => (b';', "semicolons"),
        (false, false) => (b',', "commas"),
    };
    let is_register = has_columns(first, separator, &["id", "key"]);
    let is_rules = has_columns(first, separator, &["category", "name", "min", "max"]);
    let is_quotas = has_columns(first, separator, &["feature", "value", "min", "max"]);
    let name = if is_register { "register" } else { "rules" };
    let is_spaced = match form_like(before(first, b' ')) {
        Some(form) => matches!(form.first, Place::FirstLine) && !content.contains(&b'\t'),
        None => false,
    };
    let (begin, more) = long_field(content);
    first_of_rows! { alloc; name: Words(name), separators: Words(separators), begin: Number(begin), more: Number(more);
        (is_register || is_rules) && separator == b',' && 0 < begin => "This file looks like the {name} of an office. It is read by: ./sortition import-{name} --store STORE < FILE\nline {begin}: a quote (\") opens a field here, and the field isn't closed in this line. It takes in {more} more lines, which aren't read as rows. If they are rows, close the quote or take it out.\n";
        (is_register || is_rules) && separator == b',' => "This file looks like the {name} of an office. It is read by: ./sortition import-{name} --store STORE < FILE\n";
        is_register || is_rules => "This file looks like the {name} of an office, but its fields aren't separated by commas. Save it as CSV with commas, in UTF-8; then it is read by: ./sortition import-{name} --store STORE < FILE\n";
        is_quotas => "This file looks like the quotas of a city. tools/prepare.py makes the files of an office from them and the sheet of people.\n";
        !has_tab && 0 < commas.max(semicolons) => "This file is a table whose fields are separated by {separators} (CSV). If it is a sheet of people, tools/prepare.py makes the files of an office from it. If it is to be a pool, bundle or proof, its fields are separated by one TAB each.\n";
        is_spaced => "No line of this file has a TAB, and fields are separated by one TAB each. Blanks are in their place; some editors write them for the TAB key, and they are what one gets from a web page. Make the file again, or put TABs in.\n";
    }
}

/// True if the line names all these columns, in any order and whatever their capitals, blanks and quotes.
fn has_columns(line: &[u8], separator: u8, names: &[&str]) -> bool {
    let mut found: usize = 0;
    for field in line.split(|byte| *byte == separator) {
        let field = field.trim_ascii();
        let field = field.strip_prefix(b"\"").unwrap_or(field);
        let field = field.strip_suffix(b"\"").unwrap_or(field);
        for name in names {
            found = found.saturating_add(usize::from(field.eq_ignore_ascii_case(name.as_bytes())));
        }
    }
    names.len() <= found
}

/// Returns the line in which the first field begins that isn't closed in its line, and how many more lines it takes in; or 0 and 0 if each
/// field is. A quote opens a field only at its beginning, and two quotes in a quoted field stand for one.
fn long_field(content: &[u8]) -> (usize, usize) {
    let mut line: usize = 1;
    let mut begin: usize = 1;
    let mut is_start = true;
    let mut is_open = false;
    let mut has_closed = false;
    for byte in content {
        let is_quote = *byte == b'"';
        if has_closed && !is_quote && begin < line {
            return (begin, line.saturating_sub(begin));
        }
        if is_quote && is_start {
            begin = line;
        }
        let opens = is_quote && !is_open && (is_start || has_closed);
        has_closed = is_quote && is_open;
        is_open = (is_open && !is_quote) || opens;
        is_start = !is_open && (*byte == b',' || *byte == b'\n');
        line = line.saturating_add(usize::from(*byte == b'\n'));
    }
    let rows = line.saturating_sub(usize::from(content.ends_with(b"\n")));
    if is_open && begin < line {
        return (begin, rows.saturating_sub(begin));
    }
    (0, 0)
}
