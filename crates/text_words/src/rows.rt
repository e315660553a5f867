//! Tables with a row a line: words of which those are told whose condition holds, with names in braces for what they speak of.

use crate::showing::Part;
use std::alloc::{AllocError, Global};

/// Words on what is wrong, or None if nothing is.
pub(crate) type Checked = Result<Option<String>, AllocError>;

pub(crate) type Done = Result<(), AllocError>;

/// A condition and the words that are told if it holds.
type Row<'a> = (bool, &'a str);

/// A name that stands in braces in the words, and what it stands for.
type Named<'a> = (&'a str, Part<'a>);

/// Returns the words of the first row whose condition holds, or None if none does. Before the rows come the names in their words.
macro_rules! first_of_rows {
    ($alloc:expr; $($name:ident: $part:ident($($value:expr),*)),*; $($holds:expr => $words:literal;)*) => {
        crate::rows::first_words(
            $alloc,
            &[$(($holds, $words)),*],
            &[$((stringify!($name), crate::showing::Part::$part($($value),*))),*],
        )
    };
}

/// Adds a line to a text for each row whose condition holds.
macro_rules! say {
    ($text:expr; $($name:ident: $part:ident($($value:expr),*)),*; $($holds:expr => $words:literal;)*) => {
        crate::rows::push_lines(
            $text,
            &[$(($holds, $words)),*],
            &[$((stringify!($name), crate::showing::Part::$part($($value),*))),*],
        )?
    };
}

/// A table of rows in brackets.
macro_rules! rows {
    ($($row:tt)*) => {
        [$($row),*]
    };
}

pub(crate) use first_of_rows;
pub(crate) use rows;
pub(crate) use say;

/// Returns the words of the first row whose condition holds, or None if none does.
pub(crate) fn first_words(alloc: Global, rows: &[Row], names: &[Named]) -> Checked {
    for (holds, words) in rows {
        if *holds {
            let mut text = String::new(alloc);
            push_words(&mut text, words, names)?;
            return Ok(Some(text));
        }
    }
    Ok(None)
}

/// Adds a line for each row whose condition holds.
pub(crate) fn push_lines(text: &mut String, rows: &[Row], names: &[Named]) -> Done {
    for (holds, words) in rows {
        if *holds {
            push_words(text, words, names)?;
            text.push('\n')?;
        }
    }
    Ok(())
}

/// Adds words, with what the names in braces stand for in their place.
fn push_words(text: &mut String, words: &str, names: &[Named]) -> Done {
    for piece in words.split('{') {
        match piece.split_once('}') {
            Some((name, rest)) => {
                push_named(text, name, names)?;
                text.push_str(rest)?;
            }
            None => text.push_str(piece)?,
        }
    }
    Ok(())
}

fn push_named(text: &mut String, wanted: &str, names: &[Named]) -> Done {
    for (name, part) in names {
        if *name == wanted {
            return part.push(text);
        }
    }
    Ok(())
}
