//! Writing the text of a cover, line by line into one growing buffer. `write_cover` is the promise; the other functions are helpers.

ghost use Rattle.std.specs.Prelude.{◌≡◌, ◌++◌, ◌∷◌, [], map, codes, Ok, IfOk, OnOk};
ghost use Rattle.std.specs.Fmt.{decimal};
ghost use Rattle.define_lines.specs.Lines.{tabbed, text_of};
ghost use Rattle.define_covers.specs.CoverText.{cause_fields, cover_spelling, front_line, lines_before_close, tree_lines, trees_from};
ghost use Rattle.define_covers.specs.CoverReading.{read_cover};
ghost use Rattle.cover_text.specs.Causes.{seen_cause};

use crate::shared::{push_bundle, push_number_line};
use crate::{Cause, Cover, FrontLine, Fronts};
use std::alloc::{AllocError, Global};
use text_lines::{end_line, push_field, push_line, push_number, push_numbers};

/// Returns the text of the cover. Reading this text returns the same cover.
pub fn write_cover(alloc: Global, cover: &Cover) -> Result<Vec<u8>, AllocError>
    ensures spelled { IfOk result (λ bytes. bytes.items ≡ cover_spelling cover.now) }
    ensures read { IfOk result (λ bytes. read_cover bytes.items ≡ Ok cover.now) }
{
    cover.facts();
    let mut text = Vec::new(alloc);
    push_before_close(alloc, &mut text, cover)?;
    push_line(&mut text, b"close", &[])?;
    Ok(text)
}

/// Appends all lines of a cover except the last.
fn push_before_close(alloc: Global, text: &mut Vec<u8>, cover: &Cover) -> Result<(), AllocError>
    ensures { OnOk result (text.new.items ≡ text.old.items ++ text_of (lines_before_close cover.now.bundle cover.now.trees)) }
{
    push_line(text, b"cover", &[b"1"])?;
    push_bundle(alloc, text, cover.bundle())?;
    push_trees(text, cover.trees())
}

/// Appends the lines of the trees, which are numbered from 1.
fn push_trees(text: &mut Vec<u8>, trees: &[Fronts]) -> Result<(), AllocError>
    ensures { OnOk result (text.new.items ≡ text.old.items ++ text_of (trees_from 1 trees.now)) }
{
    for (i, lines) in trees.iter().enumerate() {
        push_tree(text, i + 1, lines)?;
    }
    Ok(())
}

/// Appends the lines of tree `number`.
fn push_tree(text: &mut Vec<u8>, number: usize, lines: &Fronts) -> Result<(), AllocError>
    ensures { OnOk result (text.new.items ≡ text.old.items ++ text_of (tree_lines number lines.now)) }
{
    push_number_line(text, b"tree", number)?;
    push_fronts(text, lines.lines())
}

/// Appends the lines of fronts.
fn push_fronts(text: &mut Vec<u8>, lines: &[FrontLine]) -> Result<(), AllocError>
    ensures { OnOk result (text.new.items ≡ text.old.items ++ text_of (map front_line lines.now)) }
{
    for line in lines {
        push_front(text, line)?;
    }
    Ok(())
}

/// Appends the line of a front: its cause, and its counts.
fn push_front(text: &mut Vec<u8>, line: &FrontLine) -> Result<(), AllocError>
    ensures { OnOk result (text.new.items ≡ text.old.items ++ text_of (front_line line.now ∷ [])) }
{
    text.extend_from_slice(b"front")?;
    push_cause(text, line.cause())?;
    push_numbers(text, line.front())?;
    end_line(text)
}

/// Appends the two fields of a cause.
fn push_cause(text: &mut Vec<u8>, cause: Cause) -> Result<(), AllocError>
    ensures { OnOk result (text.new.items ≡ text.old.items ++ tabbed (cause_fields (seen_cause cause))) }
{
    match cause {
        Cause::Size => push_unnumbered(text, b"size"),
        Cause::Value(number) => push_numbered(text, b"value", number),
        Cause::Household => push_unnumbered(text, b"house"),
        Cause::Closed(number) => push_numbered(text, b"closed", number),
        Cause::Cap => push_unnumbered(text, b"cap"),
    }
}

/// Appends a word and 0.
fn push_unnumbered(text: &mut Vec<u8>, word: &[u8]) -> Result<(), AllocError>
    ensures { OnOk result (text.new.items ≡ text.old.items ++ tabbed (word.now ∷ codes "0" ∷ [])) }
{
    push_field(text, word)?;
    push_field(text, b"0")
}

/// Appends a word and a number.
fn push_numbered(text: &mut Vec<u8>, word: &[u8], number: usize) -> Result<(), AllocError>
    ensures { OnOk result (text.new.items ≡ text.old.items ++ tabbed (word.now ∷ decimal number ∷ [])) }
{
    push_field(text, word)?;
    push_number(text, number)
}
