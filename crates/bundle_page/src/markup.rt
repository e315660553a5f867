//! Fills templates with values, and writes names, and numbers in per cent, as HTML.

ghost use Rattle.std.specs.Prelude.{◌≡◌, ◌≤◌, ◌^◌, ◌++◌, ◌∷◌, [], map, IfOk, OnOk};
ghost use Rattle.define_lines.specs.Lines.{text_of};
ghost use Rattle.bundle_page.specs.Markup.{chance_words as words_of_chance, escaped as words_of_escaped, escaped_byte, filled as words_of_filled, percent as words_of_percent};

use crate::{fixed_point, ten_thousandths};
use std::alloc::{AllocError, Global};
use text_lines::end_line;

/// The byte of a template that stands for a value.
const PLACE: u8 = b'~';

/// Appends a template with its values, and LF.
pub(crate) fn fill(text: &mut Vec<u8>, template: &[u8], values: &[&[u8]]) -> Result<(), AllocError>
    ensures { OnOk result (text.new.items ≡ text.old.items ++ text_of (words_of_filled template.now (map (λ value. value.now) values.now) ∷ [])) }
{
    put_values(text, template, values)?;
    end_line(text)
}

/// Returns a template with its values.
pub(crate) fn filled(
    alloc: Global,
    template: &[u8],
    values: &[&[u8]],
) -> Result<Vec<u8>, AllocError>
    ensures { IfOk result (λ text. text.items ≡ words_of_filled template.now (map (λ value. value.now) values.now)) }
{
    let mut text = Vec::new(alloc);
    put_values(&mut text, template, values)?;
    Ok(text)
}

/// Appends a template with its values.
fn put_values(text: &mut Vec<u8>, template: &[u8], values: &[&[u8]]) -> Result<(), AllocError>
    ensures { OnOk result (text.new.items ≡ text.old.items ++ words_of_filled template.now (map (λ value. value.now) values.now)) }
{
    let mut next = 0;
    for byte in template {
        if *byte != PLACE {
            text.push(*byte)?;
        } else if next < values.len() {
            text.extend_from_slice(values[next])?;
            next += 1;
        }
    }
    Ok(())
}

/// Returns a name with its markup escaped.
pub(crate) fn escaped(alloc: Global, name: &[u8]) -> Result<Vec<u8>, AllocError>
    ensures { IfOk result (λ text. text.items ≡ words_of_escaped name.now) }
{
    let mut text = Vec::new(alloc);
    for byte in name {
        push_escaped(&mut text, *byte)?;
    }
    Ok(text)
}

/// Appends a byte of a name; `&`, `<`, `>` and `"` are written as their HTML entities.
fn push_escaped(text: &mut Vec<u8>, byte: u8) -> Result<(), AllocError>
    ensures { OnOk result (text.new.items ≡ text.old.items ++ escaped_byte byte) }
{
    match byte {
        b'&' => text.extend_from_slice(b"&amp;"),
        b'<' => text.extend_from_slice(b"&lt;"),
        b'>' => text.extend_from_slice(b"&gt;"),
        b'"' => text.extend_from_slice(b"&quot;"),
        _ => text.extend_from_slice(&[byte]),
    }
}

/// Returns the text of `part` in per cent; `part` is in ten-thousandths.
pub(crate) fn percent(alloc: Global, part: u128) -> Result<Vec<u8>, AllocError>
    ensures { IfOk result (λ text. text.items ≡ words_of_percent part) }
{
    let mut text = fixed_point(alloc, 2, part)?;
    text.extend_from_slice(b" %")?;
    Ok(text)
}

/// Returns the text of a chance in per cent: that of who is on panels with `count` of `total` tickets. Only a chance of 0 is shown as 0, and
/// only one of 1 as 100.
pub(crate) fn chance(alloc: Global, count: u128, total: u128) -> Result<Vec<u8>, AllocError>
    requires within { count ≤ total }
    requires some { 1 ≤ total }
    requires most { total ≤ 10 ^ 38 }
    ensures { IfOk result (λ text. text.items ≡ words_of_chance count total) }
{
    let part = ten_thousandths(count, total);
    if 0 < count && part == 0 {
        return Vec::from_slice(alloc, b"below 0.01 %");
    }
    if count < total && part == 10_000 {
        return Vec::from_slice(alloc, b"above 99.99 %");
    }
    percent(alloc, part)
}
