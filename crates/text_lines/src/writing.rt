//! Appends to a growing text, field by field. The writers of texts call it. Numbers take no memory of their own. After an error the text
//! still begins with the bytes that were in it before; anything may follow them.

ghost use Rattle.std.specs.Prelude.{◌≡◌, ◌++◌, ◌∷◌, [], map, OnErr, OnOk};
ghost use Rattle.std.specs.Io.{StartsWith};
ghost use Rattle.std.specs.Fmt.{decimal, signed_decimal};
ghost use Rattle.define_lines.specs.Lines.{tab, line_feed, tabbed, line_of, text_of};

use itoa::Buffer;
use std::alloc::AllocError;

const TAB: u8 = 9;

const LINE_FEED: u8 = 10;

/// Appends a TAB and a field.
pub fn push_field(text: &mut Vec<u8>, field: &[u8]) -> Result<(), AllocError>
    ensures whole { OnOk result (text.new.items ≡ text.old.items ++ (tab ∷ field.now)) }
    ensures kept { OnErr result (StartsWith text.new.items text.old.items) }
{
    text.push(TAB)?;
    text.extend_from_slice(field)
}

/// Appends a TAB and a number.
pub fn push_number(text: &mut Vec<u8>, number: usize) -> Result<(), AllocError>
    ensures whole { OnOk result (text.new.items ≡ text.old.items ++ (tab ∷ decimal number)) }
    ensures kept { OnErr result (StartsWith text.new.items text.old.items) }
{
    let mut digits = Buffer::new();
    push_field(text, digits.format(number).as_bytes())
}

/// Appends a TAB and a number, with `-` before its digits if it is below 0.
pub fn push_signed(text: &mut Vec<u8>, number: i128) -> Result<(), AllocError>
    ensures whole { OnOk result (text.new.items ≡ text.old.items ++ (tab ∷ signed_decimal number)) }
    ensures kept { OnErr result (StartsWith text.new.items text.old.items) }
{
    let mut digits = Buffer::new();
    push_field(text, digits.format(number).as_bytes())
}

/// Appends numbers, each after a TAB.
pub fn push_numbers(text: &mut Vec<u8>, numbers: &[usize]) -> Result<(), AllocError>
    ensures whole { OnOk result (text.new.items ≡ text.old.items ++ tabbed (map decimal numbers.now)) }
    ensures kept { OnErr result (StartsWith text.new.items text.old.items) }
{
    for number in numbers {
        push_number(text, *number)?;
    }
    Ok(())
}

/// Appends numbers with their signs, each after a TAB.
pub fn push_signed_numbers(text: &mut Vec<u8>, numbers: &[i128]) -> Result<(), AllocError>
    ensures whole { OnOk result (text.new.items ≡ text.old.items ++ tabbed (map signed_decimal numbers.now)) }
    ensures kept { OnErr result (StartsWith text.new.items text.old.items) }
{
    for number in numbers {
        push_signed(text, *number)?;
    }
    Ok(())
}

/// Appends the LF that ends a line.
pub fn end_line(text: &mut Vec<u8>) -> Result<(), AllocError>
    ensures whole { OnOk result (text.new.items ≡ text.old.items ++ line_feed ∷ []) }
    ensures kept { OnErr result (StartsWith text.new.items text.old.items) }
{
    text.push(LINE_FEED)?;
    Ok(())
}

/// Appends a line: the word, the fields with a TAB before each, and LF.
pub fn push_line(text: &mut Vec<u8>, word: &[u8], fields: &[&[u8]]) -> Result<(), AllocError>
    ensures whole { OnOk result (text.new.items ≡ text.old.items ++ text_of (line_of (word.now ∷ map (λ field. field.now) fields.now) ∷ [])) }
    ensures kept { OnErr result (StartsWith text.new.items text.old.items) }
{
    text.extend_from_slice(word)?;
    for field in fields {
        push_field(text, field)?;
    }
    end_line(text)
}
