//! The fields of a head that the desk looks at. Spans say where their names and values are.

ghost use Rattle.std.specs.Prelude.{◌≡◌, if◌then◌else◌, codes, length, map, All, IfOk, IsTrue, Some, None};
ghost use Rattle.std.specs.Char.{is_ascii_digit, to_ascii_lowercase};
ghost use Rattle.std.specs.List.{list_all, list_any};
ghost use Rattle.std.specs.Str.Parse.{digits_value};
ghost use Rattle.httparse.specs.Spans.{IsHeaderWithin, span_bytes};
ghost use Rattle.define_desk.specs.Requests.{is_name, is_number, size_by};
ghost use Rattle.office_requests.specs.Heads.{pairs_at, values_with};

use crate::requests::Key;
use httparse::spans::{HeaderSpan, Span};
use std::alloc::{AllocError, Global};

/// Returns the number in the field `Content-Length`, or 0 without this field: the size of the body. Returns `None` if there are two such
/// fields, or if the only one has no number.
pub(crate) fn body_size(head: &[u8], fields: &[HeaderSpan]) -> Option<u64>
    requires { All (IsHeaderWithin (length head.now)) fields.now }
    ensures { result ≡ size_by (values_with (codes "content-length") (pairs_at head.now fields.now)) }
{
    let mut found: Option<Span> = None;
    for field in fields {
        if is_named(head, field, b"content-length") {
            if found.is_some() {
                return None;
            }
            found = Some(field.value);
        }
    }
    match found {
        None => Some(0),
        Some(value) => number(value.of(head)),
    }
}

/// Returns the number that the text spells, or `None` if it spells none.
fn number(text: &[u8]) -> Option<u64>
    ensures { result ≡ (if is_number text.now then Some (digits_value 10 text.now) else None) }
{
    if is_number(text) {
        Some(digits_value(text))
    } else {
        None
    }
}

/// True if the text is 1 to 18 digits.
fn is_number(text: &[u8]) -> bool
    ensures { result ≡ is_number text.now }
{
    !text.is_empty() && text.len() <= 18 && are_digits(text)
}

fn are_digits(text: &[u8]) -> bool
    ensures { result ≡ list_all is_ascii_digit text.now }
{
    text.iter().all(|byte| byte.is_ascii_digit())
}

/// Returns the number that the digits spell.
fn digits_value(text: &[u8]) -> u64
    requires { IsTrue (is_number text.now) }
    ensures { result ≡ digits_value 10 text.now }
{
    let mut value = 0;
    for digit in text {
        value = value * 10 + u64::from(*digit - b'0');
    }
    value
}

/// True if there is a field `Transfer-Encoding`.
pub(crate) fn is_encoded(head: &[u8], fields: &[HeaderSpan]) -> bool
    requires { All (IsHeaderWithin (length head.now)) fields.now }
    ensures { result ≡ list_any (λ field. is_name (codes "transfer-encoding") (span_bytes head.now field.name)) fields.now }
{
    fields
        .iter()
        .any(|field| is_named(head, field, b"transfer-encoding"))
}

/// Returns the values of the fields `office-key`.
pub(crate) fn keys(
    alloc: Global,
    head: &[u8],
    fields: &[HeaderSpan],
) -> Result<Vec<Key>, AllocError>
    requires { All (IsHeaderWithin (length head.now)) fields.now }
    ensures { IfOk result (λ keys. keys.items ≡ values_with (codes "office-key") (pairs_at head.now fields.now)) }
{
    let mut keys = Vec::new(alloc);
    for field in fields {
        if is_named(head, field, b"office-key") {
            keys.push(Key::new(Vec::from_slice(alloc, field.value.of(head))?))?;
        }
    }
    Ok(keys)
}

/// True if the field has the name, which is in lower case.
fn is_named(head: &[u8], field: &HeaderSpan, name: &[u8]) -> bool
    requires within { IsHeaderWithin (length head.now) field.now }
    requires lower { map to_ascii_lowercase name.now ≡ name.now }
    ensures { result ≡ is_name name.now (span_bytes head.now field.now.name) }
{
    field.name.of(head).eq_ignore_ascii_case(name)
}
