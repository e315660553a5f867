//! Replies with the status 200: status line, fields, and the body as it is given.

ghost use Rattle.std.specs.Prelude.{◌≡◌, IfOk, string_bytes};
ghost use Rattle.define_desk.specs.Replies.{phrase_of, status_line as line_of_status, told, told_text};
ghost use Rattle.office_desk.specs.Heads.{told_as, told_head};
ghost use Rattle.office_desk.specs.Sent.{sent_of};

use crate::answers::Answer;
use http::StatusCode;
use std::alloc::{AllocError, Global};

/// Returns the answer with a body of JSON.
pub(crate) fn told_json(alloc: Global, body: &str) -> Result<Answer, AllocError>
    ensures { IfOk result (λ answer. answer ≡ sent_of (told body.now)) }
{
    told_with(alloc, "application/json", body.as_bytes())
}

/// Returns the answer with a body of plain text.
pub(crate) fn told_plain(alloc: Global, body: &[u8]) -> Result<Answer, AllocError>
    ensures { IfOk result (λ answer. answer ≡ sent_of (told_text body.now)) }
{
    told_with(alloc, "text/plain; charset=utf-8", body)
}

/// Returns the answer with a body of this media type.
fn told_with(alloc: Global, media: &str, body: &[u8]) -> Result<Answer, AllocError>
    ensures { IfOk result (λ answer. answer ≡ sent_of (told_as media.now body.now)) }
{
    let mut bytes = head(alloc, media, body.len())?.into_bytes();
    bytes.extend_from_slice(body)?;
    Ok(Answer::told(bytes))
}

/// Returns the head of a reply with a body of `size` bytes: the status line, the headers and the empty line.
fn head(alloc: Global, media: &str, size: usize) -> Result<String, AllocError>
    ensures { IfOk result (λ head. string_bytes head ≡ told_head media.now size) }
{
    let mut head = status_line(alloc, StatusCode::OK)?;
    head.push_str("Content-Type: ")?;
    head.push_str(media)?;
    head.push_str("\r\nContent-Length: ")?;
    let digits = size.to_string(alloc)?;
    head.push_str(digits.as_str())?;
    head.push_str("\r\nConnection: close\r\n\r\n")?;
    Ok(head)
}

/// Returns the first line of a reply, with its end.
fn status_line(alloc: Global, status: StatusCode) -> Result<String, AllocError>
    ensures { IfOk result (λ line. string_bytes line ≡ line_of_status status) }
{
    let mut line = String::from_str(alloc, "HTTP/1.1 ")?;
    let digits = status.as_u16().to_string(alloc)?;
    line.push_str(digits.as_str())?;
    line.push_str(" ")?;
    line.push_str(phrase(status))?;
    line.push_str("\r\n")?;
    Ok(line)
}

/// Returns the standard's phrase for a status, or an empty text if it has none.
fn phrase(status: StatusCode) -> &'static str
    ensures { result.now ≡ phrase_of status }
{
    match status.canonical_reason() {
        Some(phrase) => phrase,
        None => "",
    }
}
