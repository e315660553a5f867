//! What a head asks for.

ghost use Rattle.std.specs.Prelude.{◌≡◌, ◌≤◌, ℕ, codes, length, List, All, IfNone, IfOk, IfSome, IsUtf8, string_bytes, take};
ghost use Rattle.std.specs.Str.{IsCharBoundary};
ghost use Rattle.httparse.specs.Grammar.{RequestHead};
ghost use Rattle.httparse.specs.Spans.{IsHeaderWithin, IsRequestAt, IsWithin, span_bytes};
ghost use Rattle.define_desk.specs.Requests.{IsHead, asking_by, most_of_body, path_of};
ghost use Rattle.office_requests.specs.Heads.{IsHeadAt, IsHeadBy, IsWanted, asks_then, body_after, pairs_at, values_with};

use crate::fields::{body_size, is_encoded, keys};
use crate::requests::Request;
use httparse::Status;
use httparse::spans::{EMPTY_HEADER_SPAN, HeaderSpan, RequestSpans, parse_request};
use std::alloc::{AllocError, Global};

// The limits of a request: the most fields that its head may have, and the most bytes that its body may have.
const MOST_FIELDS: usize = 64;

const MOST_OF_BODY: u64 = 65536;

/// What a head asks for.
#[derive(Drop)]
pub(crate) enum Wanted {
    /// The body is too large.
    TooLarge,
    /// There is no request: the bytes are no head, or the head has a field `Transfer-Encoding`, two fields `Content-Length`, or one that
    /// is no number.
    NoRequest,
    /// The head asks for `request`, if a body of `body` bytes follows.
    Asks { request: Request, body: usize },
}

/// Returns what the head asks for.
pub(crate) fn wanted_by(alloc: Global, head: &[u8]) -> Result<Wanted, AllocError>
    ensures asks { IfOk result (IsWanted head.now) }
    ensures small { IfOk result (λ wanted. body_after wanted ≤ most_of_body) }
{
    let mut fields = [EMPTY_HEADER_SPAN; MOST_FIELDS];
    match read_head(head, &mut fields) {
        Some(spans) => wanted_of(alloc, head, &fields, &spans),
        None => Ok(Wanted::NoRequest),
    }
}

/// Returns where the parts of the head are, or `None` if `head` isn't exactly one head with at most 64 fields.
fn read_head(head: &[u8], fields: &mut [HeaderSpan]) -> Option<RequestSpans>
    requires { length fields.old ≡ MOST_FIELDS }
    ensures head { IfSome result (λ spans. (h : RequestHead) × IsHeadAt head.now fields.new spans h) }
    ensures by { IfSome result (IsHeadBy head.now fields.new) }
    ensures refused { IfNone result ((h : RequestHead) → ¬ (IsHead head.now h)) }
{
    match parse_request(head, fields) {
        Ok(Status::Complete(spans)) if spans.len == head.len() => Some(spans),
        _ => None,
    }
}

/// Returns what the head with these parts asks for.
fn wanted_of(
    alloc: Global,
    head: &[u8],
    fields: &[HeaderSpan],
    spans: &RequestSpans,
) -> Result<Wanted, AllocError>
    requires { IsHeadBy head.now fields.now spans.now }
    ensures small { IfOk result (λ wanted. body_after wanted ≤ most_of_body) }
    ensures asks { IfOk result (λ wanted. (h : RequestHead) → IsRequestAt head.now fields.now spans.now h
        → (rest : List ℕ) → asks_then wanted rest ≡ asking_by h rest) }
{
    let given = &fields[..spans.headers];
    let Some(body) = body_size(head, given) else {
        return Ok(Wanted::NoRequest);
    };
    if body > MOST_OF_BODY {
        return Ok(Wanted::TooLarge);
    }
    if is_encoded(head, given) {
        return Ok(Wanted::NoRequest);
    }
    Ok(Wanted::Asks {
        request: request_of(alloc, head, given, spans)?,
        body: body as usize,
    })
}

/// Returns the request of a head with these fields and parts.
fn request_of(
    alloc: Global,
    head: &[u8],
    given: &[HeaderSpan],
    spans: &RequestSpans,
) -> Result<Request, AllocError>
    requires given { All (IsHeaderWithin (length head.now)) given.now }
    requires method { IsWithin (length head.now) spans.now.method }
    requires path { IsWithin (length head.now) spans.now.path }
    requires text { IsUtf8 (span_bytes head.now spans.now.path) }
    ensures { IfOk result (λ request. request ≡ record {
      method = span_bytes head.now spans.now.method;
      path = path_of (span_bytes head.now spans.now.path);
      keys = values_with (codes "office-key") (pairs_at head.now given.now);
    }) }
{
    let method = Vec::from_slice(alloc, spans.method.of(head))?;
    let path = path_of(alloc, spans.path.of(head))?;
    Ok(Request::new(method, path, keys(alloc, head, given)?))
}

/// Returns the target up to its first `?`. It is UTF-8, so nothing is replaced.
fn path_of(alloc: Global, target: &[u8]) -> Result<String, AllocError>
    requires { IsUtf8 target.now }
    ensures { IfOk result (λ path. string_bytes path ≡ path_of target.now) }
{
    String::from_utf8_lossy(alloc, &target[..path_size(target)])
}

/// Returns how many bytes come before the first `?`.
fn path_size(target: &[u8]) -> usize
    ensures path { take result target.now ≡ path_of target.now }
    ensures cut { IsCharBoundary target.now result }
{
    for (at, byte) in target.iter().enumerate() {
        if *byte == b'?' {
            return at;
        }
    }
    target.len()
}
