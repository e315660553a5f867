//! The replies that refuse a request. Their bytes are fixed, so they need no memory.

ghost use Rattle.std.specs.Prelude.{◌≡◌};
ghost use Rattle.define_desk.specs.Replies.{reply_text};
ghost use Rattle.office_desk.specs.Refusals.{refusal_reply};

use http::StatusCode;

/// Why a request is refused.
#[derive(Clone, Copy, Debug, PartialEq, Eq)]
pub(crate) enum Refusal {
    /// The head or the body is too large.
    TooLarge,
    /// The bytes are no request.
    NoRequest,
    /// The keeper failed.
    Unavailable,
    /// There is no page at this path.
    NotFound,
    /// The page is asked for by a method other than `GET`.
    GetOnly,
    /// The page is asked for by a method other than `POST`.
    PostOnly,
    /// There isn't exactly one key, or no volunteer has it.
    UnknownKey,
    /// The volunteer can't withdraw any more.
    TooLate,
    /// No memory was left.
    OutOfMemory,
}

impl Refusal {
    /// Returns the status of the reply.
    pub(crate) fn status(self) -> u16
        ensures { result ≡ (refusal_reply self).status }
    {
        let status = match self {
            Refusal::TooLarge => StatusCode::PAYLOAD_TOO_LARGE,
            Refusal::NoRequest => StatusCode::BAD_REQUEST,
            Refusal::Unavailable => StatusCode::SERVICE_UNAVAILABLE,
            Refusal::NotFound => StatusCode::NOT_FOUND,
            Refusal::GetOnly | Refusal::PostOnly => StatusCode::METHOD_NOT_ALLOWED,
            Refusal::UnknownKey => StatusCode::UNAUTHORIZED,
            Refusal::TooLate => StatusCode::CONFLICT,
            Refusal::OutOfMemory => StatusCode::INSUFFICIENT_STORAGE,
        };
        status.as_u16()
    }

    /// Returns all bytes of the reply.
    pub(crate) fn text(self) -> &'static [u8]
        ensures { result.now ≡ reply_text (refusal_reply self) }
    {
        match self {
            Refusal::TooLarge =>
                b"HTTP/1.1 413 Payload Too Large\r\nContent-Type: application/json\r\nContent-Length: 14\r\nConnection: close\r\n\r\n{\"status\":413}",
            Refusal::NoRequest =>
                b"HTTP/1.1 400 Bad Request\r\nContent-Type: application/json\r\nContent-Length: 14\r\nConnection: close\r\n\r\n{\"status\":400}",
            Refusal::Unavailable =>
                b"HTTP/1.1 503 Service Unavailable\r\nContent-Type: application/json\r\nContent-Length: 14\r\nConnection: close\r\n\r\n{\"status\":503}",
            Refusal::NotFound =>
                b"HTTP/1.1 404 Not Found\r\nContent-Type: application/json\r\nContent-Length: 14\r\nConnection: close\r\n\r\n{\"status\":404}",
            Refusal::GetOnly =>
                b"HTTP/1.1 405 Method Not Allowed\r\nContent-Type: application/json\r\nAllow: GET\r\nContent-Length: 14\r\nConnection: close\r\n\r\n{\"status\":405}",
            Refusal::PostOnly =>
                b"HTTP/1.1 405 Method Not Allowed\r\nContent-Type: application/json\r\nAllow: POST\r\nContent-Length: 14\r\nConnection: close\r\n\r\n{\"status\":405}",
            Refusal::UnknownKey =>
                b"HTTP/1.1 401 Unauthorized\r\nContent-Type: application/json\r\nWWW-Authenticate: office-key\r\nContent-Length: 14\r\nConnection: close\r\n\r\n{\"status\":401}",
            Refusal::TooLate =>
                b"HTTP/1.1 409 Conflict\r\nContent-Type: application/json\r\nContent-Length: 14\r\nConnection: close\r\n\r\n{\"status\":409}",
            Refusal::OutOfMemory =>
                b"HTTP/1.1 507 Insufficient Storage\r\nContent-Type: application/json\r\nContent-Length: 14\r\nConnection: close\r\n\r\n{\"status\":507}",
        }
    }
}
