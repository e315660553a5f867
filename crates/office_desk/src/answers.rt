//! What the desk sends, as a value: a status, and the bytes of a reply.

ghost use Rattle.std.specs.Prelude.{◌≡◌};
ghost use Rattle.office_desk.specs.Sent.{sent_of};
ghost use Rattle.office_desk.specs.Refusals.{refusal_reply};

use crate::refusals::Refusal;
use http::StatusCode;
use std::marker::Model;

/// What the desk sends: a status, and all bytes of a reply. Contracts see it as the record of both.
#[derive(Debug, Drop)]
pub struct Answer {
    content: Content,
}

/// What an answer holds: the bytes of a reply with the status 200, or a refusal, whose bytes are fixed.
#[derive(Debug, Drop)]
enum Content {
    Told(Vec<u8>),
    Refused(Refusal),
}

impl Model for Answer {
    ghost use Rattle.office_desk.specs.Sent.{Sent};
    ghost use Rattle.office_desk.specs.Contents.{content_sent};

    ghost Value = { Sent };

    ghost view = { λ a. content_sent a.content };
}

impl Answer {
    /// Returns the answer with the status 200 and these bytes.
    pub(crate) fn told(bytes: Vec<u8>) -> Answer
        ensures { result ≡ record { status = 200; bytes = bytes.items } }
    {
        Answer {
            content: Content::Told(bytes),
        }
    }

    /// Returns the refusal.
    pub(crate) fn refused(refusal: Refusal) -> Answer
        ensures { result ≡ sent_of (refusal_reply refusal) }
    {
        Answer {
            content: Content::Refused(refusal),
        }
    }

    /// Returns the status.
    pub fn status(&self) -> u16
        ensures { result ≡ self.now.status }
    {
        match &self.content {
            Content::Told(_) => StatusCode::OK.as_u16(),
            Content::Refused(refusal) => refusal.status(),
        }
    }

    /// Returns all bytes of the reply, from the status line to the end of the body.
    pub fn bytes(&self) -> &[u8]
        ensures { result.now ≡ self.now.bytes }
    {
        match &self.content {
            Content::Told(bytes) => bytes,
            Content::Refused(refusal) => refusal.text(),
        }
    }
}
