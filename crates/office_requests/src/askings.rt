//! What the bytes of a connection ask for, and why `read_asking` may be unable to say it.

use crate::requests::Request;
use thiserror::Error;

/// What bytes ask for.
#[derive(Debug, Drop)]
pub enum Asking {
    /// A head of more than 8,192 bytes, or a body of more than 65,536.
    TooLarge,
    /// The bytes are no request, or they end before the body of the request does.
    NoRequest,
    /// A request.
    Asks(Request),
}

/// Why `read_asking` can't say what the bytes ask for.
#[derive(Clone, Copy, Debug, PartialEq, Eq, Error)]
pub enum RequestStop {
    /// The link failed.
    #[error("the link failed")]
    LinkFault,
    /// No memory was left.
    #[error("out of memory")]
    OutOfMemory,
}
