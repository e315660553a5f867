//! A request: its method, its path and the keys that were given.

ghost use Rattle.std.specs.Prelude.{◌≡◌, string_bytes};

use std::marker::Model;

/// A key that a request gives. It may have any bytes.
#[derive(Debug, Drop)]
pub struct Key {
    bytes: Vec<u8>,
}

impl Model for Key {
    ghost use Rattle.std.specs.Prelude.{List, ℕ};

    ghost Value = { List ℕ };

    ghost view = { λ k. k.bytes.items };
}

impl Key {
    /// Returns the key of these bytes.
    pub fn new(bytes: Vec<u8>) -> Key
        ensures { result ≡ bytes.items }
    {
        Key { bytes }
    }

    /// Returns the bytes of the key.
    pub fn as_bytes(&self) -> &[u8]
        ensures { result.now ≡ self.now }
    {
        self.bytes.as_slice()
    }
}

/// A request to the desk: its method, its path and its keys.
#[derive(Debug, Drop)]
pub struct Request {
    method: Vec<u8>,
    path: String,
    keys: Vec<Key>,
}

impl Model for Request {
    ghost use Rattle.std.specs.Prelude.{string_bytes};
    ghost use Rattle.define_desk.specs.Requests.{Request as Seen};

    ghost Value = { Seen };

    ghost view = { λ r. record { method = r.method.items; path = string_bytes r.path; keys = r.keys.items } };
}

impl Request {
    /// Returns the request of these parts.
    pub fn new(method: Vec<u8>, path: String, keys: Vec<Key>) -> Request
        ensures { result ≡ record { method = method.items; path = string_bytes path; keys = keys.items } }
    {
        Request { method, path, keys }
    }

    /// Returns the method, for instance `GET`.
    pub fn method(&self) -> &[u8]
        ensures { result.now ≡ self.now.method }
    {
        self.method.as_slice()
    }

    /// Returns the path: the target up to its first `?`.
    pub fn path(&self) -> &str
        ensures { result.now ≡ self.now.path }
    {
        self.path.as_str()
    }

    /// Returns the keys: the values of the fields `office-key`.
    pub fn keys(&self) -> &[Key]
        ensures { result.now ≡ self.now.keys }
    {
        &self.keys
    }
}
