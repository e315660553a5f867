//! Names: whether one is allowed, and copies of lists of them.

ghost use Rattle.std.specs.Prelude.{◌≡◌, nat_le, ◌&&◌, IfOk};
ghost use Rattle.std.specs.List.{list_all};
ghost use Rattle.define_pools.specs.Pool.{is_name as is_allowed, is_household as is_allowed_household};
ghost use Rattle.define_offices.specs.Facts.{is_key as is_allowed_key};

use pool_model::{Name, keeps_name_limits};
use std::alloc::{AllocError, Global};

/// The most bytes that a key may have.
const MAX_KEY_LEN: usize = 200;

/// True if a name or id is allowed: 1 to 200 bytes, none of which is below 32 or is 127.
pub(crate) fn is_name(name: &str) -> bool
    ensures { result ≡ is_allowed name.now }
{
    keeps_name_limits(name.as_bytes())
}

/// True if there is no household, or its name is allowed.
pub(crate) fn is_household(household: &Option<Name>) -> bool
    ensures { result ≡ is_allowed_household household.now }
{
    match household {
        Some(name) => is_name(name.as_str()),
        None => true,
    }
}

/// True if a key is allowed: 1 to 200 bytes from 33 to 126.
pub(crate) fn is_key(key: &[u8]) -> bool
    ensures { result ≡ is_allowed_key key.now }
{
    1 <= key.len() && key.len() <= MAX_KEY_LEN && has_key_bytes(key)
}

fn has_key_bytes(key: &[u8]) -> bool
    ensures { result ≡ list_all (λ byte. nat_le 33 byte && nat_le byte 126) key.now }
{
    key.iter().all(|byte| 33 <= *byte && *byte <= 126)
}

/// Returns equal names.
pub(crate) fn copied_names(alloc: Global, names: &[Name]) -> Result<Vec<Name>, AllocError>
    ensures { IfOk result (λ copies. copies.items ≡ names.now) }
{
    let mut copies = Vec::new(alloc);
    for name in names {
        copies.push(name.copy()?)?;
    }
    Ok(copies)
}
