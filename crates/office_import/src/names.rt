//! Whether a name is allowed.

ghost use Rattle.std.specs.Prelude.{◌≡◌};
ghost use Rattle.define_pools.specs.Pool.{is_name as is_allowed};

use crate::records::is_utf8;
use pool_model::keeps_name_limits;

/// True if a text may be a name: 1 to 200 bytes, none below 32 and none 127.
pub(crate) fn is_text_name(text: &str) -> bool
    ensures { result ≡ is_allowed text.now }
{
    keeps_name_limits(text.as_bytes())
}

/// True if a field may be a name: it is UTF-8, and within the limits.
pub(crate) fn is_name(field: &[u8]) -> bool
    ensures { result ≡ is_allowed field.now }
{
    keeps_name_limits(field) && is_utf8(field)
}
