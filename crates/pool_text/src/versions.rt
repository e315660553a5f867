//! The versions of a pool's text: what each one has, the first line of each, and which one a pool has.

ghost use Rattle.std.specs.Prelude.{◌≡◌, IfSome, IfNone, IsTrue, false};
ghost use Rattle.define_bundles.specs.PoolText.{version_line as first_line, version_field, version_of as own_version};
ghost use Rattle.define_bundles.specs.PoolReading.{limits_in as limits, may_house as may, must_house as must, must_pass as passes, is_version_line, version_said};

use define_bundles::Version;
use pool_model::{Limits, Pool, has_households};

/// The first line of each version.
const FIRST: &[u8] = b"pool\t1";

const SECOND: &[u8] = b"pool\t2";

const THIRD: &[u8] = b"pool\t3";

/// Returns the first line of a text of this version.
pub fn version_line(version: Version) -> &'static [u8]
    ensures { result.now ≡ first_line version }
{
    match version {
        Version::First => FIRST,
        Version::Second => SECOND,
        Version::Third => THIRD,
    }
}

/// Returns the field that spells the version.
pub fn version_word(version: Version) -> &'static [u8]
    ensures { result.now ≡ version_field version }
{
    match version {
        Version::First => b"1",
        Version::Second => b"2",
        Version::Third => b"3",
    }
}

/// Returns the version of the pool's text.
pub fn version_of(pool: &Pool) -> Version
    ensures { result ≡ own_version pool.now }
{
    if !pool.is_usual() {
        Version::Third
    } else if has_households(pool) {
        Version::Second
    } else {
        Version::First
    }
}

/// Returns the version that a first line says, if it is one.
pub(crate) fn version_in(line: &[u8]) -> Option<Version>
    ensures said { IfSome result (λ version. IsTrue (is_version_line line.now) × (version ≡ version_said line.now)) }
    ensures none { IfNone result (is_version_line line.now ≡ false) }
{
    if line == FIRST {
        Some(Version::First)
    } else if line == SECOND {
        Some(Version::Second)
    } else if line == THIRD {
        Some(Version::Third)
    } else {
        None
    }
}

/// Returns the limits of a pool whose text has this version.
pub(crate) fn limits_in(version: Version) -> Limits
    ensures { result ≡ limits version }
{
    match version {
        Version::First | Version::Second => Limits::Usual,
        Version::Third => Limits::Large,
    }
}

/// True if a text of this version may have household lines.
pub(crate) fn may_house(version: Version) -> bool
    ensures { result ≡ may version }
{
    match version {
        Version::First => false,
        Version::Second | Version::Third => true,
    }
}

/// True if a text of this version has household lines.
pub(crate) fn must_house(version: Version) -> bool
    ensures { result ≡ must version }
{
    match version {
        Version::Second => true,
        Version::First | Version::Third => false,
    }
}

/// True if a text of this version has a pool beyond the usual limits.
pub(crate) fn must_pass(version: Version) -> bool
    ensures { result ≡ passes version }
{
    match version {
        Version::Third => true,
        Version::First | Version::Second => false,
    }
}
