//! A logarithm, by which `peels` prefers likely members.

use prove_limits::Narrow;

/// Returns about 16 times the binary logarithm of 128 times a number above 0, from its bit length and the four bits after the first.
/// Returns 0 for other numbers.
pub(crate) fn log(number: Narrow) -> i64 {
    if number.get() <= 0 {
        return 0;
    }
    let value = number.get().unsigned_abs();
    let bits = u64::BITS.saturating_sub(value.leading_zeros());
    let behind = if bits >= 5 {
        value >> (bits - 5)
    } else {
        value << (5 - bits)
    };
    i64::from((bits + 6) * 16) + (behind % 16) as i64
}
