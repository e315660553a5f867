//! How many sets of variables could be basic in a table. Bland's rule makes fewer pivots between two changes of the table's size.

ghost use Rattle.std.specs.Prelude.{◌≡◌, ◌≤◌, ◌<◌, ◌+◌, ◌*◌, ◌^◌, ℕ, pos, SomeIff};
ghost use Rattle.define_rows.specs.Binomials.{basis_count, binomial};

/// The greatest bound that is told, 10^38.
const GREATEST_BOUND: u128 = 100000000000000000000000000000000000000;

/// Returns how many sets of variables could be basic in a table with `m` classes, `s` stage variables and `q` columns: the number of ways
/// to choose m + 1 of m + s + q things. `None` if that is above 10^38.
pub fn basis_bound(m: u64, s: u64, q: u64) -> Option<i128>
    requires { 1 ≤ m }
    ensures { SomeIff result (basis_count m s q ≤ 10 ^ 38) (pos (basis_count m s q)) }
{
    let chosen = m as u128 + 1;
    let others = s as u128 + q as u128;
    if others == 0 {
        // There are only m variables, one for each class.
        return Some(0);
    }
    let left_out = others - 1;
    let bases = choices(chosen.max(left_out), chosen.min(left_out))?;
    Some(bases as i128)
}

/// Returns in how many ways `size` of `rest + size` things can be chosen, or `None` if that is above 10^38. Takes at most 127 turns: each
/// at least doubles the number.
fn choices(rest: u128, size: u128) -> Option<u128>
    requires few { rest ≤ 2 ^ 65 }
    requires half { size ≤ rest }
    ensures { SomeIff result (binomial (rest + size) size ≤ 10 ^ 38) (binomial (rest + size) size) }
{
    let mut ways = 1;
    for chosen in 0..size {
        ways = scaled(ways, rest + chosen + 1, chosen + 1)?;
    }
    Some(ways)
}

/// Returns `number * factor / divisor`, which is whole, or `None` if it is above 10^38. Divides first, since the product could overflow.
fn scaled(number: u128, factor: u128, divisor: u128) -> Option<u128>
    requires some { 0 < divisor }
    requires few { divisor * factor < 2 ^ 128 }
    requires whole { (ratio : ℕ) × (divisor * ratio ≡ factor * number) }
    ensures { (ratio : ℕ) → divisor * ratio ≡ factor * number → SomeIff result (ratio ≤ 10 ^ 38) ratio }
{
    let quotient = (number / divisor).checked_mul(factor)?;
    let rest = number % divisor * factor / divisor;
    let ratio = quotient.checked_add(rest)?;
    if ratio <= GREATEST_BOUND {
        Some(ratio)
    } else {
        None
    }
}
