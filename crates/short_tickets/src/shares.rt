//! The share of a row: its weight over the total, times the number of tickets, as a whole number and a remainder.

ghost use Rattle.std.specs.Prelude.{◌≡◌, ◌<◌, ◌≤◌, ◌+◌, ◌*◌, ◌^◌};
ghost use Rattle.define_draws.specs.Short.{remainder, whole_tickets};
ghost use Rattle.short_tickets.specs.Parts.{IsShare};

use pool_model::LotteryRow;

/// A share, as `whole + remainder / total` tickets, with a remainder below the total.
#[derive(Clone, Copy, Debug)]
pub(crate) struct Share {
    /// The share, rounded down.
    pub whole: u128,
    /// What rounding down cuts off, times the total.
    pub remainder: u128,
}

/// Returns the share of a row. The product of a weight and the number of tickets may pass 128 bits, so the share is doubled as often as
/// the number of tickets has binary digits, and the weight is added where the digit is 1.
pub(crate) fn share_of(total: u128, tickets: u128, row: &LotteryRow) -> Share
    requires weight { row.now.weight ≤ total }
    requires some { 1 ≤ total }
    requires most { total ≤ 10 ^ 38 }
    requires tickets { tickets ≤ 10 ^ 9 }
    ensures whole { result.whole ≡ whole_tickets total tickets row.now.weight }
    ensures remainder { result.remainder ≡ remainder total tickets row.now.weight }
    ensures few { result.whole ≤ tickets }
{
    share_of_weight(total, tickets, row.weight().unsigned_abs())
}

/// Returns the share of a row with this weight.
fn share_of_weight(total: u128, tickets: u128, weight: u128) -> Share
    requires weight { weight ≤ total }
    requires some { 1 ≤ total }
    requires most { total ≤ 10 ^ 38 }
    requires tickets { tickets ≤ 10 ^ 9 }
    ensures share { IsShare total (weight * tickets) result }
    ensures few { result.whole ≤ tickets }
{
    if tickets == 0 {
        return Share {
            whole: 0,
            remainder: 0,
        };
    }
    let half = share_of_weight(total, tickets / 2, weight);
    let double = carried(total, half.whole * 2, half.remainder * 2);
    if tickets % 2 == 0 {
        double
    } else {
        carried(total, double.whole, double.remainder + weight)
    }
}

/// Returns the share of `whole + parts / total` tickets. `parts` is below twice the total.
fn carried(total: u128, whole: u128, parts: u128) -> Share
    requires parts { parts < 2 * total }
    requires most { total ≤ 10 ^ 38 }
    requires whole { whole ≤ 2 * 10 ^ 9 }
    ensures { IsShare total (whole * total + parts) result }
{
    if parts < total {
        Share {
            whole,
            remainder: parts,
        }
    } else {
        Share {
            whole: whole + 1,
            remainder: parts - total,
        }
    }
}
