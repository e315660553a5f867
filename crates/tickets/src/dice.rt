//! Which ticket the digits of dice name.

ghost use Rattle.std.specs.Prelude.{◌≡◌, ◌<◌, ◌≤◌, ◌+◌, ◌*◌, ◌^◌, ◌≤ℤ◌, not, pos, length, position, unsigned_abs, IfOk};
ghost use Rattle.std.specs.Char.{is_ascii_digit};
ghost use Rattle.std.specs.Str.Parse.{digits_value};
ghost use Rattle.define_draws.specs.Dice.{first_accepted, group_at as words_of_group_at, name_ticket as words_of_name_ticket, named_at};
ghost use Rattle.tickets.specs.Reading.{AreDigits, AreGroupsOf};

use define_draws::{DiceStop, Named};

/// Returns which of `total` tickets the digits name; `total` is from 1 to 10^38. The digits are read in groups of the least size for which
/// there are at least as many groups as tickets. Each ticket has the same number of groups. The groups that are left over are refused, and
/// the first group that isn't refused names the ticket. An unfinished last group isn't read. Fails with `BadDigit` if a byte isn't one of
/// `0` to `9`, else with `MoreDigits` if no group names a ticket.
pub fn name_ticket(total: i128, digits: &[u8]) -> Result<Named, DiceStop>
    requires some { pos 1 ≤ℤ total }
    requires most { total ≤ℤ pos (10 ^ 38) }
    ensures named { result ≡ words_of_name_ticket (unsigned_abs total) digits.now }
    ensures from { IfOk result (λ named. pos 0 ≤ℤ named.ticket) }
    ensures below { IfOk result (λ named. unsigned_abs named.ticket < unsigned_abs total) }
{
    match first_other(digits) {
        Some(place) => Err(DiceStop::BadDigit { place: place + 1 }),
        None => {
            let total = total.unsigned_abs();
            first_named(total, groups_of(total), digits)
        }
    }
}

/// Returns the place, counted from 0, of the first byte that is no digit, if there is one.
fn first_other(digits: &[u8]) -> Option<usize>
    ensures { result ≡ position (λ byte. not (is_ascii_digit byte)) digits.now }
{
    digits.iter().position(|byte| !byte.is_ascii_digit())
}

/// How digits are read in groups.
#[derive(Clone, Copy, Debug)]
struct Groups {
    /// How many digits a group has.
    size: usize,
    /// How many groups name one ticket.
    groups_per_ticket: u128,
}

/// Returns the groups for a total from 1 to 10^38.
fn groups_of(total: u128) -> Groups
    requires some { 1 ≤ total }
    requires most { total ≤ 10 ^ 38 }
    ensures { AreGroupsOf total result }
{
    let mut size = 1;
    let mut count: u128 = 10;
    while count < total {
        count *= 10;
        size += 1;
    }
    Groups {
        size,
        groups_per_ticket: count / total,
    }
}

/// Returns the ticket that the first accepted group names. All bytes of `digits` are digits.
fn first_named(total: u128, groups: Groups, digits: &[u8]) -> Result<Named, DiceStop>
    requires some { 1 ≤ total }
    requires most { total ≤ 10 ^ 38 }
    requires groups { AreGroupsOf total groups }
    requires digits { AreDigits digits.now }
    ensures named { result ≡ named_at total digits.now (first_accepted total digits.now) }
    ensures below { IfOk result (λ named. (pos 0 ≤ℤ named.ticket) × (unsigned_abs named.ticket < total)) }
{
    let accepted = total * groups.groups_per_ticket;
    for place in 0..digits.len() / groups.size {
        let group = group_at(groups.size, digits, place);
        if group < accepted {
            return Ok(Named {
                ticket: (group / groups.groups_per_ticket) as i128,
                used: (place + 1) * groups.size,
            });
        }
    }
    Err(DiceStop::MoreDigits { read: digits.len() })
}

/// Returns the number of the group at `place`, counted from 0.
fn group_at(size: usize, digits: &[u8], place: usize) -> u128
    requires few { size ≤ 38 }
    requires digits { AreDigits digits.now }
    requires inside { (place + 1) * size ≤ length digits.now }
    ensures { result ≡ words_of_group_at size digits.now place }
{
    let first = place * size;
    value_of(&digits[first..first + size])
}

/// Returns the number that these digits spell; there are at most 38.
fn value_of(digits: &[u8]) -> u128
    requires few { length digits.now ≤ 38 }
    requires digits { AreDigits digits.now }
    ensures { result ≡ digits_value 10 digits.now }
{
    let mut value: u128 = 0;
    for digit in digits {
        value = value * 10 + (*digit - b'0') as u128;
    }
    value
}
