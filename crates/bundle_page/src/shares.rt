//! The numbers of a value: how many volunteers have it, its bounds, and the seats that are expected.

ghost use Rattle.std.specs.Prelude.{◌≡◌, ◌≤◌, ◌^◌, ◌==◌, not, ◌&&◌, length, slice_index, EachIndex};
ghost use Rattle.bundle_page.specs.Numbers.{is_gone as is_gone_one, share_of as words_of_share, present_with as words_of_present};

use crate::sizes::is_gone;
use crate::{rounded_sum, sum_with};
use pool_model::{BoundedValue, Volunteer};

/// The numbers of a value.
#[derive(Clone, Copy, Debug)]
pub(crate) struct Share {
    /// How many volunteers who aren't gone have the value.
    pub(crate) volunteers: usize,
    /// The least number of seats for those who have the value.
    pub(crate) lower: usize,
    /// The greatest number of seats for those who have the value.
    pub(crate) upper: usize,
    /// The seats that are expected for those who have the value, in ten-thousandths of a seat.
    pub(crate) expected: u128,
}

/// Returns the numbers of the value at `value_place` of the category at `place`.
pub(crate) fn share_of(
    volunteers: &[Volunteer],
    counts: &[u128],
    total: u128,
    place: usize,
    value_place: usize,
    value: &BoundedValue,
) -> Share
    requires each { length counts.now ≡ length volunteers.now }
    requires few { length volunteers.now ≤ 4000 }
    requires within { EachIndex counts.now (λ i. slice_index counts.now i ≤ total) }
    requires some { 1 ≤ total }
    requires most { total ≤ 10 ^ 38 }
    ensures value { result ≡ words_of_share volunteers.now counts.now total place value_place value.now }
    ensures few { result.expected ≤ 40010000 }
{
    let sum = sum_with(volunteers, counts, total, place, value_place);
    Share {
        volunteers: present_with(volunteers, place, value_place),
        lower: value.lower(),
        upper: value.upper(),
        expected: rounded_sum(sum, total),
    }
}

/// Returns how many volunteers who aren't gone have the value at `value_place` of the category at `place`.
fn present_with(volunteers: &[Volunteer], place: usize, value_place: usize) -> usize
    ensures { result ≡ words_of_present volunteers.now place value_place }
{
    volunteers
        .iter()
        .filter(|volunteer| is_present_with(volunteer, place, value_place))
        .count()
}

/// True if the volunteer isn't gone and has the value at `value_place` of the category at `place`.
fn is_present_with(volunteer: &Volunteer, place: usize, value_place: usize) -> bool
    ensures { result ≡ (not (is_gone_one volunteer.now.standing) && slice_index volunteer.now.values place == value_place) }
{
    !is_gone(volunteer.standing()) && value_at(volunteer, place) == value_place
}

/// Returns the place of a volunteer's value in the category at `place`, or 0 if there is no such category.
pub(crate) fn value_at(volunteer: &Volunteer, place: usize) -> usize
    ensures { result ≡ slice_index volunteer.now.values place }
{
    volunteer.values().get(place).copied().unwrap_or(0)
}
