//! The first cause that applies to a front.

ghost use Rattle.std.specs.Prelude.{◌≡◌, ◌≤◌, [], drop, length, option_map};
ghost use Rattle.std.specs.List.{find, range_with_len};
ghost use Rattle.check_search.specs.Front.{Tracks};
ghost use Rattle.check_search.specs.Terms.{AreTerms};
ghost use Rattle.cover_text.specs.Causes.{seen_cause};
ghost use Rattle.define_covers.specs.Causes.{all_values, applies};
ghost use Rattle.define_covers.specs.Covers.{ByClosed, ByValue};
ghost use Rattle.define_covers.specs.FirstCause.{first_cause as first_cause_of};
ghost use Rattle.define_searches.specs.Front.{AreWithin};

use crate::judging::{does_apply, go_back, go_to};
use check_search::{Tally, Terms};
use cover_text::Cause;

/// Returns the first cause that applies to a front, or None if the front is live. The classes have `values` values in all categories. The
/// tally is brought to the front and back.
pub(crate) fn first_cause(
    terms: &Terms,
    values: usize,
    tally: &mut Tally,
    front: &[usize],
) -> Option<Cause>
    requires terms { AreTerms terms.now }
    requires values { values ≡ length (all_values terms.now.classes) }
    requires fits { length front.now ≤ length terms.now.classes.classes }
    requires within { AreWithin terms.now.classes front.now }
    requires begins { Tracks terms.now.classes [] terms.now.classes.classes tally.old }
    ensures cause { option_map seen_cause result ≡ first_cause_of terms.now.classes terms.now.closed.items terms.now.row front.now }
    ensures again { Tracks terms.now.classes [] terms.now.classes.classes tally.new }
{
    let classes = &terms.classes;
    go_to(classes, tally, front);
    let cause = cause_here(terms, values, tally, front);
    go_back(classes, tally, front);
    cause
}

/// Returns the first cause that applies to the front of the tally.
fn cause_here(terms: &Terms, values: usize, tally: &Tally, front: &[usize]) -> Option<Cause>
    requires terms { AreTerms terms.now }
    requires values { values ≡ length (all_values terms.now.classes) }
    requires fits { length front.now ≤ length terms.now.classes.classes }
    requires within { AreWithin terms.now.classes front.now }
    requires stands { Tracks terms.now.classes front.now (drop (length front.now) terms.now.classes.classes) tally.now }
    ensures { option_map seen_cause result ≡ first_cause_of terms.now.classes terms.now.closed.items terms.now.row front.now }
{
    if does_apply(terms, tally, front, Cause::Size) {
        return Some(Cause::Size);
    }
    if let Some(number) = first_value(terms, values, tally, front) {
        return Some(Cause::Value(number));
    }
    if does_apply(terms, tally, front, Cause::Household) {
        return Some(Cause::Household);
    }
    if let Some(number) = first_closed(terms, tally, front) {
        return Some(Cause::Closed(number));
    }
    if does_apply(terms, tally, front, Cause::Cap) {
        return Some(Cause::Cap);
    }
    None
}

/// Returns the number of the first value whose bounds the front of the tally can't keep.
fn first_value(terms: &Terms, values: usize, tally: &Tally, front: &[usize]) -> Option<usize>
    requires terms { AreTerms terms.now }
    requires fits { length front.now ≤ length terms.now.classes.classes }
    requires within { AreWithin terms.now.classes front.now }
    requires stands { Tracks terms.now.classes front.now (drop (length front.now) terms.now.classes.classes) tally.now }
    ensures { result ≡ find (λ number. applies terms.now.classes terms.now.closed.items terms.now.row front.now (ByValue number)) (range_with_len 1 values) }
{
    for place in 0..values {
        if does_apply(terms, tally, front, Cause::Value(place + 1)) {
            return Some(place + 1);
        }
    }
    None
}

/// Returns the number of the first earlier stage whose cap the front of the tally can't attain.
fn first_closed(terms: &Terms, tally: &Tally, front: &[usize]) -> Option<usize>
    requires terms { AreTerms terms.now }
    requires fits { length front.now ≤ length terms.now.classes.classes }
    requires within { AreWithin terms.now.classes front.now }
    requires stands { Tracks terms.now.classes front.now (drop (length front.now) terms.now.classes.classes) tally.now }
    ensures { result ≡ find (λ number. applies terms.now.classes terms.now.closed.items terms.now.row front.now (ByClosed number)) (range_with_len 1 (length terms.now.closed.items)) }
{
    for place in 0..terms.closed.len() {
        if does_apply(terms, tally, front, Cause::Closed(place + 1)) {
            return Some(place + 1);
        }
    }
    None
}
