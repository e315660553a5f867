//! Bland's rule over the rows of a table. `Table::bland` calls it.

ghost use Rattle.std.specs.Prelude.{◌≡◌, ◌<◌, ◌^◌, [], length, map, IfNone, IfSome, true, false, pos, ◌≤ℤ◌, ◌<ℤ◌, unsigned_abs, position};
ghost use Rattle.std.specs.List.{All, find, range_with_len};
ghost use Rattle.std.specs.Option.{option_map};
ghost use Rattle.define_rows.specs.Table.{variables, coefficient_at, is_same, comes_before};
ghost use Rattle.define_rows.specs.Choice.{is_eligible, goes_before, may_leave, leaving, entering, choice};
ghost use Rattle.exact_table.specs.Best.{may_enter, IsLeaver, next_best};
ghost use Rattle.define_rows.specs.InOrder.{IsKnown, IsInOrder};
ghost use Rattle.exact_table.specs.Parts.{with_rows, AreRows, AreDifferent};

use crate::frame::Frame;
use define_rows::{Row, Var};
use frac128::compare;
use std::cmp::Ordering;

fn is_same(first: Var, second: Var) -> bool
    ensures { result ≡ is_same first second }
{
    match (first, second) {
        (Var::Slack(first_class), Var::Slack(second_class)) => first_class == second_class,
        (Var::Stage(first_stage), Var::Stage(second_stage)) => first_stage == second_stage,
        (Var::Column(first_column), Var::Column(second_column)) => first_column == second_column,
        _ => false,
    }
}

fn comes_before(first: Var, second: Var) -> bool
    ensures { result ≡ comes_before first second }
{
    match (first, second) {
        (Var::Slack(first_class), Var::Slack(second_class)) => first_class < second_class,
        (Var::Slack(_), Var::Stage(_)) => true,
        (Var::Slack(_), Var::Column(_)) => true,
        (Var::Stage(_), Var::Slack(_)) => false,
        (Var::Stage(first_stage), Var::Stage(second_stage)) => first_stage < second_stage,
        (Var::Stage(_), Var::Column(_)) => true,
        (Var::Column(_), Var::Slack(_)) => false,
        (Var::Column(_), Var::Stage(_)) => false,
        (Var::Column(first_column), Var::Column(second_column)) => first_column < second_column,
    }
}

// Returns the row in which a variable is basic, if there is one.
pub(crate) fn basic_row(basic: &[Var], variable: Var) -> Option<usize>
    ensures { result ≡ position (λ x. is_same x variable) basic.now }
{
    basic.iter().position(|x| is_same(*x, variable))
}

// Returns a variable's coefficient in row `row`.
pub(crate) fn coefficient_in(frame: &Frame, rows: &[Row], row: usize, variable: Var) -> i128
    requires known { IsKnown frame.now variable }
    requires rows { AreRows (with_rows frame.now rows.now []) }
    requires row { row < length rows.now }
    ensures value { result ≡ coefficient_at (with_rows frame.now rows.now []) row variable }
    ensures small { unsigned_abs result < 2 ^ 127 }
{
    frame.coefficient(&rows[row], variable)
}

// True if a variable's coefficient is 0 in each closed row.
fn is_eligible(frame: &Frame, rows: &[Row], variable: Var) -> bool
    requires known { IsKnown frame.now variable }
    requires rows { AreRows (with_rows frame.now rows.now []) }
    requires closed { All (λ i. i < length rows.now) frame.now.closed }
    ensures { result ≡ is_eligible (with_rows frame.now rows.now []) variable }
{
    let closed = frame.closed();
    for place in 0..closed.len() {
        if coefficient_in(frame, rows, closed[place], variable) != 0 {
            return false;
        }
    }
    true
}

// True if a variable is eligible and its coefficient in the open row is below 0.
fn may_enter(frame: &Frame, rows: &[Row], at: usize, variable: Var) -> bool
    requires known { IsKnown frame.now variable }
    requires rows { AreRows (with_rows frame.now rows.now []) }
    requires closed { All (λ i. i < length rows.now) frame.now.closed }
    requires place { at < length rows.now }
    ensures { result ≡ may_enter (with_rows frame.now rows.now []) at variable }
{
    if coefficient_in(frame, rows, at, variable) < 0 {
        is_eligible(frame, rows, variable)
    } else {
        false
    }
}

// Returns the first slack that may enter, or None.
fn first_slack(frame: &Frame, rows: &[Row], at: usize) -> Option<Var>
    requires rows { AreRows (with_rows frame.now rows.now []) }
    requires closed { All (λ i. i < length rows.now) frame.now.closed }
    requires place { at < length rows.now }
    ensures { result ≡ find (may_enter (with_rows frame.now rows.now []) at) (map Var.Slack (range_with_len 0 (length frame.now.sizes))) }
{
    let count = frame.sizes().len();
    for class in 0..count {
        if may_enter(frame, rows, at, Var::Slack(class)) {
            return Some(Var::Slack(class));
        }
    }
    None
}

// Returns the first stage variable that may enter, or None.
fn first_stage(frame: &Frame, rows: &[Row], at: usize) -> Option<Var>
    requires rows { AreRows (with_rows frame.now rows.now []) }
    requires closed { All (λ i. i < length rows.now) frame.now.closed }
    requires place { at < length rows.now }
    ensures { result ≡ find (may_enter (with_rows frame.now rows.now []) at) (map Var.Stage (range_with_len 0 (length frame.now.stages))) }
{
    let count = frame.stages();
    for stage in 0..count {
        if may_enter(frame, rows, at, Var::Stage(stage)) {
            return Some(Var::Stage(stage));
        }
    }
    None
}

// Returns the first column that may enter, or None.
fn first_column(frame: &Frame, rows: &[Row], at: usize) -> Option<Var>
    requires rows { AreRows (with_rows frame.now rows.now []) }
    requires closed { All (λ i. i < length rows.now) frame.now.closed }
    requires place { at < length rows.now }
    ensures { result ≡ find (may_enter (with_rows frame.now rows.now []) at) (map Var.Column (range_with_len 0 (length frame.now.columns))) }
{
    let count = frame.columns().len();
    for column in 0..count {
        if may_enter(frame, rows, at, Var::Column(column)) {
            return Some(Var::Column(column));
        }
    }
    None
}

// Returns the first variable that may enter, in the order slacks, stage variables, columns. None if none may.
fn first_to_enter(frame: &Frame, rows: &[Row], at: usize) -> Option<Var>
    requires rows { AreRows (with_rows frame.now rows.now []) }
    requires closed { All (λ i. i < length rows.now) frame.now.closed }
    requires place { at < length rows.now }
    ensures { result ≡ find (may_enter (with_rows frame.now rows.now []) at) (variables frame.now) }
{
    match first_slack(frame, rows, at) {
        Some(slack) => Some(slack),
        None => match first_stage(frame, rows, at) {
            Some(stage) => Some(stage),
            None => first_column(frame, rows, at),
        },
    }
}

// A row whose basic variable may leave.
#[derive(Clone, Copy)]
struct Leaver {
    row: usize,
    side: i128,
    // The coefficient of the variable that enters.
    coefficient: i128,
    basic: Var,
}

// True if the basic variable of row `one` leaves rather than that of `other`: its row's ratio of right side to coefficient is less, or the
// ratios are equal and it is the earlier variable.
fn goes_before(one: Leaver, other: Leaver) -> bool
    requires side { pos 0 ≤ℤ one.side }
    requires coefficient { pos 0 <ℤ one.coefficient }
    requires other_side { pos 0 ≤ℤ other.side }
    requires other_coefficient { pos 0 <ℤ other.coefficient }
    ensures { result ≡ goes_before one.side one.coefficient one.basic other.side other.coefficient other.basic }
{
    match compare(one.side, one.coefficient, other.side, other.coefficient) {
        Ordering::Less => true,
        Ordering::Equal => comes_before(one.basic, other.basic),
        Ordering::Greater => false,
    }
}

// Returns what the choice needs to know of row `row`, or None if the variable's coefficient in this row isn't positive.
fn leaver_at(
    frame: &Frame,
    rows: &[Row],
    basic: &[Var],
    variable: Var,
    row: usize,
) -> Option<Leaver>
    requires known { IsKnown frame.now variable }
    requires rows { AreRows (with_rows frame.now rows.now []) }
    requires basic { length basic.now ≡ length rows.now }
    requires row { row < length rows.now }
    ensures none { IfNone result (may_leave (with_rows frame.now rows.now basic.now) variable row ≡ false) }
    ensures row { IfSome result (λ here. here.row ≡ row) }
    ensures some { IfSome result (λ here. IsLeaver (with_rows frame.now rows.now basic.now) variable here.row here.side here.coefficient here.basic) }
{
    let coefficient = coefficient_in(frame, rows, row, variable);
    if coefficient > 0 {
        let side = rows[row].side();
        Some(Leaver {
            row,
            side,
            coefficient,
            basic: basic[row],
        })
    } else {
        None
    }
}

// Returns the better of row `row`, if its basic variable may leave, and `best`, the best of the rows before it.
fn next_best(
    frame: &Frame,
    rows: &[Row],
    basic: &[Var],
    variable: Var,
    row: usize,
    best: Option<Leaver>,
) -> Option<Leaver>
    requires known { IsKnown frame.now variable }
    requires rows { AreRows (with_rows frame.now rows.now []) }
    requires basic { length basic.now ≡ length rows.now }
    requires row { row < length rows.now }
    requires best { IfSome best (λ so_far. IsLeaver (with_rows frame.now rows.now basic.now) variable so_far.row so_far.side so_far.coefficient so_far.basic) }
    ensures row { option_map (λ here. here.row) result
        ≡ next_best (with_rows frame.now rows.now basic.now) variable row (option_map (λ so_far. so_far.row) best) }
    ensures leaver { IfSome result (λ here. IsLeaver (with_rows frame.now rows.now basic.now) variable here.row here.side here.coefficient here.basic) }
{
    match leaver_at(frame, rows, basic, variable, row) {
        None => best,
        Some(here) => match best {
            None => Some(here),
            Some(so_far) => {
                if goes_before(here, so_far) {
                    Some(here)
                } else {
                    Some(so_far)
                }
            }
        },
    }
}

// Returns the row whose basic variable leaves when the variable enters, if one may leave.
fn row_to_leave(frame: &Frame, rows: &[Row], basic: &[Var], variable: Var) -> Option<usize>
    requires known { IsKnown frame.now variable }
    requires rows { AreRows (with_rows frame.now rows.now []) }
    requires basic { length basic.now ≡ length rows.now }
    requires different { AreDifferent basic.now }
    ensures { result ≡ leaving (with_rows frame.now rows.now basic.now) variable }
{
    let mut best = None;
    for row in 0..rows.len() {
        best = next_best(frame, rows, basic, variable, row, best);
    }
    match best {
        None => None,
        Some(leaver) => Some(leaver.row),
    }
}

// Returns the variable that enters: the stage's variable if it isn't basic, else the first variable that may enter, or None if none may.
fn entering(frame: &Frame, rows: &[Row], basic: &[Var]) -> Option<Var>
    requires rows { AreRows (with_rows frame.now rows.now []) }
    requires closed { All (λ i. i < length rows.now) frame.now.closed }
    requires basic { length basic.now ≡ length rows.now }
    requires stages { 0 < length frame.now.stages }
    ensures { result ≡ entering (with_rows frame.now rows.now basic.now) }
{
    let variable = Var::Stage(frame.stages() - 1);
    match basic_row(basic, variable) {
        None => Some(variable),
        Some(at) => first_to_enter(frame, rows, at),
    }
}

// Returns Bland's choice: the row whose basic variable leaves, and the variable that enters; or None if no pivot is chosen.
pub(crate) fn choose(frame: &Frame, rows: &[Row], basic: &[Var]) -> Option<(usize, Var)>
    requires rows { AreRows (with_rows frame.now rows.now []) }
    requires closed { All (λ i. i < length rows.now) frame.now.closed }
    requires basic { length basic.now ≡ length rows.now }
    requires different { AreDifferent basic.now }
    requires stages { 0 < length frame.now.stages }
    requires order { IsInOrder (with_rows frame.now rows.now basic.now) }
    requires open { frame.now.in_stage ≡ true }
    ensures { result ≡ choice (with_rows frame.now rows.now basic.now) }
{
    match entering(frame, rows, basic) {
        None => None,
        Some(variable) => match row_to_leave(frame, rows, basic, variable) {
            None => None,
            Some(row) => Some((row, variable)),
        },
    }
}
