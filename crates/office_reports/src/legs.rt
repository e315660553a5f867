//! The text that tells the legs of a run, with the bound of each leg's pivots.

ghost use Rattle.std.specs.Prelude.{◌≡◌, ◌≤◌, ◌+◌, ◌++◌, ◌∷◌, [], ℕ, string_bytes, IfOk, OnOk};
ghost use Rattle.define_lines.specs.Lines.{line_feed, text_of};
ghost use Rattle.define_legs.specs.LegTexts.{bound_field, leg_line, legs_text};
ghost use Rattle.define_legs.specs.Legs.{leg_bases};
ghost use Rattle.office_reports.specs.Bounds.{TellsBound};

use define_legs::Leg;
use exact_table::basis_bound;
use std::alloc::{AllocError, Global};

/// The greatest bound that is told, 10^38.
const GREATEST_BOUND: i128 = 100000000000000000000000000000000000000;

/// Returns the text of the legs of a run over `classes` classes, lines that end with LF. A leg's line has the word `leg`, how many stages
/// had been entered, how many columns there were, how many pivots were made, and the bound: how many sets of variables could be basic. The
/// last line has the word `bound` and the sum of the bounds. A number above 10^38 is told by the word `above`.
pub fn legs_text(alloc: Global, classes: usize, legs: &[Leg]) -> Result<String, AllocError>
    requires { 1 ≤ classes }
    ensures { IfOk result (λ text. string_bytes text ≡ legs_text classes legs.now) }
{
    let mut text = String::new(alloc);
    let mut total = Some(0);
    for leg in legs {
        let bound = basis_bound(classes as u64, leg.stages as u64, leg.columns as u64);
        push_leg(&mut text, leg, bound)?;
        total = sum(total, bound);
    }
    write!(text, "bound\t")?;
    push_bound(&mut text, total)?;
    Ok(text)
}

/// Returns the sum of two bounds, or `None` if it is above 10^38.
fn sum(first: Option<i128>, second: Option<i128>) -> Option<i128>
    requires first { (m : ℕ) × TellsBound first m }
    requires second { (n : ℕ) × TellsBound second n }
    ensures { (m n : ℕ) → TellsBound first m → TellsBound second n → TellsBound result (m + n) }
{
    let (first, second) = (first?, second?);
    if first <= GREATEST_BOUND - second {
        Some(first + second)
    } else {
        None
    }
}

/// Appends the line of a leg, with its bound.
fn push_leg(text: &mut String, leg: &Leg, bound: Option<i128>) -> Result<(), AllocError>
    requires { (n : ℕ) × TellsBound bound n }
    ensures { OnOk result ((classes : ℕ) → TellsBound bound (leg_bases classes leg.now) →
        string_bytes text.new ≡ string_bytes text.old ++ text_of (leg_line classes leg.now ∷ [])) }
{
    write!(
        text,
        "leg\t{}\t{}\t{}\t",
        leg.stages, leg.columns, leg.pivots
    )?;
    push_bound(text, bound)
}

/// Appends a bound, or the word `above` if there is none, and LF.
fn push_bound(text: &mut String, bound: Option<i128>) -> Result<(), AllocError>
    requires { (n : ℕ) × TellsBound bound n }
    ensures { OnOk result ((n : ℕ) → TellsBound bound n → string_bytes text.new ≡ string_bytes text.old ++ bound_field n ++ line_feed ∷ []) }
{
    match bound {
        Some(bound) => writeln!(text, "{bound}"),
        None => writeln!(text, "above"),
    }
}
