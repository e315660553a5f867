//! Reads the lines of a bundle's text after those of the pool.

ghost use Rattle.std.specs.Prelude.{◌≡◌, ◌≤◌, ◌-◌, ◌^◌, ◌≤ℤ◌, pos, map, Some, IfOk, IfSome, option_map, unsigned_abs};
ghost use Rattle.define_lines.specs.Lines.{fields_of};
ghost use Rattle.define_lines.specs.Numbers.{number_up_to as number_in, signed_up_to};
ghost use Rattle.define_bundles.specs.BundleReading.{answer_line as line_in, panel_said as panel_in, stage_said as stage_in, row_of as row_in, stage_of as stage_words, numbers_up_to as numbers_in, signed_of, total_of as total_in};
ghost use Rattle.bundle_text.specs.Progress.{said};

use crate::ranges::{MAX_WEIGHT, is_row, is_stage, is_weight};
use pool_model::{LotteryRow, Panel, Stage};
use std::alloc::{AllocError, Global};
use text_lines::{fields, number_up_to, signed_number};

const TOTAL: &[u8] = b"total";

const PANEL: &[u8] = b"panel";

const STAGE: &[u8] = b"stage";

const DONE: &[u8] = b"done";

/// A line after the total, as it is read.
#[derive(Debug, Drop)]
pub(crate) enum AnswerLine {
    Row(LotteryRow),
    Stage(Stage),
    /// The line begins with `stage`, but is no right stage line.
    FaultyStage,
    Done,
    Unknown,
}

/// Reads a line after the total, in a bundle of a pool with `volunteers` volunteers.
pub(crate) fn answer_line(
    alloc: Global,
    volunteers: usize,
    line: &[u8],
) -> Result<AnswerLine, AllocError>
    ensures { IfOk result (λ answer. said answer ≡ line_in volunteers (fields_of line.now)) }
{
    let fields = fields(alloc, line)?;
    line_of(alloc, volunteers, &fields)
}

fn line_of(alloc: Global, volunteers: usize, fields: &[&[u8]]) -> Result<AnswerLine, AllocError>
    ensures { IfOk result (λ answer. said answer ≡ line_in volunteers (map (λ field. field.now) fields.now)) }
{
    let Some((first, rest)) = fields.split_first() else {
        return Ok(AnswerLine::Unknown);
    };
    let first = *first;
    if first == PANEL {
        panel_of(alloc, volunteers, rest)
    } else if first == STAGE {
        stage_of(alloc, volunteers, rest)
    } else if first == DONE && rest.is_empty() {
        Ok(AnswerLine::Done)
    } else {
        Ok(AnswerLine::Unknown)
    }
}

/// Reads the fields after `panel` as a row, or as `Unknown`.
fn panel_of(alloc: Global, volunteers: usize, fields: &[&[u8]]) -> Result<AnswerLine, AllocError>
    ensures { IfOk result (λ answer. said answer ≡ panel_in volunteers (map (λ field. field.now) fields.now)) }
{
    let Some((weight, members)) = fields.split_first() else {
        return Ok(AnswerLine::Unknown);
    };
    let Some(weight) = small_number(weight) else {
        return Ok(AnswerLine::Unknown);
    };
    match numbers_up_to(alloc, volunteers, members)? {
        Some(members) => Ok(row_of(volunteers, weight, members)),
        None => Ok(AnswerLine::Unknown),
    }
}

/// Returns the row of `weight` and `members`, or `Unknown` if there are no members, they don't increase, or a number is out of range.
fn row_of(volunteers: usize, weight: i128, members: Vec<usize>) -> AnswerLine
    requires { pos 0 ≤ℤ weight }
    ensures { said result ≡ row_in volunteers (Some (unsigned_abs weight)) (Some members.items) }
{
    let Some(panel) = Panel::new(members) else {
        return AnswerLine::Unknown;
    };
    let row = LotteryRow::new(panel, weight);
    if is_row(volunteers, &row) {
        AnswerLine::Row(row)
    } else {
        AnswerLine::Unknown
    }
}

/// Reads the fields after `stage` as a stage, or as `FaultyStage`.
fn stage_of(alloc: Global, volunteers: usize, fields: &[&[u8]]) -> Result<AnswerLine, AllocError>
    ensures { IfOk result (λ answer. said answer ≡ stage_in volunteers (map (λ field. field.now) fields.now)) }
{
    let Some((cap, weights)) = fields.split_first() else {
        return Ok(AnswerLine::FaultyStage);
    };
    let Some(cap) = signed_number(cap) else {
        return Ok(AnswerLine::FaultyStage);
    };
    match signed_numbers(alloc, weights)? {
        Some(weights) => Ok(right_stage(volunteers, Stage::new(weights, cap))),
        None => Ok(AnswerLine::FaultyStage),
    }
}

/// Returns the stage, or `FaultyStage` if it doesn't have one weight per volunteer or its numbers are out of range.
fn right_stage(volunteers: usize, stage: Stage) -> AnswerLine
    ensures { said result ≡ stage_words volunteers (Some stage.cap) (Some stage.weights) }
{
    if is_stage(volunteers, &stage) {
        AnswerLine::Stage(stage)
    } else {
        AnswerLine::FaultyStage
    }
}

/// Returns the numbers that the fields spell, or `None` if a field spells no number up to `limit`.
fn numbers_up_to(
    alloc: Global,
    limit: usize,
    fields: &[&[u8]],
) -> Result<Option<Vec<usize>>, AllocError>
    ensures { IfOk result (λ numbers. option_map (λ v. v.items) numbers ≡ numbers_in limit (map (λ field. field.now) fields.now)) }
{
    let mut numbers = Vec::with_capacity(alloc, fields.len())?;
    for field in fields {
        let Some(number) = number_up_to(limit, field) else {
            return Ok(None);
        };
        numbers.push(number)?;
    }
    Ok(Some(numbers))
}

/// Returns the numbers with a sign that the fields spell, or `None` if a field spells no number from -(2^127 - 1) to 2^127 - 1.
fn signed_numbers(alloc: Global, fields: &[&[u8]]) -> Result<Option<Vec<i128>>, AllocError>
    ensures { IfOk result (λ numbers. option_map (λ v. v.items) numbers ≡ signed_of (map (λ field. field.now) fields.now)) }
{
    let mut numbers = Vec::with_capacity(alloc, fields.len())?;
    for field in fields {
        let Some(number) = weight_of(field) else {
            return Ok(None);
        };
        numbers.push(number)?;
    }
    Ok(Some(numbers))
}

/// Returns the number with a sign that the field spells, or `None`. Most weights have one digit; these skip the general parser.
fn weight_of(field: &[u8]) -> Option<i128>
    ensures { result ≡ signed_up_to (2 ^ 127 - 1) field.now }
{
    if field.len() == 1 && field[0].is_ascii_digit() {
        Some(digit(field[0]))
    } else {
        signed_number(field)
    }
}

/// Returns the number that the digit `byte` spells.
fn digit(byte: u8) -> i128
    requires least { 48 ≤ byte }
    requires most { byte ≤ 57 }
    ensures { result ≡ pos (byte - 48) }
{
    i128::from(byte - b'0')
}

/// Returns the number from 0 to 10^38 that the field spells, or `None`.
fn small_number(field: &[u8]) -> Option<i128>
    ensures value { result ≡ option_map pos (number_in (10 ^ 38) field.now) }
    ensures least { IfSome result (λ number. pos 0 ≤ℤ number) }
{
    match signed_number(field) {
        Some(number) if 0 <= number && number <= MAX_WEIGHT => Some(number),
        _ => None,
    }
}

/// Returns the total, from 1 to 10^38, of a total line, or `None` if the line isn't one.
pub(crate) fn total_of(alloc: Global, line: &[u8]) -> Result<Option<i128>, AllocError>
    ensures { IfOk result (λ total. total ≡ option_map pos (total_in (fields_of line.now))) }
{
    let fields = fields(alloc, line)?;
    Ok(total_in_fields(&fields))
}

fn total_in_fields(fields: &[&[u8]]) -> Option<i128>
    ensures { result ≡ option_map pos (total_in (map (λ field. field.now) fields.now)) }
{
    match fields {
        [first, field] if *first == TOTAL => match small_number(field) {
            Some(total) if is_weight(total) => Some(total),
            _ => None,
        },
        _ => None,
    }
}
