//! The lines of a tree: what each is read as.

ghost use Rattle.std.specs.Prelude.{◌≡◌, ◌<◌, ◌^◌, ◌==◌, nat_lt, ◌&&◌, if◌then◌else◌, map, IfOk, option_map};
ghost use Rattle.define_bundles.specs.BundleReading.{numbers_up_to};
ghost use Rattle.define_covers.specs.CoverRanges.{greatest_count};
ghost use Rattle.define_covers.specs.CoverText.{most_trees};
ghost use Rattle.define_covers.specs.CoverReading.{NextTree, TheClose, Unknown, cause_of as cause_in, fields_said, front_in_range, front_said, line_in_tree as line_said, unnumbered as unnumbered_in};
ghost use Rattle.cover_text.specs.Causes.{seen_cause};
ghost use Rattle.cover_text.specs.Progress.{said};

use crate::shared::begins_tree;
use crate::{Cause, FrontLine, is_front_line, value_count};
use pool_model::Pool;
use std::alloc::{AllocError, Global};
use text_lines::{fields, number_up_to};

/// The greatest count of a front.
const MOST_COUNT: usize = 4000;

const CLOSE: &[u8] = b"close";

const FRONT: &[u8] = b"front";

const SIZE: &[u8] = b"size";

const VALUE: &[u8] = b"value";

const HOUSE: &[u8] = b"house";

const CLOSED: &[u8] = b"closed";

const CAP: &[u8] = b"cap";

/// The field of a cause without a number.
const ZERO: &[u8] = b"0";

/// What a line in a tree is, after the one that begins the tree.
#[derive(Debug, Drop)]
pub(crate) enum LineInTree {
    /// A front in its ranges.
    Front(FrontLine),
    /// The next tree begins.
    NextTree,
    /// The last line.
    Close,
    /// Anything else.
    Unknown,
}

/// Reads a line in tree `number`, if the last tree is tree `last`.
pub(crate) fn line_in_tree(
    alloc: Global,
    pool: &Pool,
    number: usize,
    last: usize,
    line: &[u8],
) -> Result<LineInTree, AllocError>
    requires { number < 2 ^ 63 }
    ensures { IfOk result (λ in_tree. said in_tree ≡ line_said pool.now number last line.now) }
{
    if line == CLOSE {
        Ok(close_at(number, last))
    } else if begins_tree(number + 1, line) {
        Ok(next_at(number, last))
    } else {
        let fields = fields(alloc, line)?;
        front_in(alloc, pool, number, &fields)
    }
}

/// Reads `close`, which is allowed only in the last tree.
fn close_at(number: usize, last: usize) -> LineInTree
    ensures { said result ≡ (if number == last then TheClose else Unknown) }
{
    if number == last {
        LineInTree::Close
    } else {
        LineInTree::Unknown
    }
}

/// Reads the line that begins the next tree, which is allowed in each tree before the last one.
fn next_at(number: usize, last: usize) -> LineInTree
    requires { number < 2 ^ 63 }
    ensures { said result ≡ (if nat_lt number last && nat_lt number most_trees then NextTree else Unknown) }
{
    if number < last {
        LineInTree::NextTree
    } else {
        LineInTree::Unknown
    }
}

/// Reads the fields of a line that may be a front's, in the tree of stage `stage`.
fn front_in(
    alloc: Global,
    pool: &Pool,
    stage: usize,
    fields: &[&[u8]],
) -> Result<LineInTree, AllocError>
    ensures { IfOk result (λ front. said front ≡ fields_said pool.now stage (map (λ field. field.now) fields.now)) }
{
    let Some((first, others)) = fields.split_first() else {
        return Ok(LineInTree::Unknown);
    };
    let first = *first;
    if first == FRONT {
        front_of(alloc, pool, stage, others)
    } else {
        Ok(LineInTree::Unknown)
    }
}

/// Reads the fields after `front`: a cause's word, its number or 0, and counts.
fn front_of(
    alloc: Global,
    pool: &Pool,
    stage: usize,
    fields: &[&[u8]],
) -> Result<LineInTree, AllocError>
    ensures { IfOk result (λ front. said front ≡ front_said pool.now stage (map (λ field. field.now) fields.now)) }
{
    let Some((word, others)) = fields.split_first() else {
        return Ok(LineInTree::Unknown);
    };
    let Some((argument, counts)) = others.split_first() else {
        return Ok(LineInTree::Unknown);
    };
    let Some(cause) = cause_of(pool, stage, word, argument) else {
        return Ok(LineInTree::Unknown);
    };
    match counts_of(alloc, counts)? {
        Some(front) => Ok(in_range(pool, stage, FrontLine::new(front, cause))),
        None => Ok(LineInTree::Unknown),
    }
}

/// Returns the front's line if its numbers are in their ranges, else `Unknown`.
fn in_range(pool: &Pool, stage: usize, line: FrontLine) -> LineInTree
    ensures { said result ≡ front_in_range pool.now stage line }
{
    if is_front_line(pool, stage, &line) {
        LineInTree::Front(line)
    } else {
        LineInTree::Unknown
    }
}

/// Reads a cause's word and the field after it. Returns None if the word is unknown, or the field isn't 0 or a number up to the greatest
/// that the cause may have.
fn cause_of(pool: &Pool, stage: usize, word: &[u8], argument: &[u8]) -> Option<Cause>
    ensures { option_map seen_cause result ≡ cause_in pool.now stage word.now argument.now }
{
    if word == SIZE {
        unnumbered(Cause::Size, argument)
    } else if word == VALUE {
        Some(Cause::Value(number_up_to(value_count(pool), argument)?))
    } else if word == HOUSE {
        unnumbered(Cause::Household, argument)
    } else if word == CLOSED {
        Some(Cause::Closed(number_up_to(stage.saturating_sub(1), argument)?))
    } else if word == CAP {
        unnumbered(Cause::Cap, argument)
    } else {
        None
    }
}

/// Returns the cause if the field after its word is 0.
fn unnumbered(cause: Cause, argument: &[u8]) -> Option<Cause>
    ensures { option_map seen_cause result ≡ unnumbered_in (seen_cause cause) argument.now }
{
    if argument == ZERO { Some(cause) } else { None }
}

/// Reads counts up to 4,000. Returns None if a field spells none.
fn counts_of(alloc: Global, fields: &[&[u8]]) -> Result<Option<Vec<usize>>, AllocError>
    ensures { IfOk result (λ counts. option_map (λ v. v.items) counts ≡ numbers_up_to greatest_count (map (λ field. field.now) fields.now)) }
{
    let mut counts = Vec::with_capacity(alloc, fields.len())?;
    for field in fields {
        let Some(count) = number_up_to(MOST_COUNT, field) else {
            return Ok(None);
        };
        counts.push(count)?;
    }
    Ok(Some(counts))
}
