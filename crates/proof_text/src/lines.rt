//! The lines of a tree: what each is read as.

ghost use Rattle.std.specs.Prelude.{◌≡◌, ◌<◌, ◌^◌, ◌==◌, nat_lt, ◌&&◌, if◌then◌else◌, map, IfOk, bytes_eq, option_map};
ghost use Rattle.define_lines.specs.Numbers.{number_up_to as number_in, signed_up_to};
ghost use Rattle.std.specs.Fmt.{decimal};
ghost use Rattle.define_proofs.specs.TreeRanges.{greatest_constraint, number_limit};
ghost use Rattle.define_proofs.specs.ProofText.{most_trees as most, tree_line};
ghost use Rattle.define_proofs.specs.ProofReading.{NextTree, TheClose, Unknown, leaf_said, line_in_tree as line_said, multiplier_of as multiplier_in, multipliers_of as multipliers_in, node_in_range, node_said, split_said};
ghost use Rattle.proof_text.specs.Progress.{said};

use crate::{GREATEST_CONSTRAINT, Leaf, Multiplier, TreeLine, is_tree_line, most_trees};
use itoa::Buffer;
use std::alloc::{AllocError, Global};
use text_lines::{fields, number_up_to, signed_number};

/// The greatest scale: 2^56.
const MAX_SCALE: usize = 72_057_594_037_927_936;

/// The greatest absolute value of a factor: 2^56.
const MAX_FACTOR: u128 = 72_057_594_037_927_936;

/// How the first line of a tree begins.
const TREE: &[u8] = b"tree\t";

const SPLIT: &[u8] = b"split";

const BOUND: &[u8] = b"bound";

const CLOSE: &[u8] = b"close";

/// What a line in a tree is, after the one that begins the tree.
#[derive(Debug, Drop)]
pub(crate) enum LineInTree {
    /// A node in its ranges.
    Node(TreeLine),
    /// The next tree begins.
    NextTree,
    /// The last line.
    Close,
    /// Anything else.
    Unknown,
}

/// Reads a line in tree `number`, if the last tree is tree `last`, for a pool of `volunteers` volunteers.
pub(crate) fn line_in_tree(
    alloc: Global,
    volunteers: usize,
    number: usize,
    last: usize,
    line: &[u8],
) -> Result<LineInTree, AllocError>
    requires { number < 2 ^ 63 }
    ensures { IfOk result (λ in_tree. said in_tree ≡ line_said volunteers number last line.now) }
{
    if line == CLOSE {
        Ok(close_at(number, last))
    } else if begins_tree(number + 1, line) {
        Ok(next_at(volunteers, number, last))
    } else {
        let fields = fields(alloc, line)?;
        node_of(alloc, volunteers, &fields)
    }
}

/// Reads `close`, which is allowed only in the last tree.
fn close_at(number: usize, last: usize) -> LineInTree
    ensures { said result ≡ (if number == last then TheClose else Unknown) }
{
    if number == last {
        LineInTree::Close
    } else {
        LineInTree::Unknown
    }
}

/// Reads the line that begins the next tree, which is allowed in each tree before the last one, and before the last that a proof over a pool
/// of `volunteers` volunteers may have.
fn next_at(volunteers: usize, number: usize, last: usize) -> LineInTree
    ensures { said result ≡ (if nat_lt number last && nat_lt number (most volunteers) then NextTree else Unknown) }
{
    if number < last && number < most_trees(volunteers) {
        LineInTree::NextTree
    } else {
        LineInTree::Unknown
    }
}

/// True if the line begins tree `number`.
pub(crate) fn begins_tree(number: usize, line: &[u8]) -> bool
    ensures { result ≡ bytes_eq line.now (tree_line number) }
{
    match line.strip_prefix(TREE) {
        Some(field) => is_spelled(number, field),
        None => false,
    }
}

/// True if the field is the digits of the number.
fn is_spelled(number: usize, field: &[u8]) -> bool
    ensures { result ≡ bytes_eq (decimal number) field.now }
{
    let mut digits = Buffer::new();
    digits.format(number).as_bytes() == field
}

/// Reads the fields of a line that may be a node's.
fn node_of(alloc: Global, volunteers: usize, fields: &[&[u8]]) -> Result<LineInTree, AllocError>
    ensures { IfOk result (λ node. said node ≡ node_said volunteers (map (λ field. field.now) fields.now)) }
{
    let Some((first, others)) = fields.split_first() else {
        return Ok(LineInTree::Unknown);
    };
    let first = *first;
    if first == SPLIT {
        Ok(split_of(volunteers, others))
    } else if first == BOUND {
        leaf_of(alloc, volunteers, others)
    } else {
        Ok(LineInTree::Unknown)
    }
}

/// Reads the fields after `split`: the number of a volunteer.
fn split_of(volunteers: usize, fields: &[&[u8]]) -> LineInTree
    ensures { said result ≡ split_said volunteers (map (λ field. field.now) fields.now) }
{
    match fields {
        [field] => match number_up_to(volunteers, field) {
            Some(i) => in_range(volunteers, TreeLine::split(i)),
            None => LineInTree::Unknown,
        },
        _ => LineInTree::Unknown,
    }
}

/// Reads the fields after `bound`: a scale, and multipliers.
fn leaf_of(alloc: Global, volunteers: usize, fields: &[&[u8]]) -> Result<LineInTree, AllocError>
    ensures { IfOk result (λ leaf. said leaf ≡ leaf_said volunteers (map (λ field. field.now) fields.now)) }
{
    let Some((scale, others)) = fields.split_first() else {
        return Ok(LineInTree::Unknown);
    };
    let Some(scale) = number_up_to(MAX_SCALE, scale) else {
        return Ok(LineInTree::Unknown);
    };
    match multipliers_of(alloc, others)? {
        Some(multipliers) => Ok(in_range(
            volunteers,
            TreeLine::leaf(Leaf::new(scale as u64, multipliers)),
        )),
        None => Ok(LineInTree::Unknown),
    }
}

/// Returns the node if its numbers are in their ranges, else `Unknown`.
fn in_range(volunteers: usize, node: TreeLine) -> LineInTree
    ensures { said result ≡ node_in_range volunteers node }
{
    if is_tree_line(volunteers, &node) {
        LineInTree::Node(node)
    } else {
        LineInTree::Unknown
    }
}

/// Reads multipliers of two fields each. Returns None if a pair spells no multiplier, or if one field is left.
fn multipliers_of(alloc: Global, fields: &[&[u8]]) -> Result<Option<Vec<Multiplier>>, AllocError>
    ensures { IfOk result (λ multipliers. option_map (λ v. v.items) multipliers ≡ multipliers_in (map (λ field. field.now) fields.now)) }
{
    let mut multipliers = Vec::with_capacity(alloc, fields.len() / 2)?;
    for i in 0..fields.len() / 2 {
        let Some(multiplier) = multiplier_of(fields[2 * i], fields[2 * i + 1]) else {
            return Ok(None);
        };
        multipliers.push(multiplier)?;
    }
    if fields.len() % 2 == 0 {
        Ok(Some(multipliers))
    } else {
        Ok(None)
    }
}

/// Returns the multiplier, or None if `number` is no number up to 9000 or `factor` none from -2^56 to 2^56.
fn multiplier_of(number: &[u8], factor: &[u8]) -> Option<Multiplier>
    ensures { result ≡ multiplier_in (number_in greatest_constraint number.now) (signed_up_to number_limit factor.now) }
{
    let number = number_up_to(GREATEST_CONSTRAINT, number)?;
    let factor = factor_of(factor)?;
    Some(Multiplier::new(number, factor))
}

/// Reads a number from -2^56 to 2^56, or returns None.
fn factor_of(field: &[u8]) -> Option<i128>
    ensures { result ≡ signed_up_to number_limit field.now }
{
    match signed_number(field) {
        Some(factor) if factor.unsigned_abs() <= MAX_FACTOR => Some(factor),
        _ => None,
    }
}
