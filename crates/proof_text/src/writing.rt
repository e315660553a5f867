//! Writing the text of a proof, line by line into one growing buffer. `write_proof` is the promise; the other functions are helpers.

ghost use Rattle.std.specs.Prelude.{◌≡◌, ◌++◌, ◌∷◌, [], map, Ok, IfOk, OnOk};
ghost use Rattle.std.specs.Fmt.{decimal};
ghost use Rattle.std.specs.List.{flat_map};
ghost use Rattle.define_lines.specs.Lines.{line_of, tabbed, text_of};
ghost use Rattle.define_proofs.specs.ProofVerdict.{OfLottery, OfNoPanel};
ghost use Rattle.define_bundles.specs.BundleText.{pool_lines};
ghost use Rattle.define_proofs.specs.ProofText.{bundle_lines, leaf_line, lines_before_close, multiplier_fields, node_line, proof_spelling, tree_lines, trees_from};
ghost use Rattle.define_proofs.specs.ProofReading.{read_proof};
ghost use Rattle.proof_text.specs.Parts.{seen};

use crate::{Leaf, Multiplier, Node, Parts, Proof, TreeLine, TreeLines};
use bundle_text::{Bundle, write_bundle};
use itoa::Buffer;
use pool_model::Pool;
use pool_text::write_pool;
use std::alloc::{AllocError, Global};
use text_lines::{end_line, push_line, push_number, push_signed};

/// Returns the text of the proof. Reading this text returns the same proof.
pub fn write_proof(alloc: Global, proof: &Proof) -> Result<Vec<u8>, AllocError>
    ensures spelled { IfOk result (λ bytes. bytes.items ≡ proof_spelling proof.now) }
    ensures read { IfOk result (λ bytes. read_proof bytes.items ≡ Ok proof.now) }
{
    proof.facts();
    let mut text = Vec::new(alloc);
    push_parts(alloc, &mut text, proof.parts())?;
    push_line(&mut text, b"close", &[])?;
    Ok(text)
}

/// Appends all lines of a proof except the last.
fn push_parts(alloc: Global, text: &mut Vec<u8>, parts: &Parts) -> Result<(), AllocError>
    ensures { OnOk result (text.new.items ≡ text.old.items ++ text_of (lines_before_close (seen parts.now))) }
{
    match parts {
        Parts::Lottery(bundle, trees) => push_lottery(alloc, text, bundle, trees),
        Parts::NoPanel(pool, lines) => push_no_panel(alloc, text, pool, lines),
    }
}

/// Appends the lines of a proof of a lottery, except the last.
fn push_lottery(
    alloc: Global,
    text: &mut Vec<u8>,
    bundle: &Bundle,
    trees: &[TreeLines],
) -> Result<(), AllocError>
    ensures { OnOk result (text.new.items ≡ text.old.items ++ text_of (lines_before_close (OfLottery bundle.now.pool bundle.now.answer trees.now))) }
{
    push_line(text, b"proof", &[b"1"])?;
    push_bundle(alloc, text, bundle)?;
    push_trees(text, trees)
}

/// Appends the lines of a proof that there is no quota panel, except the last.
fn push_no_panel(
    alloc: Global,
    text: &mut Vec<u8>,
    pool: &Pool,
    lines: &TreeLines,
) -> Result<(), AllocError>
    ensures { OnOk result (text.new.items ≡ text.old.items ++ text_of (lines_before_close (OfNoPanel pool.now lines.now))) }
{
    push_line(text, b"proof", &[b"1"])?;
    push_pool(alloc, text, pool)?;
    push_line(text, b"none", &[])?;
    push_tree(text, 0, lines)
}

/// Appends the lines of a pool.
fn push_pool(alloc: Global, text: &mut Vec<u8>, pool: &Pool) -> Result<(), AllocError>
    ensures { OnOk result (text.new.items ≡ text.old.items ++ text_of (pool_lines pool.now)) }
{
    let bytes = write_pool(alloc, pool)?;
    text.extend_from_slice(&bytes)
}

/// Appends the lines of a bundle.
fn push_bundle(alloc: Global, text: &mut Vec<u8>, bundle: &Bundle) -> Result<(), AllocError>
    ensures { OnOk result (text.new.items ≡ text.old.items ++ text_of (bundle_lines bundle.now.pool bundle.now.answer)) }
{
    let bytes = write_bundle(alloc, bundle.pool(), bundle.answer())?;
    text.extend_from_slice(&bytes)
}

/// Appends the lines of the trees, which are numbered from 1.
fn push_trees(text: &mut Vec<u8>, trees: &[TreeLines]) -> Result<(), AllocError>
    ensures { OnOk result (text.new.items ≡ text.old.items ++ text_of (trees_from 1 trees.now)) }
{
    for (i, lines) in trees.iter().enumerate() {
        push_tree(text, i + 1, lines)?;
    }
    Ok(())
}

/// Appends the lines of tree `number`.
fn push_tree(text: &mut Vec<u8>, number: usize, lines: &TreeLines) -> Result<(), AllocError>
    ensures { OnOk result (text.new.items ≡ text.old.items ++ text_of (tree_lines number lines.now)) }
{
    push_number_line(text, b"tree", number)?;
    push_nodes(text, lines.lines())
}

/// Appends a line of a word and a number.
fn push_number_line(text: &mut Vec<u8>, word: &[u8], number: usize) -> Result<(), AllocError>
    ensures { OnOk result (text.new.items ≡ text.old.items ++ text_of (line_of (word.now ∷ decimal number ∷ []) ∷ [])) }
{
    let mut digits = Buffer::new();
    push_line(text, word, &[digits.format(number).as_bytes()])
}

/// Appends the lines of nodes.
fn push_nodes(text: &mut Vec<u8>, lines: &[TreeLine]) -> Result<(), AllocError>
    ensures { OnOk result (text.new.items ≡ text.old.items ++ text_of (map node_line lines.now)) }
{
    for line in lines {
        push_node(text, line)?;
    }
    Ok(())
}

/// Appends the line of a node.
fn push_node(text: &mut Vec<u8>, line: &TreeLine) -> Result<(), AllocError>
    ensures { OnOk result (text.new.items ≡ text.old.items ++ text_of (node_line line.now ∷ [])) }
{
    match line.node() {
        Node::Split(i) => push_number_line(text, b"split", *i),
        Node::Leaf(leaf) => push_leaf(text, leaf),
    }
}

/// Appends a leaf's line: its scale, and the number and factor of each multiplier.
fn push_leaf(text: &mut Vec<u8>, leaf: &Leaf) -> Result<(), AllocError>
    ensures { OnOk result (text.new.items ≡ text.old.items ++ text_of (leaf_line leaf.now ∷ [])) }
{
    text.extend_from_slice(b"bound")?;
    push_number(text, leaf.scale() as usize)?;
    push_multipliers(text, leaf.multipliers())?;
    end_line(text)
}

/// Appends the fields of multipliers.
fn push_multipliers(text: &mut Vec<u8>, multipliers: &[Multiplier]) -> Result<(), AllocError>
    ensures { OnOk result (text.new.items ≡ text.old.items ++ tabbed (flat_map multiplier_fields multipliers.now)) }
{
    for multiplier in multipliers {
        push_multiplier(text, multiplier)?;
    }
    Ok(())
}

/// Appends the two fields of a multiplier.
fn push_multiplier(text: &mut Vec<u8>, multiplier: &Multiplier) -> Result<(), AllocError>
    ensures { OnOk result (text.new.items ≡ text.old.items ++ tabbed (multiplier_fields multiplier.now)) }
{
    push_number(text, multiplier.number())?;
    push_signed(text, multiplier.factor())
}
