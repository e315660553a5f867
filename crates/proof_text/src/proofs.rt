//! Proofs: a bundle with a tree for each stage, or a pool with a tree which shows that there is no quota panel, if the proof is valid.

ghost use Rattle.std.specs.Prelude.{◌≡◌, ◌↔◌, IfSome, IsSome, IsTrue};
ghost use Rattle.define_proofs.specs.ProofVerdict.{OfLottery, OfNoPanel};
ghost use Rattle.define_proofs.specs.ProofText.{IsProof, IsLotteryProof, IsNoPanelProof, most_trees as most};
ghost use Rattle.proof_text.specs.Parts.{seen};

use crate::ranges::{are_tree_lines, are_trees};
use crate::trees::TreeLines;
use bundle_text::Bundle;
use pool_model::{Limits, Pool};
use std::marker::Model;

/// The parts of a proof.
#[derive(Debug, Drop)]
pub enum Parts {
    /// A bundle, and for each stage of its certificate the lines of a tree.
    Lottery(Bundle, Vec<TreeLines>),
    /// A pool, and the lines of one tree, which shows that there is no quota panel if the proof is valid.
    NoPanel(Pool, TreeLines),
}

/// A proof of a lottery, with one tree for each stage, of which there are at most as many as the limit of
/// volunteers, or a proof that there is no quota panel. The lines of the trees
/// are in their ranges, so each proof has a text. `check_proofs` decides whether the proof is valid.
#[derive(Debug, Drop)]
pub struct Proof {
    parts: Parts,
}

impl Model for Proof {
    ghost use Rattle.define_proofs.specs.ProofVerdict.{Proof as Seen};
    ghost use Rattle.define_proofs.specs.ProofText.{IsProof};
    ghost use Rattle.proof_text.specs.Parts.{seen};

    ghost Value = { Seen };

    ghost view = { λ p. seen p.parts };

    ghost invariant = { λ p. IsProof (seen p.parts) };
}

impl Proof {
    /// Returns the proof of the bundle's lottery by `trees`; None if there isn't one tree for each stage, if there are more than the
    /// limit of volunteers, or if a line is out of its ranges.
    pub fn of_lottery(bundle: Bundle, trees: Vec<TreeLines>) -> Option<Proof>
        ensures value { IfSome result (λ proof. proof ≡ OfLottery bundle.pool bundle.answer trees.items) }
        ensures exact { IsSome result ↔ IsProof (OfLottery bundle.pool bundle.answer trees.items) }
    {
        if is_lottery_proof(&bundle, &trees) {
            Some(Proof {
                parts: Parts::Lottery(bundle, trees),
            })
        } else {
            None
        }
    }

    /// Returns the proof by `lines` that the pool has no quota panel; None if a line is out of its ranges.
    pub fn of_no_panel(pool: Pool, lines: TreeLines) -> Option<Proof>
        ensures value { IfSome result (λ proof. proof ≡ OfNoPanel pool lines) }
        ensures exact { IsSome result ↔ IsProof (OfNoPanel pool lines) }
    {
        if is_no_panel_proof(&pool, &lines) {
            Some(Proof {
                parts: Parts::NoPanel(pool, lines),
            })
        } else {
            None
        }
    }

    /// Returns the parts of the proof.
    pub fn parts(&self) -> &Parts
        ensures { seen result.now ≡ self.now }
    {
        &self.parts
    }

    /// Does nothing. Its contract says that the pool or bundle, the number of trees and their lines are within their limits.
    pub fn facts(&self)
        ensures { IsProof self.now }
    {
        let _ = &self.parts;
    }
}

/// True if the bundle with the trees is a proof: one tree for each stage, at most as many as the limit of volunteers, all lines in
/// their ranges.
fn is_lottery_proof(bundle: &Bundle, trees: &[TreeLines]) -> bool
    ensures { IsTrue result ↔ IsLotteryProof bundle.now.pool bundle.now.answer trees.now }
{
    bundle.facts();
    let stages = bundle.answer().certificate().stages();
    let volunteers = bundle.pool().volunteers().len();
    trees.len() == stages.len()
        && trees.len() <= most_trees(volunteers)
        && are_trees(volunteers, trees)
}

/// Returns the greatest number of trees of a proof over a pool of `volunteers` volunteers.
pub fn most_trees(volunteers: usize) -> usize
    ensures { result ≡ most volunteers }
{
    Limits::of(volunteers).volunteers()
}

/// True if the pool with the lines is a proof: all lines are in their ranges.
fn is_no_panel_proof(pool: &Pool, lines: &TreeLines) -> bool
    ensures { IsTrue result ↔ IsNoPanelProof pool.now lines.now }
{
    pool.facts();
    are_tree_lines(pool.volunteers().len(), lines.lines())
}
