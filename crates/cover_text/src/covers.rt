//! Covers: a bundle with a tree for each stage of its certificate. Readers, writers and the check take and return `Cover`.

ghost use Rattle.std.specs.Prelude.{◌≡◌, ◌↔◌, IfSome, IsSome, IsTrue};
ghost use Rattle.define_covers.specs.CoverText.{IsCover};

use crate::fronts::Fronts;
use crate::ranges::are_trees;
use bundle_text::Bundle;
use std::marker::Model;

/// A bundle, and for each stage of its certificate a tree. The lines of the trees are in their ranges, so each cover has a text. Whether the
/// cover is valid is another matter.
#[derive(Debug, Drop)]
pub struct Cover {
    bundle: Bundle,
    trees: Vec<Fronts>,
}

impl Model for Cover {
    ghost use Rattle.define_covers.specs.Covers.{Cover as Seen};
    ghost use Rattle.define_covers.specs.CoverText.{IsCover};

    ghost Value = { Seen };

    ghost view = { λ c. record { bundle = c.bundle; trees = c.trees.items } };

    ghost invariant = { λ c. IsCover (record { bundle = c.bundle; trees = c.trees.items }) };
}

impl Cover {
    /// Returns the cover of this bundle by `trees`; None if there isn't one tree for each stage, or if a line is out of its ranges.
    pub fn new(bundle: Bundle, trees: Vec<Fronts>) -> Option<Cover>
        ensures value { IfSome result (λ cover. cover ≡ record { bundle = bundle; trees = trees.items }) }
        ensures exact { IsSome result ↔ IsCover (record { bundle = bundle; trees = trees.items }) }
    {
        if is_cover(&bundle, &trees) {
            Some(Cover { bundle, trees })
        } else {
            None
        }
    }

    /// Returns the bundle.
    pub fn bundle(&self) -> &Bundle
        ensures { result.now ≡ self.now.bundle }
    {
        &self.bundle
    }

    /// Returns the trees, in the order of the stages.
    pub fn trees(&self) -> &[Fronts]
        ensures { result.now ≡ self.now.trees }
    {
        &self.trees
    }

    /// Does nothing. Its contract says that the bundle, the number of trees and their lines are within their limits.
    pub fn facts(&self)
        ensures { IsCover self.now }
    {
        let _ = &self.trees;
    }
}

/// True if the bundle with the trees is a cover: one tree for each stage, all lines in their ranges.
fn is_cover(bundle: &Bundle, trees: &[Fronts]) -> bool
    ensures { IsTrue result ↔ IsCover (record { bundle = bundle.now; trees = trees.now }) }
{
    bundle.facts();
    let stages = bundle.answer().certificate().stages();
    trees.len() == stages.len() && are_trees(bundle.pool(), trees)
}
