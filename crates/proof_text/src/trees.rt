//! Trees as lists of lines, one for each node.

ghost use Rattle.std.specs.Prelude.{◌≡◌, ◌++◌, ◌∷◌, [], OnOk, OnErr};
ghost use Rattle.define_proofs.specs.TreeLines.{OfLeaf, OfSplit};
ghost use Rattle.proof_text.specs.Parts.{seen_node};

use crate::leaves::Leaf as OneLeaf;
use std::alloc::AllocError;
use std::marker::Model;

/// A node of a tree.
#[derive(Debug, Drop)]
pub enum Node {
    /// A split on the volunteer of this number. First the subtree without the volunteer follows, then the one with the volunteer.
    Split(usize),
    /// A leaf.
    Leaf(OneLeaf),
}

/// A line of a tree, which is one node.
#[derive(Debug, Drop)]
pub struct TreeLine {
    node: Node,
}

impl Model for TreeLine {
    ghost use Rattle.define_proofs.specs.TreeLines.{TreeLine as Seen};
    ghost use Rattle.proof_text.specs.Parts.{seen_node};

    ghost Value = { Seen };

    ghost view = { λ l. seen_node l.node };
}

impl TreeLine {
    /// Returns the line of a split on the volunteer of this number.
    pub fn split(i: usize) -> TreeLine
        ensures { result ≡ OfSplit i }
    {
        TreeLine {
            node: Node::Split(i),
        }
    }

    /// Returns the line of a leaf.
    pub fn leaf(leaf: OneLeaf) -> TreeLine
        ensures { result ≡ OfLeaf leaf }
    {
        TreeLine {
            node: Node::Leaf(leaf),
        }
    }

    /// Returns the line's node.
    pub fn node(&self) -> &Node
        ensures { seen_node result.now ≡ self.now }
    {
        &self.node
    }
}

/// A list of lines. They need not be those of a whole tree.
#[derive(Debug, Drop)]
pub struct TreeLines {
    lines: Vec<TreeLine>,
}

impl Model for TreeLines {
    ghost use Rattle.std.specs.Prelude.{List};
    ghost use Rattle.define_proofs.specs.TreeLines.{TreeLine as Seen};

    ghost Value = { List Seen };

    ghost view = { λ t. t.lines.items };
}

impl TreeLines {
    /// Returns the list of these lines.
    pub fn new(lines: Vec<TreeLine>) -> TreeLines
        ensures { result ≡ lines.items }
    {
        TreeLines { lines }
    }

    /// Appends a line.
    pub fn add_line(&mut self, line: TreeLine) -> Result<(), AllocError>
        ensures ok { OnOk result (self.new ≡ self.old ++ line ∷ []) }
        ensures err { OnErr result (self.new ≡ self.old) }
    {
        self.lines.push(line)?;
        Ok(())
    }

    /// Returns the lines, in order.
    pub fn lines(&self) -> &[TreeLine]
        ensures { result.now ≡ self.now }
    {
        &self.lines
    }
}
