//! What a run may spend: pivots and nodes of search trees. Every loop of the engine that may run long takes a pivot or a node in each
//! round, so the clauses of `take_pivot` and `take_node` show that it ends.

ghost use Rattle.std.specs.Prelude.{◌≡◌, ◌-◌, nat_lt, if◌then◌else◌, Ok, Err};
ghost use Rattle.prove_limits.specs.Budgets.{unspent};

use crate::stops::{Limit, ProveStop};
use std::marker::Model;

/// The pivots and the nodes of search trees that are left to a run, and how many the whole run may spend.
#[derive(Debug, Drop)]
pub struct Budget {
    pivots: u64,
    nodes: u64,
    most_pivots: u64,
    most_nodes: u64,
}

impl Model for Budget {
    ghost use Rattle.prove_limits.specs.Budgets.{IsWithinMost, Left};

    ghost Value = { Left };

    ghost view = { λ b. record { pivots = b.pivots; nodes = b.nodes; most_pivots = b.most_pivots; most_nodes = b.most_nodes } };

    ghost invariant = { λ b. IsWithinMost (record { pivots = b.pivots; nodes = b.nodes; most_pivots = b.most_pivots; most_nodes = b.most_nodes }) };
}

impl Budget {
    /// Returns an unspent budget.
    pub fn new(pivots: u64, nodes: u64) -> Budget
        ensures { result ≡ unspent pivots nodes }
    {
        Budget {
            pivots,
            nodes,
            most_pivots: pivots,
            most_nodes: nodes,
        }
    }

    /// Returns how many pivots are left.
    pub fn pivots(&self) -> u64
        ensures { result ≡ self.now.pivots }
    {
        self.pivots
    }

    /// Returns how many nodes are left.
    pub fn nodes(&self) -> u64
        ensures { result ≡ self.now.nodes }
    {
        self.nodes
    }

    /// Returns how many pivots the whole run may spend.
    pub fn most_pivots(&self) -> u64
        ensures { result ≡ self.now.most_pivots }
    {
        self.most_pivots
    }

    /// Returns how many nodes the whole run may spend.
    pub fn most_nodes(&self) -> u64
        ensures { result ≡ self.now.most_nodes }
    {
        self.most_nodes
    }

    /// Takes one pivot. Fails exactly if none is left.
    pub fn take_pivot(&mut self) -> Result<(), ProveStop>
        ensures value { result ≡ (if nat_lt 0 self.old.pivots then Ok tt else Err (ProveStop.Spent Limit.Pivots)) }
        ensures left { self.new ≡ record self.old { pivots = self.old.pivots - 1 } }
    {
        if self.pivots == 0 {
            return Err(ProveStop::Spent(Limit::Pivots));
        }
        self.pivots -= 1;
        Ok(())
    }

    /// Takes one node. Fails exactly if none is left.
    pub fn take_node(&mut self) -> Result<(), ProveStop>
        ensures value { result ≡ (if nat_lt 0 self.old.nodes then Ok tt else Err (ProveStop.Spent Limit.Nodes)) }
        ensures left { self.new ≡ record self.old { nodes = self.old.nodes - 1 } }
    {
        if self.nodes == 0 {
            return Err(ProveStop::Spent(Limit::Nodes));
        }
        self.nodes -= 1;
        Ok(())
    }
}
