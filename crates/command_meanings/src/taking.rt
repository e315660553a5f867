//! The evidence that all nodes of a budget were taken. `prove` needs it to answer that no trees are found.

ghost use Rattle.std.specs.Prelude.{◌≡◌};
ghost use Rattle.command_meanings.specs.TakenNodes.{NodesAreTaken};

use prove_limits::Budget;
use std::marker::Model;

/// Gives the evidence that all nodes of `budget` were taken, if none is left. Nothing else gives it.
pub fn evidence_of_taken_nodes(budget: &Budget)
    ensures { budget.now.nodes ≡ 0 → NodesAreTaken budget.now.most_nodes }
{}

/// No value of it is made. What its view names is private to the specs, and the type to this file, so the proof above can name it, and no text
/// of another crate can.
#[derive(Drop)]
struct Witness;

impl Model for Witness {
    ghost use Rattle.command_meanings.specs.TakenNodes.{Each, each, each_code};

    ghost Value = { Each };

    ghost coded = { each_code };

    ghost view = { λ _. each };
}
