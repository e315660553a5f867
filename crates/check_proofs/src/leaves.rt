//! Tests whether a leaf shows a stage's cap: the charges of its multipliers and of the volunteers' rests are added up, and compared with
//! the least that a panel above the cap weighs, times the scale. No sum is tested for its width, since a law says that none passes 128 bits
//! if the problem is within reach and the leaf keeps its ranges.

ghost use Rattle.std.specs.Prelude.{◌≡◌, ◌^◌, ◌<◌, ◌*ℤ◌, ◌+ℤ◌, IsTrue, length, pos, unsigned_abs};
ghost use Rattle.define_proofs.specs.Constraints.{constraint_at, signed_sum};
ghost use Rattle.define_proofs.specs.LeafSums.{is_problem_in_reach};
ghost use Rattle.define_proofs.specs.Leaves.{charge as charge_of, has_constraints as has_constraints_of, leaf_shows as shows, multiplied as multiplied_of, rest as rest_of, rest_charge as rest_charge_of, total_charge as total_charge_of};
ghost use Rattle.define_proofs.specs.TreeRanges.{is_leaf};
ghost use Rattle.define_pools.specs.Certificate.{weight_of as weight_of_one};

use crate::constraints::Constraint;
use pool_model::{Stage, Standing};
use proof_text::{Leaf, Multiplier};
use std::marker::Model;

/// What is to be shown: that no panel that meets the constraints weighs more in the stage than its cap.
#[derive(Drop)]
pub(crate) struct Problem<'a> {
    constraints: &'a [Constraint<'a>],
    stage: &'a Stage,
}

impl<'a> Model for Problem<'a> {
    ghost use Rattle.define_proofs.specs.Leaves.{Problem as Seen};

    ghost Value = { Seen };

    ghost view = { λ p. record { constraints = p.constraints.now; stage = p.stage.now } };
}

impl<'a> Problem<'a> {
    /// Returns the problem of a stage.
    pub(crate) fn new(constraints: &'a [Constraint<'a>], stage: &'a Stage) -> Problem<'a>
        ensures { result ≡ record { constraints = constraints.now; stage = stage.now } }
    {
        Problem { constraints, stage }
    }

    /// Returns the constraint of a number.
    fn constraint(&self, number: usize) -> &Constraint<'a>
        requires { number < length self.now.constraints }
        ensures { result.now ≡ constraint_at self.now.constraints number }
    {
        constraint_of(self.constraints, number)
    }
}

/// Returns the constraint of a number.
fn constraint_of<'a, 'b>(constraints: &'b [Constraint<'a>], number: usize) -> &'b Constraint<'a>
    requires { number < length constraints.now }
    ensures { result.now ≡ constraint_at constraints.now number }
{
    &constraints[number]
}

/// True if the leaf shows the cap for the panels that keep the standings: they have everyone who is seated and no one who is gone.
pub(crate) fn leaf_shows(problem: &Problem, standings: &[Standing], leaf: &Leaf) -> bool
    requires near { IsTrue (is_problem_in_reach problem.now) }
    requires leaf { IsTrue (is_leaf leaf.now) }
    ensures { result ≡ shows problem.now standings.now leaf.now }
{
    if !has_constraints(problem, leaf) {
        return false;
    }
    total_charge(problem, standings, leaf) < bound(problem, leaf)
}

/// True if each multiplier is of a constraint that exists.
fn has_constraints(problem: &Problem, leaf: &Leaf) -> bool
    ensures { result ≡ has_constraints_of problem.now leaf.now }
{
    let count = problem.constraints.len();
    leaf.multipliers().iter().all(|it| it.number() < count)
}

/// Returns the least that a panel above the cap weighs, times the scale.
fn bound(problem: &Problem, leaf: &Leaf) -> i128
    requires near { IsTrue (is_problem_in_reach problem.now) }
    requires leaf { IsTrue (is_leaf leaf.now) }
    ensures { result ≡ pos leaf.now.scale *ℤ (problem.now.stage.cap +ℤ pos 1) }
{
    leaf.scale() as i128 * (problem.stage.cap() + 1)
}

/// Returns the sum of all charges.
fn total_charge(problem: &Problem, standings: &[Standing], leaf: &Leaf) -> i128
    requires near { IsTrue (is_problem_in_reach problem.now) }
    requires leaf { IsTrue (is_leaf leaf.now) }
    requires known { IsTrue (has_constraints_of problem.now leaf.now) }
    ensures { result ≡ total_charge_of problem.now standings.now leaf.now }
{
    let mut total = charges(problem, leaf);
    for (i, standing) in standings.iter().enumerate() {
        total += rest_charge(problem, leaf, *standing, i);
    }
    total
}

/// Returns the sum of the multipliers' charges.
fn charges(problem: &Problem, leaf: &Leaf) -> i128
    requires near { IsTrue (is_problem_in_reach problem.now) }
    requires leaf { IsTrue (is_leaf leaf.now) }
    requires known { IsTrue (has_constraints_of problem.now leaf.now) }
    ensures { result ≡ signed_sum (charge_of problem.now.constraints) leaf.now.multipliers }
{
    let mut charges = 0;
    for multiplier in leaf.multipliers() {
        charges += charge(problem, multiplier);
    }
    charges
}

/// Returns a multiplier's charge: the most that a sum within the constraint's bounds, times the factor, can be.
fn charge(problem: &Problem, multiplier: &Multiplier) -> i128
    requires known { multiplier.now.number < length problem.now.constraints }
    requires narrow { unsigned_abs (charge_of problem.now.constraints multiplier.now) < 2 ^ 127 }
    ensures { result ≡ charge_of problem.now.constraints multiplier.now }
{
    let constraint = problem.constraint(multiplier.number());
    let factor = multiplier.factor();
    if 0 < factor {
        factor * constraint.upper()
    } else {
        factor * constraint.lower()
    }
}

/// Returns the charge of a volunteer's rest: the most that a volunteer of this standing adds to a panel's sum of rests.
fn rest_charge(problem: &Problem, leaf: &Leaf, standing: Standing, i: usize) -> i128
    requires near { IsTrue (is_problem_in_reach problem.now) }
    requires leaf { IsTrue (is_leaf leaf.now) }
    requires known { IsTrue (has_constraints_of problem.now leaf.now) }
    ensures { result ≡ rest_charge_of standing (rest_of problem.now leaf.now i) }
{
    match standing {
        Standing::Open => above_zero(rest(problem, leaf, i)),
        Standing::Seated => rest(problem, leaf, i),
        Standing::Gone => 0,
    }
}

/// Returns a rest, or 0 if it is below 0.
fn above_zero(rest: i128) -> i128
    ensures { result ≡ rest_charge_of Standing.Open rest }
{
    if 0 < rest { rest } else { 0 }
}

/// Returns a volunteer's rest: the weight times the scale, less the coefficient times the factor for each multiplier.
fn rest(problem: &Problem, leaf: &Leaf, i: usize) -> i128
    requires near { IsTrue (is_problem_in_reach problem.now) }
    requires leaf { IsTrue (is_leaf leaf.now) }
    requires known { IsTrue (has_constraints_of problem.now leaf.now) }
    ensures { result ≡ rest_of problem.now leaf.now i }
{
    let mut rest = leaf.scale() as i128 * weight_of(problem.stage, i);
    for multiplier in leaf.multipliers() {
        rest -= multiplied(problem, multiplier, i);
    }
    rest
}

/// Returns a volunteer's coefficient in a multiplier's constraint, times the factor.
fn multiplied(problem: &Problem, multiplier: &Multiplier, i: usize) -> i128
    requires known { multiplier.now.number < length problem.now.constraints }
    requires narrow { unsigned_abs (multiplied_of problem.now.constraints i multiplier.now) < 2 ^ 127 }
    ensures { result ≡ multiplied_of problem.now.constraints i multiplier.now }
{
    let constraint = problem.constraint(multiplier.number());
    multiplier.factor() * constraint.coefficient(i)
}

/// Returns a volunteer's weight, or 0 if the stage has none.
fn weight_of(stage: &Stage, i: usize) -> i128
    ensures { result ≡ weight_of_one stage.now i }
{
    stage.weights().get(i).copied().unwrap_or(0)
}
