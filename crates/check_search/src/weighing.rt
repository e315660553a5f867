//! What fronts weigh in rows. A helper of the search.

ghost use Rattle.std.specs.Prelude.{◌≡◌, ◌+◌, ◌-◌, ◌*◌, ◌<◌, ◌≤◌, ◌^◌, ◌++◌, [], ◌∷◌, true, length, pos, ◌+ℤ◌, ◌*ℤ◌, unsigned_abs, int_le, IfOk};
ghost use Rattle.std.specs.List.{list_all};
ghost use Rattle.define_searches.specs.Weights.{AreNarrow, EachNarrow};
ghost use Rattle.define_searches.specs.Front.{AreWithin};
ghost use Rattle.check_search.specs.Weights.{IsSummed, SumEach, Weighs, WeighEach};
ghost use Rattle.define_searches.specs.Fronts.{optimistic, taken_by};
ghost use Rattle.define_searches.specs.Compositions.{weight_in};

use crate::greatest::Sums;
use crate::groups::Classes;
use crate::rows::StageRow;
use std::alloc::{AllocError, Global};

// The weights in a row of a front and of its prefixes: the entry at k is the weight of the first k counts.
#[derive(Debug, Drop)]
pub(crate) struct Weights {
    by_length: Vec<i128>,
}

impl Weights {
    // Returns the weights of the empty front.
    pub(crate) fn of_nothing(
        alloc: Global,
        classes: &Classes,
        row: &StageRow,
    ) -> Result<Weights, AllocError>
        requires { AreNarrow classes.now row.now.a }
        ensures { IfOk result (λ weights. Weighs classes.now row.now [] weights) }
    {
        classes.facts();
        let by_length = vec![in alloc; 0; row.entries().len() + 1]?;
        Ok(Weights { by_length })
    }

    // Returns the front's weight.
    pub(crate) fn weight(&self, classes: &Classes, row: &StageRow, front: &[usize]) -> i128
        requires within { length front.now < length classes.now.classes + 1 }
        requires stands { Weighs classes.now row.now front.now self.now }
        ensures { result ≡ weight_in row.now.a front.now }
    {
        self.by_length[front.len()]
    }

    // Returns the front's optimistic weight: what it weighs, plus the greatest sum of `lack` units of the classes after it. `lack` is how
    // many members it lacks of the size.
    pub(crate) fn optimistic(
        &self,
        sums: &Sums,
        classes: &Classes,
        row: &StageRow,
        front: &[usize],
        lack: usize,
    ) -> i128
        requires narrow { AreNarrow classes.now row.now.a }
        requires sums { IsSummed classes.now row.now sums.now }
        requires within { length front.now ≤ length classes.now.classes }
        requires counts { AreWithin classes.now front.now }
        requires lack { lack ≡ classes.now.size - taken_by classes.now front.now }
        requires stands { Weighs classes.now row.now front.now self.now }
        ensures { result ≡ optimistic classes.now row.now front.now }
    {
        classes.facts();
        let rest = sums.greatest_of(classes, row, front.len(), lack);
        self.weight(classes, row, front) + rest
    }

    // Stores and returns the weight of the front with `count` of the next class.
    fn go_on(&mut self, classes: &Classes, row: &StageRow, front: &[usize], count: usize) -> i128
        requires narrow { AreNarrow classes.now row.now.a }
        requires below { length front.now < length classes.now.classes }
        requires counts { AreWithin classes.now (front.now ++ count ∷ []) }
        requires stands { Weighs classes.now row.now front.now self.old }
        ensures value { result ≡ weight_in row.now.a (front.now ++ count ∷ []) }
        ensures weighs { Weighs classes.now row.now (front.now ++ count ∷ []) self.new }
    {
        classes.facts();
        let depth = front.len();
        let weight = with_count(
            self.weight(classes, row, front),
            count,
            row.entries()[depth],
        );
        self.by_length[depth + 1] = weight;
        weight
    }

    // Stores the weight of the child, which is the front with `count` of the next class, and returns the child's optimistic weight. `lack`
    // is how many members the child lacks of the size.
    pub(crate) fn child(
        &mut self,
        sums: &Sums,
        classes: &Classes,
        row: &StageRow,
        front: &[usize],
        count: usize,
        lack: usize,
    ) -> i128
        requires narrow { AreNarrow classes.now row.now.a }
        requires sums { IsSummed classes.now row.now sums.now }
        requires below { length front.now < length classes.now.classes }
        requires counts { AreWithin classes.now (front.now ++ count ∷ []) }
        requires lack { lack ≡ classes.now.size - taken_by classes.now (front.now ++ count ∷ []) }
        requires stands { Weighs classes.now row.now front.now self.old }
        ensures value { result ≡ optimistic classes.now row.now (front.now ++ count ∷ []) }
        ensures weighs { Weighs classes.now row.now (front.now ++ count ∷ []) self.new }
    {
        classes.facts();
        let rest = sums.greatest_of(classes, row, front.len() + 1, lack);
        self.go_on(classes, row, front, count) + rest
    }
}

// Returns, for each closed row, the weights of the empty front.
pub(crate) fn all_weights(
    alloc: Global,
    classes: &Classes,
    closed: &[StageRow],
) -> Result<Vec<Weights>, AllocError>
    requires { EachNarrow classes.now closed.now }
    ensures { IfOk result (λ weights. WeighEach classes.now closed.now [] weights.items) }
{
    let mut weights = Vec::with_capacity(alloc, closed.len())?;
    for row in closed {
        weights.push(Weights::of_nothing(alloc, classes, row)?)?;
    }
    Ok(weights)
}

// Returns the weight plus `count` times the entry.
fn with_count(weight: i128, count: usize, entry: i128) -> i128
    requires { unsigned_abs weight + count * unsigned_abs entry < 2 ^ 127 }
    ensures { result ≡ weight +ℤ pos count *ℤ entry }
{
    weight + count as i128 * entry
}

// True if the optimistic weight of the child with `count` of the next class is at least the right side of each closed row.
pub(crate) fn child_attains(
    weights: &mut [Weights],
    sums: &[Sums],
    classes: &Classes,
    closed: &[StageRow],
    front: &[usize],
    count: usize,
    lack: usize,
) -> bool
    requires narrow { EachNarrow classes.now closed.now }
    requires sums { SumEach classes.now closed.now sums.now }
    requires below { length front.now < length classes.now.classes }
    requires counts { AreWithin classes.now (front.now ++ count ∷ []) }
    requires lack { lack ≡ classes.now.size - taken_by classes.now (front.now ++ count ∷ []) }
    requires stands { WeighEach classes.now closed.now front.now weights.old }
    ensures value { result ≡ list_all (λ row. int_le row.b (optimistic classes.now row (front.now ++ count ∷ []))) closed.now }
    ensures front { WeighEach classes.now closed.now front.now weights.new }
    ensures child { result ≡ true → WeighEach classes.now closed.now (front.now ++ count ∷ []) weights.new }
{
    for r in 0..closed.len() {
        let row = &closed[r];
        if weights[r].child(&sums[r], classes, row, front, count, lack) < row.side() {
            return false;
        }
    }
    true
}

// True if the optimistic weight of the front, which lacks `lack` members, is at least the right side of each closed row.
pub(crate) fn front_attains(
    weights: &[Weights],
    sums: &[Sums],
    classes: &Classes,
    closed: &[StageRow],
    front: &[usize],
    lack: usize,
) -> bool
    requires narrow { EachNarrow classes.now closed.now }
    requires sums { SumEach classes.now closed.now sums.now }
    requires within { length front.now ≤ length classes.now.classes }
    requires counts { AreWithin classes.now front.now }
    requires lack { lack ≡ classes.now.size - taken_by classes.now front.now }
    requires stands { WeighEach classes.now closed.now front.now weights.now }
    ensures { result ≡ list_all (λ row. int_le row.b (optimistic classes.now row front.now)) closed.now }
{
    for r in 0..closed.len() {
        let row = &closed[r];
        if weights[r].optimistic(&sums[r], classes, row, front, lack) < row.side() {
            return false;
        }
    }
    true
}

/// Returns the optimistic weight of a front in a row: what it weighs, plus the greatest sum of `lack` units of the classes after it. `lack`
/// is how many members it lacks of the size.
pub fn optimistic_weight(
    sums: &Sums,
    classes: &Classes,
    row: &StageRow,
    front: &[usize],
    lack: usize,
) -> i128
    requires narrow { AreNarrow classes.now row.now.a }
    requires sums { IsSummed classes.now row.now sums.now }
    requires within { length front.now ≤ length classes.now.classes }
    requires counts { AreWithin classes.now front.now }
    requires lack { lack ≡ classes.now.size - taken_by classes.now front.now }
    ensures { result ≡ optimistic classes.now row.now front.now }
{
    classes.facts();
    let rest = sums.greatest_of(classes, row, front.len(), lack);
    weight_of(classes, row, front) + rest
}

// Returns what a front weighs in a row.
fn weight_of(classes: &Classes, row: &StageRow, front: &[usize]) -> i128
    requires narrow { AreNarrow classes.now row.now.a }
    requires within { length front.now ≤ length classes.now.classes }
    requires counts { AreWithin classes.now front.now }
    ensures { result ≡ weight_in row.now.a front.now }
{
    classes.facts();
    let mut weight = 0;
    for place in 0..front.len() {
        weight = with_count(weight, front[place], row.entries()[place]);
    }
    weight
}
