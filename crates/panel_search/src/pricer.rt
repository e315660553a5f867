//! The rows that compositions must attain, with what each pricing needs of them. The run adds a row when a stage closes.

ghost use Rattle.std.specs.Prelude.{◌≡◌, ◌++◌, [], ◌∷◌, IfOk, OnOk, OnErr, take};
ghost use Rattle.std.specs.List.{AllByRecursion};
ghost use Rattle.panel_search.specs.Answers.{AnswersBest, AnswersPieces};
ghost use Rattle.define_searches.specs.Compositions.{price};
ghost use Rattle.define_searches.specs.Fronts.{HaveEntries, HaveReach};
ghost use Rattle.define_searches.specs.Visits.{best_search};
ghost use Rattle.define_searches.specs.Below.{IsFront, best_below, search_from};
ghost use Rattle.define_searches.specs.Waves.{pieces};

use crate::fronts::Front;
use crate::greatest::Sums;
use crate::priced::PricedRow;
use crate::pricing::search_best;
use crate::searching::SearchStop;
use alike::{Classes, Composition};
use define_rows::Row;
use std::alloc::{AllocError, Global};
use std::marker::Model;

/// The closed rows over classes, which compositions must attain, and for each the greatest sums of units that classes give in it. They
/// are made once, when the row is added, and each pricing reads them. A row takes 16 bytes times (classes + 1) times (size + 1): 1.3
/// megabytes at 400 classes and a panel of 200.
#[derive(Debug, Drop)]
pub struct Pricer<'c> {
    classes: &'c Classes,
    closed: Vec<Row>,
    sums: Vec<Sums>,
}

impl<'c> Model for Pricer<'c> {
    ghost use Rattle.panel_search.specs.Pricers.{ClosedRows};

    ghost Value = { ClosedRows };

    ghost use Rattle.panel_search.specs.Pricers.{AreClosed};

    ghost view = { λ p. record { classes = p.classes.now; closed = p.closed.items } };

    ghost invariant = { λ p. AreClosed p.classes.now p.closed.items p.sums.items };
}

impl<'c> Pricer<'c> {
    /// Returns a pricer without rows.
    pub fn new(alloc: Global, classes: &'c Classes) -> Pricer<'c>
        ensures { result ≡ record { classes = classes.now; closed = [] } }
    {
        Pricer {
            classes,
            closed: Vec::new(alloc),
            sums: Vec::new(alloc),
        }
    }

    /// Returns the classes that the rows are over.
    pub fn classes(&self) -> &'c Classes
        ensures { result.now ≡ self.now.classes }
    {
        self.classes
    }

    /// Returns the rows, in the order in which they were added.
    pub fn closed(&self) -> &[Row]
        ensures { result.now ≡ self.now.closed }
    {
        &self.closed
    }

    /// Adds a row, of one entry per class and a reach below 2^127. Fails if memory runs out; the rows are then unchanged.
    pub fn add_row(&mut self, row: Row) -> Result<(), AllocError>
        requires entries { HaveEntries self.old.classes (row ∷ []) }
        requires reach { HaveReach self.old.classes (row ∷ []) }
        ensures ok { OnOk result (self.new ≡ record self.old { closed = self.old.closed ++ row ∷ [] }) }
        ensures err { OnErr result (self.new ≡ self.old) }
    {
        self.classes.facts();
        let sums = Sums::new(*self.closed.allocator(), self.classes, &row)?;
        self.sums.push(sums)?;
        match self.closed.push(row) {
            Ok(()) => Ok(()),
            Err(stop) => {
                let _ = self.sums.pop();
                Err(stop.into())
            }
        }
    }

    /// Searches the compositions that weigh at least the right side in each closed row, and more than its right side in `row`. Returns the
    /// one of greatest weight in `row`, the first of equals, or None if there is none; and the visits of the search. Fails with `Spent` if
    /// these are more than `nodes`. The row has one entry per class and a reach below 2^127. All memory is taken before the first visit.
    pub fn best(&self, row: &Row, nodes: u64) -> Result<(Option<Composition>, u64), SearchStop>
        requires entries { HaveEntries self.now.classes (row.now ∷ []) }
        requires reach { HaveReach self.now.classes (row.now ∷ []) }
        ensures answers { AnswersBest (best_search self.now.classes self.now.closed row.now) nodes result }
        ensures best { IfOk result (λ answer. answer.0 ≡ price self.now.classes self.now.closed row.now) }
    {
        let alloc = *self.closed.allocator();
        self.classes.facts();
        let priced = self.priced(row)?;
        search_best(alloc, &priced.terms(), nodes)
    }

    /// Returns the row as one that is priced over the closed rows, with its greatest sums, which are made once for all searches of
    /// the pricing. It has one entry per class and a reach below 2^127. Fails if memory runs out.
    pub fn priced<'p>(&'p self, row: &'p Row) -> Result<PricedRow<'p>, AllocError>
        requires entries { HaveEntries self.now.classes (row.now ∷ []) }
        requires reach { HaveReach self.now.classes (row.now ∷ []) }
        ensures { IfOk result (λ priced. priced ≡ record { classes = self.now.classes; closed = self.now.closed; row = row.now }) }
    {
        self.classes.facts();
        let sums = Sums::new(*self.closed.allocator(), self.classes, row)?;
        Ok(PricedRow::new(self.classes, &self.closed, &self.sums, row, sums))
    }
}

/// Searches the compositions that weigh at least the right side in each closed row, and more than its right side in `row`. Returns the one
/// of greatest weight in `row`, the first of equals, or None if there is none; and the visits of the search. Fails with `Spent` if these
/// are more than `nodes`. To price several rows, use a `Pricer`: it makes the tables of the closed rows once.
///
/// Each of the rows has one entry per class and a reach below 2^127. The reach is the absolute value of the right side, plus that of each
/// entry times its class's size. So every weight fits 128 bits. All memory is taken before the first visit.
pub fn best(
    alloc: Global,
    classes: &Classes,
    closed: &[Row],
    row: &Row,
    nodes: u64,
) -> Result<(Option<Composition>, u64), SearchStop>
    requires entries { HaveEntries classes.now (row.now ∷ closed.now) }
    requires reaches { HaveReach classes.now (row.now ∷ closed.now) }
    ensures answers { AnswersBest (best_search classes.now closed.now row.now) nodes result }
    ensures best { IfOk result (λ answer. answer.0 ≡ price classes.now closed.now row.now) }
{
    let pricer = pricer_of(alloc, classes, closed)?;
    pricer.best(row, nodes)
}

/// Returns the fronts of the pieces of the search in waves for the best composition, in order, and the number of visits made to find them:
/// `PricedRow::pieces` for these rows. Fails with `Spent` if the visits exceed `nodes`. Each of the rows has one entry per class and a
/// reach below 2^127.
pub fn pieces(
    alloc: Global,
    classes: &Classes,
    closed: &[Row],
    row: &Row,
    nodes: u64,
) -> Result<(Vec<Front>, u64), SearchStop>
    requires entries { HaveEntries classes.now (row.now ∷ closed.now) }
    requires reaches { HaveReach classes.now (row.now ∷ closed.now) }
    ensures answers { AnswersPieces (pieces classes.now closed.now row.now) nodes result }
    ensures fronts { IfOk result (λ answer. AllByRecursion (IsFront classes.now) answer.0.items) }
{
    let pricer = pricer_of(alloc, classes, closed)?;
    let priced = pricer.priced(row)?;
    priced.pieces(alloc, nodes)
}

/// Returns the best composition below a front, with a floor of its own, and the visits of the search: `PricedRow::best_from` for these
/// rows. Fails with `Spent` if the visits are more than `nodes`. Each of the rows has one entry per class and a reach below 2^127; the
/// front has at most one count for each class, from the class's least to its most.
pub fn best_from(
    alloc: Global,
    classes: &Classes,
    closed: &[Row],
    row: &Row,
    front: &Front,
    floor: i128,
    nodes: u64,
) -> Result<(Option<Composition>, u64), SearchStop>
    requires entries { HaveEntries classes.now (row.now ∷ closed.now) }
    requires reaches { HaveReach classes.now (row.now ∷ closed.now) }
    requires front { IsFront classes.now front.now }
    ensures answers { AnswersBest (search_from classes.now closed.now row.now front.now floor) nodes result }
    ensures best { IfOk result (λ answer. answer.0 ≡ best_below classes.now closed.now row.now front.now floor) }
{
    let pricer = pricer_of(alloc, classes, closed)?;
    let priced = pricer.priced(row)?;
    priced.best_from(alloc, front, floor, nodes)
}

/// Returns a pricer of these rows, each of one entry per class and a reach below 2^127.
pub fn pricer_of<'c>(
    alloc: Global,
    classes: &'c Classes,
    closed: &[Row],
) -> Result<Pricer<'c>, AllocError>
    requires entries { HaveEntries classes.now closed.now }
    requires reaches { HaveReach classes.now closed.now }
    ensures { IfOk result (λ pricer. pricer ≡ record { classes = classes.now; closed = closed.now }) }
{
    let mut pricer = Pricer::new(alloc, classes);
    for row in closed {
        pricer.add_row(row.copy()?)?;
    }
    Ok(pricer)
}
