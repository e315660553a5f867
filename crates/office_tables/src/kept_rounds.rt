//! Rounds: how far each has come, and what it keeps.

ghost use Rattle.std.specs.Prelude.{◌≡◌, ◌++◌, [], ◌∷◌, bytes_eq, if◌then◌else◌, not, IfOk, OnOk, Some, None};
ghost use Rattle.define_offices.specs.Facts.{has_drop};
ghost use Rattle.define_offices.specs.Steps.{drawn_by, dropped_out, seal_told, solved_with, taken_back, without_id};
ghost use Rattle.define_offices.specs.Tables.{Open, bundle_of, phase_of, tickets_of};
ghost use Rattle.office_tables.specs.Parts.{digits_of, dropped_of, parts_fit, round_of};

use crate::names::copied_names;
use crate::numbers::{Tickets, copied_tickets};
use bundle_text::Bundle;
use define_offices::Phase;
use pool_model::Name;
use std::alloc::{AllocError, Global};
use std::marker::Model;

/// A round. An open round has nothing; from `Solved` on it has a bundle; from `Sealed` on maybe the round number of tickets that was kept
/// with the seal; a drawn round also has the digits of the dice, and the ids of those who dropped out since.
#[derive(Debug, Drop)]
pub struct Round {
    phase: Phase,
    bundle: Option<Bundle>,
    tickets: Option<Tickets>,
    digits: Vec<u8>,
    dropped: Vec<Name>,
}

impl Model for Round {
    ghost use Rattle.std.specs.Prelude.{IsTrue};
    ghost use Rattle.define_offices.specs.Tables.{Round as Seen};
    ghost use Rattle.office_tables.specs.Parts.{parts_fit, round_of};

    ghost Value = { Seen };

    ghost view = { λ r. round_of r.phase r.bundle r.tickets r.digits.items r.dropped.items };

    ghost invariant = { λ r. IsTrue (parts_fit r.phase r.bundle r.tickets r.digits.items r.dropped.items) };
}

impl Round {
    /// Returns an open round.
    pub fn open(alloc: Global) -> Round
        ensures { result ≡ Open }
    {
        Round {
            phase: Phase::Open,
            bundle: None,
            tickets: None,
            digits: Vec::new(alloc),
            dropped: Vec::new(alloc),
        }
    }

    /// Returns the round of these parts, or None exactly if they don't fit: it has a bundle exactly if it is past `Open`, a
    /// number of tickets only from `Sealed` on, and digits and dropouts only if it is drawn.
    pub fn from_parts(
        phase: Phase,
        bundle: Option<Bundle>,
        tickets: Option<Tickets>,
        digits: Vec<u8>,
        dropped: Vec<Name>,
    ) -> Option<Round>
        ensures { result ≡ (if parts_fit phase bundle tickets digits.items dropped.items then Some (round_of phase bundle tickets digits.items dropped.items) else None) }
    {
        if !fit(phase, &bundle, &tickets, &digits, &dropped) {
            return None;
        }
        Some(Round {
            phase,
            bundle,
            tickets,
            digits,
            dropped,
        })
    }

    /// Returns the phase of the round.
    pub fn phase(&self) -> Phase
        ensures { result ≡ phase_of self.now }
    {
        self.phase
    }

    /// Returns the bundle of the round, or None if the round is open.
    pub fn bundle(&self) -> &Option<Bundle>
        ensures { result.now ≡ bundle_of self.now }
    {
        &self.bundle
    }

    /// Returns the round number of tickets that was kept with the seal, if there is one.
    pub fn tickets(&self) -> &Option<Tickets>
        ensures { result.now ≡ tickets_of self.now }
    {
        &self.tickets
    }

    /// Returns the digits of the dice, or no digits if the round is not drawn yet.
    pub fn digits(&self) -> &[u8]
        ensures { result.now ≡ digits_of self.now }
    {
        &self.digits
    }

    /// Returns the ids of those who dropped out after the draw, in the order in which they did.
    pub fn dropped(&self) -> &[Name]
        ensures { result.now ≡ dropped_of self.now }
    {
        &self.dropped
    }

    /// True if somebody dropped out after the draw.
    pub fn has_drop(&self) -> bool
        ensures { result ≡ has_drop self.now }
    {
        match self.phase {
            Phase::Drawn => !self.dropped.is_empty(),
            _ => false,
        }
    }

    /// Returns an equal round.
    pub fn copy(&self) -> Result<Round, AllocError>
        ensures { IfOk result (λ copied. copied ≡ self.now) }
    {
        let alloc = *self.digits.allocator();
        Ok(Round {
            phase: self.phase,
            bundle: copied_bundle(&self.bundle)?,
            tickets: copied_tickets(&self.tickets),
            digits: Vec::from_slice(alloc, &self.digits)?,
            dropped: copied_names(alloc, &self.dropped)?,
        })
    }

    /// Returns the round with this bundle if it is open, else an equal one.
    pub(crate) fn copy_solved(&self, bundle: &Bundle) -> Result<Round, AllocError>
        ensures { IfOk result (λ copied. copied ≡ solved_with bundle.now self.now) }
    {
        match self.phase {
            Phase::Open => {
                let alloc = *self.digits.allocator();
                Ok(Round {
                    phase: Phase::Solved,
                    bundle: Some(bundle.copy()?),
                    tickets: None,
                    digits: Vec::new(alloc),
                    dropped: Vec::new(alloc),
                })
            }
            _ => self.copy(),
        }
    }

    /// Returns the round as sealed with this number of tickets if it is solved, else an equal one.
    pub(crate) fn copy_sealed(&self, tickets: &Option<Tickets>) -> Result<Round, AllocError>
        ensures { IfOk result (λ copied. copied ≡ seal_told tickets.now self.now) }
    {
        match self.phase {
            Phase::Solved => {
                let alloc = *self.digits.allocator();
                Ok(Round {
                    phase: Phase::Sealed,
                    bundle: copied_bundle(&self.bundle)?,
                    tickets: copied_tickets(tickets),
                    digits: Vec::new(alloc),
                    dropped: Vec::new(alloc),
                })
            }
            _ => self.copy(),
        }
    }

    /// Returns the round as drawn by these digits if it is sealed, else an equal one.
    pub(crate) fn copy_drawn(&self, digits: &[u8]) -> Result<Round, AllocError>
        ensures { IfOk result (λ copied. copied ≡ drawn_by digits.now self.now) }
    {
        match self.phase {
            Phase::Sealed => {
                let alloc = *self.digits.allocator();
                Ok(Round {
                    phase: Phase::Drawn,
                    bundle: copied_bundle(&self.bundle)?,
                    tickets: copied_tickets(&self.tickets),
                    digits: Vec::from_slice(alloc, digits)?,
                    dropped: Vec::new(alloc),
                })
            }
            _ => self.copy(),
        }
    }

    /// Returns the round with one more dropout if it was drawn, else an equal one.
    pub(crate) fn copy_dropped(&self, id: &Name) -> Result<Round, AllocError>
        ensures { IfOk result (λ copied. copied ≡ dropped_out id.now self.now) }
    {
        match self.phase {
            Phase::Drawn => {
                let alloc = *self.digits.allocator();
                Ok(Round {
                    phase: Phase::Drawn,
                    bundle: copied_bundle(&self.bundle)?,
                    tickets: copied_tickets(&self.tickets),
                    digits: Vec::from_slice(alloc, &self.digits)?,
                    dropped: with_one_more(alloc, &self.dropped, id)?,
                })
            }
            _ => self.copy(),
        }
    }

    /// Returns the round without the dropout of `id` if it was drawn, else an equal one.
    pub(crate) fn copy_taken_back(&self, id: &Name) -> Result<Round, AllocError>
        ensures { IfOk result (λ copied. copied ≡ taken_back id.now self.now) }
    {
        match self.phase {
            Phase::Drawn => {
                let alloc = *self.digits.allocator();
                Ok(Round {
                    phase: Phase::Drawn,
                    bundle: copied_bundle(&self.bundle)?,
                    tickets: copied_tickets(&self.tickets),
                    digits: Vec::from_slice(alloc, &self.digits)?,
                    dropped: without(alloc, &self.dropped, id)?,
                })
            }
            _ => self.copy(),
        }
    }
}

/// Returns the names other than `id`.
fn without(alloc: Global, names: &[Name], id: &Name) -> Result<Vec<Name>, AllocError>
    ensures { IfOk result (λ others. others.items ≡ without_id id.now names.now) }
{
    let mut others = Vec::new(alloc);
    for name in names {
        push_other(&mut others, name, id)?;
    }
    Ok(others)
}

/// Appends a name, unless it is `id`.
fn push_other(others: &mut Vec<Name>, name: &Name, id: &Name) -> Result<(), AllocError>
    ensures { OnOk result (others.new.items ≡ others.old.items ++ (if not (bytes_eq id.now name.now) then name.now ∷ [] else [])) }
{
    if id.as_bytes() == name.as_bytes() {
        return Ok(());
    }
    others.push(name.copy()?)?;
    Ok(())
}

/// True if the parts fit: see `Round::from_parts`.
fn fit(
    phase: Phase,
    bundle: &Option<Bundle>,
    tickets: &Option<Tickets>,
    digits: &[u8],
    dropped: &[Name],
) -> bool
    ensures { result ≡ parts_fit phase bundle.now tickets.now digits.now dropped.now }
{
    match phase {
        Phase::Open => bundle.is_none()
            && tickets.is_none()
            && digits.is_empty()
            && dropped.is_empty(),
        Phase::Solved => bundle.is_some()
            && tickets.is_none()
            && digits.is_empty()
            && dropped.is_empty(),
        Phase::Sealed => bundle.is_some() && digits.is_empty() && dropped.is_empty(),
        Phase::Drawn => bundle.is_some(),
    }
}

/// Returns an equal bundle, or None if there is none.
fn copied_bundle(bundle: &Option<Bundle>) -> Result<Option<Bundle>, AllocError>
    ensures { IfOk result (λ copied. copied ≡ bundle.now) }
{
    match bundle {
        Some(bundle) => Ok(Some(bundle.copy()?)),
        None => Ok(None),
    }
}

/// Returns the names with `last` appended.
fn with_one_more(alloc: Global, names: &[Name], last: &Name) -> Result<Vec<Name>, AllocError>
    ensures { IfOk result (λ all. all.items ≡ names.now ++ last.now ∷ []) }
{
    let mut all = copied_names(alloc, names)?;
    all.push(last.copy()?)?;
    Ok(all)
}

/// Returns copies of the rounds.
pub(crate) fn copied_rounds(alloc: Global, rounds: &[Round]) -> Result<Vec<Round>, AllocError>
    ensures { IfOk result (λ copies. copies.items ≡ rounds.now) }
{
    let mut copies = Vec::new(alloc);
    for round in rounds {
        copies.push(round.copy()?)?;
    }
    Ok(copies)
}
