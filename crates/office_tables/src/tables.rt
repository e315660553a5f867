//! The tables of an office.

ghost use Rattle.std.specs.Prelude.{◌≡◌, IfOk};
ghost use Rattle.define_offices.specs.Facts.{IsTables};
ghost use Rattle.define_offices.specs.Tables.{first_tables};
ghost use Rattle.office_tables.specs.Seen.{TellsTables, seen_parts};

use crate::charters::{Charter, Rules};
use crate::checking::are_tables;
use crate::kept_rounds::Round;
use crate::rows::Entry;
use std::alloc::{AllocError, Global};
use std::marker::Model;
use std::sync::Arc;

/// The parts of tables.
#[derive(Debug, Drop)]
pub struct Parts {
    /// The assembly's title, and the size of its panels.
    pub charter: Option<Charter>,
    /// The categories with their bounds.
    pub rules: Option<Rules>,
    /// The rows of the register, in order.
    pub register: Vec<Entry>,
    /// The rounds, numbered from 1.
    pub rounds: Vec<Round>,
    /// The categories with the bounds that were set for the last round, if some were.
    pub bounds: Option<Rules>,
}

/// The tables of an office. `IsTables` holds of them at every moment; `tables_of` lists its facts. Tables never change, so equal ones share
/// their parts.
#[derive(Debug, Drop)]
pub struct Tables {
    parts: Arc<Parts>,
}

impl Model for Tables {
    ghost use Rattle.define_offices.specs.Tables.{Tables as Seen};
    ghost use Rattle.define_offices.specs.Facts.{IsTables};
    ghost use Rattle.office_tables.specs.Seen.{seen_parts};
    ghost use Rattle.std.specs.Arc.{arc_value};

    ghost Value = { Seen };

    ghost view = { λ t. seen_parts (arc_value t.parts) };

    ghost invariant = { λ t. IsTables (seen_parts (arc_value t.parts)) };
}

impl Tables {
    /// Returns the first tables: round 1 is open, and there is nothing else.
    pub fn first(alloc: Global) -> Result<Tables, AllocError>
        ensures { IfOk result (λ tables. tables ≡ first_tables) }
    {
        let mut rounds = Vec::new(alloc);
        rounds.push(Round::open(alloc))?;
        let parts = Parts {
            charter: None,
            rules: None,
            register: Vec::new(alloc),
            rounds,
            bounds: None,
        };
        Tables::from_parts(alloc, parts)
    }

    /// Returns the tables of these parts, of which `IsTables` must hold.
    pub(crate) fn from_parts(alloc: Global, parts: Parts) -> Result<Tables, AllocError>
        requires { IsTables (seen_parts parts) }
        ensures { IfOk result (λ tables. tables ≡ seen_parts parts) }
    {
        Ok(Tables {
            parts: Arc::new(alloc, parts)?,
        })
    }

    /// Does nothing; its contract says what holds of all tables.
    pub fn facts(&self)
        ensures { IsTables self.now }
    {
        let _parts = &self.parts;
    }

    /// Returns the charter, which has the assembly's title and the size of its panels, if one was set.
    pub fn charter(&self) -> &Option<Charter>
        ensures { result.now ≡ self.now.charter }
    {
        &self.parts.charter
    }

    /// Returns the rules, which are the categories with their bounds, if rules were set.
    pub fn rules(&self) -> &Option<Rules>
        ensures { result.now ≡ self.now.rules }
    {
        &self.parts.rules
    }

    /// Returns the rows of the register, in order.
    pub fn register(&self) -> &[Entry]
        ensures { result.now ≡ self.now.register }
    {
        &self.parts.register
    }

    /// Returns the rounds, in order. The first has the number 1.
    pub fn rounds(&self) -> &[Round]
        ensures { result.now ≡ self.now.rounds }
    {
        &self.parts.rounds
    }

    /// Returns the categories with the bounds that were set for the last round, if some were.
    pub fn bounds(&self) -> &Option<Rules>
        ensures { result.now ≡ self.now.bounds }
    {
        &self.parts.bounds
    }

    /// Returns equal tables, which share the parts.
    pub fn copy(&self) -> Result<Tables, AllocError>
        ensures { IfOk result (λ copied. copied ≡ self.now) }
    {
        Ok(Tables {
            parts: self.parts.clone()?,
        })
    }
}

/// Returns an equal charter, or None if there is none.
pub(crate) fn copied_charter(charter: &Option<Charter>) -> Result<Option<Charter>, AllocError>
    ensures { IfOk result (λ copied. copied ≡ charter.now) }
{
    match charter {
        Some(charter) => Ok(Some(charter.copy()?)),
        None => Ok(None),
    }
}

/// Returns equal rules, or None if there are none.
pub(crate) fn copied_rules(rules: &Option<Rules>) -> Result<Option<Rules>, AllocError>
    ensures { IfOk result (λ copied. copied ≡ rules.now) }
{
    match rules {
        Some(rules) => Ok(Some(rules.copy()?)),
        None => Ok(None),
    }
}

/// Returns the tables of these parts, or None exactly if one of these facts doesn't hold of them:
///
/// - At most as many rows as the charter says, or 400 without a charter, whose ids and households are names. Ids are different, and so are
///   the digests of keys. If there are rows, there are rules, and each row has the name of one value of each category.
/// - At least one round; each but the last is drawn and has a dropout.
/// - If a round is past `Open`, there are charter and rules; the weights of its bundle sum to the total, and the ids of the bundle's pool
///   are those of the register, in order.
/// - The digits of a round that was drawn name a ticket, and its dropouts are from the panel of that ticket.
pub fn tables_of(alloc: Global, parts: Parts) -> Result<Option<Tables>, AllocError>
    ensures { TellsTables (seen_parts parts) result }
{
    if are_tables(alloc, &parts)? {
        Ok(Some(Tables::from_parts(alloc, parts)?))
    } else {
        Ok(None)
    }
}
