//! Rows of the register: as they are kept, and as an import gives them.

ghost use Rattle.std.specs.Prelude.{◌≡◌, [], ◌∷◌, ◌++◌, true, if◌then◌else◌, IsTrue, Some, None, IfOk, OnOk, OnErr, option_map};
ghost use Rattle.std.specs.List.{list_all};
ghost use Rattle.define_offices.specs.Deciding.{entry_of};
ghost use Rattle.define_offices.specs.Facts.{is_given};

use crate::names::{copied_names, is_household, is_key, is_name};
use pool_model::{Name, copied_name};
use sealed_draw::seal;
use std::alloc::{AllocError, Global};
use std::marker::Model;

/// A row of the register: an id, the digest of the volunteer's key, for each category the name of a value, a household if one is known, and
/// whether the volunteer withdrew. `tables_of` says which rows tables may have.
#[derive(Debug, Drop)]
pub struct Entry {
    id: Name,
    hash: Name,
    values: Vec<Name>,
    household: Option<Name>,
    withdrawn: bool,
}

impl Model for Entry {
    ghost use Rattle.define_offices.specs.Tables.{Entry as Seen};

    ghost Value = { Seen };

    ghost view = { λ e. record { id = e.id; hash = e.hash; values = e.values.items; household = e.household; withdrawn = e.withdrawn } };
}

impl Entry {
    /// Returns the row of these parts. The hash is the SHA-256 digest of the key in 64 lower case hexadecimal digits.
    pub fn from_parts(
        id: Name,
        hash: Name,
        values: Vec<Name>,
        household: Option<Name>,
        withdrawn: bool,
    ) -> Entry
        ensures { result ≡ record { id = id; hash = hash; values = values.items; household = household; withdrawn = withdrawn } }
    {
        Entry {
            id,
            hash,
            values,
            household,
            withdrawn,
        }
    }

    /// Returns the volunteer's id.
    pub fn id(&self) -> &Name
        ensures { result.now ≡ self.now.id }
    {
        &self.id
    }

    /// Returns the digest of the volunteer's key, in 64 lower case hexadecimal digits.
    pub fn hash(&self) -> &Name
        ensures { result.now ≡ self.now.hash }
    {
        &self.hash
    }

    /// Returns the names of values, one for each category.
    pub fn values(&self) -> &[Name]
        ensures { result.now ≡ self.now.values }
    {
        &self.values
    }

    /// Returns the name of the volunteer's household, if one is known.
    pub fn household(&self) -> &Option<Name>
        ensures { result.now ≡ self.now.household }
    {
        &self.household
    }

    /// True if the volunteer withdrew.
    pub fn withdrawn(&self) -> bool
        ensures { result ≡ self.now.withdrawn }
    {
        self.withdrawn
    }

    /// Returns an equal row.
    pub fn copy(&self) -> Result<Entry, AllocError>
        ensures { IfOk result (λ copied. copied ≡ self.now) }
    {
        Ok(Entry {
            id: self.id.copy()?,
            hash: self.hash.copy()?,
            values: copied_names(*self.values.allocator(), &self.values)?,
            household: copied_name(&self.household)?,
            withdrawn: self.withdrawn,
        })
    }

    /// Returns an equal row, marked as withdrawn.
    pub(crate) fn copy_withdrawn(&self) -> Result<Entry, AllocError>
        ensures { IfOk result (λ copied. copied ≡ record self.now { withdrawn = true }) }
    {
        let copied = self.copy()?;
        Ok(Entry {
            id: copied.id,
            hash: copied.hash,
            values: copied.values,
            household: copied.household,
            withdrawn: true,
        })
    }
}

/// Returns equal rows.
pub(crate) fn copied_entries(alloc: Global, entries: &[Entry]) -> Result<Vec<Entry>, AllocError>
    ensures { IfOk result (λ copies. copies.items ≡ entries.now) }
{
    let mut copies = Vec::new(alloc);
    for entry in entries {
        copies.push(entry.copy()?)?;
    }
    Ok(copies)
}

/// A row that is to be registered, with the volunteer's key as it was given. Id, key and household are within their limits.
#[derive(Debug, Drop)]
pub struct Given {
    id: Name,
    key: Name,
    values: Vec<Name>,
    household: Option<Name>,
}

impl Model for Given {
    ghost use Rattle.std.specs.Prelude.{IsTrue};
    ghost use Rattle.define_offices.specs.Commands.{Given as Seen};
    ghost use Rattle.define_offices.specs.Facts.{is_given};

    ghost Value = { Seen };

    ghost view = { λ g. record { id = g.id; key = g.key; values = g.values.items; household = g.household } };

    ghost invariant = { λ g. IsTrue (is_given (record { id = g.id; key = g.key; values = g.values.items; household = g.household })) };
}

impl Given {
    /// Returns the row of these parts, or None exactly if the id, the key or the household is out of its limits: an id and a household are
    /// names, and a key has 1 to 200 bytes from 33 to 126.
    pub fn new(id: Name, key: Name, values: Vec<Name>, household: Option<Name>) -> Option<Given>
        ensures { result ≡ (if is_given (record { id = id; key = key; values = values.items; household = household })
            then Some (record { id = id; key = key; values = values.items; household = household }) else None) }
    {
        if is_name(id.as_str()) && is_key(key.as_bytes()) && is_household(&household) {
            Some(Given {
                id,
                key,
                values,
                household,
            })
        } else {
            None
        }
    }

    /// Returns the volunteer's id.
    pub fn id(&self) -> &Name
        ensures { result.now ≡ self.now.id }
    {
        &self.id
    }

    /// Returns the volunteer's key as it was given.
    pub fn key(&self) -> &Name
        ensures { result.now ≡ self.now.key }
    {
        &self.key
    }

    /// Returns the names of values, one for each category.
    pub fn values(&self) -> &[Name]
        ensures { result.now ≡ self.now.values }
    {
        &self.values
    }

    /// Returns the name of the volunteer's household, if one is known.
    pub fn household(&self) -> &Option<Name>
        ensures { result.now ≡ self.now.household }
    {
        &self.household
    }

    /// Does nothing; its contract says what holds of each row.
    pub fn facts(&self)
        ensures { IsTrue (is_given self.now) }
    {
        let _ = &self.id;
    }

    /// Returns the row as the register keeps it: with the digest of the key instead of the key, and not withdrawn.
    pub fn entry(&self, alloc: Global) -> Result<Entry, AllocError>
        ensures { IfOk result (λ entry. entry ≡ entry_of self.now) }
    {
        let hash = seal(alloc, self.key.as_bytes())?;
        Ok(Entry {
            id: self.id.copy()?,
            hash: Name::new(alloc, hash.as_str())?,
            values: copied_names(alloc, &self.values)?,
            household: copied_name(&self.household)?,
            withdrawn: false,
        })
    }
}

/// The rows of an import, in their order.
#[derive(Debug, Drop)]
pub struct Rows {
    rows: Vec<Given>,
}

impl Model for Rows {
    ghost use Rattle.std.specs.Prelude.{IsTrue, List};
    ghost use Rattle.std.specs.List.{list_all};
    ghost use Rattle.define_offices.specs.Commands.{Given as SeenGiven};
    ghost use Rattle.define_offices.specs.Facts.{is_given};

    ghost Value = { List SeenGiven };

    ghost view = { λ r. r.rows.items };

    ghost invariant = { λ r. IsTrue (list_all is_given r.rows.items) };
}

impl Rows {
    /// Returns an empty list of rows.
    pub fn new(alloc: Global) -> Rows
        ensures { result ≡ [] }
    {
        Rows {
            rows: Vec::new(alloc),
        }
    }

    /// Appends a row.
    pub fn push(&mut self, row: Given) -> Result<(), AllocError>
        ensures ok { OnOk result (self.new ≡ self.old ++ row ∷ []) }
        ensures err { OnErr result (self.new ≡ self.old) }
    {
        row.facts();
        self.rows.push(row)?;
        Ok(())
    }

    /// Returns the rows, in order.
    pub fn rows(&self) -> &[Given]
        ensures value { result.now ≡ self.now }
        ensures given { IsTrue (list_all is_given self.now) }
    {
        &self.rows
    }
}
