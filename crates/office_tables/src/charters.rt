//! The charter and the rules of an assembly.

ghost use Rattle.std.specs.Prelude.{◌≡◌, nat_le, not, ◌&&◌, length, if◌then◌else◌, Some, None, IfOk, IsTrue};
ghost use Rattle.std.specs.List.{list_all};
ghost use Rattle.define_pools.specs.Pool.{is_size as is_panel_size, limits_for};
ghost use Rattle.define_offices.specs.Facts.{AreRules, are_rules as make_rules, is_charter, is_most as is_number_of_rows, is_reserved as is_taken};

use crate::names::is_name;
use define_pools::Limits;
use pool_model::{Category, Name, Pool, copied_categories};
use std::alloc::{AllocError, Global};
use std::marker::Model;

/// The most rows that a register may take.
const MAX_ROWS: usize = 4000;

/// The title of an assembly, the number of members of its panel, from 1 to 200, and how many rows its register takes, from 1 to 4000. If
/// these are more than 400, a panel may have up to 1000 members. The title has the limits of a name.
#[derive(Debug, Drop)]
pub struct Charter {
    title: Name,
    size: usize,
    volunteers: usize,
}

impl Model for Charter {
    ghost use Rattle.std.specs.Prelude.{IsTrue};
    ghost use Rattle.define_offices.specs.Tables.{Charter as Seen};
    ghost use Rattle.define_offices.specs.Facts.{is_charter};

    ghost Value = { Seen };

    ghost view = { λ c. record { title = c.title; size = c.size; volunteers = c.volunteers } };

    ghost invariant = { λ c. IsTrue (is_charter (record { title = c.title; size = c.size; volunteers = c.volunteers })) };
}

impl Charter {
    /// Returns the charter of this title, size and number of rows, or None exactly if one of them is out of its limits.
    pub fn new(title: Name, size: usize, volunteers: usize) -> Option<Charter>
        ensures { result ≡ (if is_charter (record { title = title; size = size; volunteers = volunteers }) then Some (record { title = title; size = size; volunteers = volunteers }) else None) }
    {
        if is_name(title.as_str()) && is_most(volunteers) && is_size(volunteers, size) {
            Some(Charter {
                title,
                size,
                volunteers,
            })
        } else {
            None
        }
    }

    /// Returns the assembly's title.
    pub fn title(&self) -> &Name
        ensures { result.now ≡ self.now.title }
    {
        &self.title
    }

    /// Returns the number of members of a panel.
    pub fn size(&self) -> usize
        ensures { result ≡ self.now.size }
    {
        self.size
    }

    /// Returns how many rows the register takes, from 1 to 4000.
    pub fn volunteers(&self) -> usize
        ensures { result ≡ self.now.volunteers }
    {
        self.volunteers
    }

    /// Does nothing; its contract says what holds of each charter.
    pub fn facts(&self)
        ensures { IsTrue (is_charter self.now) }
    {
        let _title = &self.title;
    }

    /// Returns an equal charter.
    pub fn copy(&self) -> Result<Charter, AllocError>
        ensures { IfOk result (λ copied. copied ≡ self.now) }
    {
        Ok(Charter {
            title: self.title.copy()?,
            size: self.size,
            volunteers: self.volunteers,
        })
    }
}

/// True if a panel may have `size` members, if the register takes this many rows.
fn is_size(volunteers: usize, size: usize) -> bool
    ensures { result ≡ is_panel_size (limits_for volunteers) size }
{
    is_within(Limits::of(volunteers), size)
}

/// True if a panel within these limits may have `size` members.
fn is_within(limits: Limits, size: usize) -> bool
    ensures { result ≡ is_panel_size limits size }
{
    1 <= size && size <= limits.members()
}

/// True if a register may take this many rows: from 1 to 4000.
fn is_most(volunteers: usize) -> bool
    ensures { result ≡ is_number_of_rows volunteers }
{
    1 <= volunteers && volunteers <= MAX_ROWS
}

/// The categories of an assembly with the bounds of their values. They have the limits of a pool's categories. There is at least one, each
/// has a value, and none is named `id` or `key`, which are columns of a register.
#[derive(Debug, Drop)]
pub struct Rules {
    categories: Vec<Category>,
}

impl Model for Rules {
    ghost use Rattle.std.specs.Prelude.{List};
    ghost use Rattle.define_pools.specs.Pool.{Category as SeenCategory};
    ghost use Rattle.define_offices.specs.Facts.{AreRules};

    ghost Value = { List SeenCategory };

    ghost view = { λ r. r.categories.items };

    ghost invariant = { λ r. AreRules r.categories.items };
}

impl Rules {
    /// Returns the categories of a pool as rules, or None exactly if there is no category, or one has no value or is named `id` or `key`.
    pub fn of_pool(alloc: Global, pool: &Pool) -> Result<Option<Rules>, AllocError>
        ensures { IfOk result (λ rules. rules ≡ (if make_rules pool.now.categories then Some pool.now.categories else None)) }
    {
        pool.facts();
        if !are_rules(pool.categories()) {
            return Ok(None);
        }
        let categories = copied_categories(alloc, pool.categories())?;
        Ok(Some(Rules { categories }))
    }

    /// Returns the categories, in order.
    pub fn categories(&self) -> &[Category]
        ensures value { result.now ≡ self.now }
        ensures rules { AreRules self.now }
    {
        &self.categories
    }

    /// Returns equal rules.
    pub fn copy(&self) -> Result<Rules, AllocError>
        ensures { IfOk result (λ copied. copied ≡ self.now) }
    {
        let categories = copied_categories(*self.categories.allocator(), &self.categories)?;
        Ok(Rules { categories })
    }
}

/// True if the categories of a pool may be rules: there is at least one, each has a value, and none is named `id` or `key`.
fn are_rules(categories: &[Category]) -> bool
    ensures { result ≡ make_rules categories.now }
{
    1 <= categories.len() && have_values(categories) && have_free_names(categories)
}

/// True if each category has a value.
fn have_values(categories: &[Category]) -> bool
    ensures { result ≡ list_all (λ category. nat_le 1 (length category.values)) categories.now }
{
    categories
        .iter()
        .all(|category| 1 <= category.values().len())
}

/// True if no category is named `id` or `key`.
fn have_free_names(categories: &[Category]) -> bool
    ensures { result ≡ list_all (λ category. not (is_taken category.name)) categories.now }
{
    categories
        .iter()
        .all(|category| !is_reserved(category.name().as_bytes()))
}

/// True for `id` and `key`, the names of the two columns that a register has apart from its categories.
fn is_reserved(name: &[u8]) -> bool
    ensures { result ≡ is_taken name.now }
{
    name == b"id".as_slice() || name == b"key".as_slice()
}
