//! The parts of a pool: names, categories with bounded values, volunteers.

ghost use Rattle.std.specs.Prelude.{◌≡◌, [], ◌∷◌, ◌++◌, IfOk, OnOk, OnErr, Some, None, option_map};
ghost use Rattle.define_pools.specs.declared.Standing.TheVariants.{Open};

use define_pools::Standing;
use std::alloc::{AllocError, Global};
use std::marker::Model;

/// How many members of a panel may have a value: from `lower` to `upper`, both included. In a pool both are at most 999.
#[derive(Clone, Copy, Debug, PartialEq, Eq)]
pub struct Bound {
    pub lower: usize,
    pub upper: usize,
}

/// A text in UTF-8, which contracts see as its bytes.
#[derive(Debug, Drop)]
pub struct Name {
    text: String,
}

impl Model for Name {
    ghost use Rattle.std.specs.Prelude.{List, ℕ, string_bytes};

    ghost Value = { List ℕ };

    ghost view = { λ n. string_bytes n.text };
}

impl Name {
    /// Returns a copy of the text.
    pub fn new(alloc: Global, text: &str) -> Result<Name, AllocError>
        ensures { IfOk result (λ name. name ≡ text.now) }
    {
        let text = String::from_str(alloc, text)?;
        Ok(Name { text })
    }

    /// Returns the text.
    pub fn as_str(&self) -> &str
        ensures { result.now ≡ self.now }
    {
        self.text.as_str()
    }

    /// Returns the bytes of the text.
    pub fn as_bytes(&self) -> &[u8]
        ensures { result.now ≡ self.now }
    {
        self.text.as_bytes()
    }

    /// Returns an equal name.
    pub fn copy(&self) -> Result<Name, AllocError>
        ensures { IfOk result (λ copied. copied ≡ self.now) }
    {
        Ok(Name {
            text: self.text.clone()?,
        })
    }
}

/// A value of a category, with its bounds.
#[derive(Debug, Drop)]
pub struct BoundedValue {
    name: Name,
    bound: Bound,
}

impl Model for BoundedValue {
    ghost use Rattle.define_pools.specs.Pool.{BoundedValue as Seen};

    ghost Value = { Seen };

    ghost view = { λ v. record { name = v.name; lower = v.bound.lower; upper = v.bound.upper } };
}

impl BoundedValue {
    pub(crate) fn new(name: Name, bound: Bound) -> BoundedValue
        ensures { result ≡ record { name = name; lower = bound.lower; upper = bound.upper } }
    {
        BoundedValue { name, bound }
    }

    /// Returns the value's name.
    pub fn name(&self) -> &Name
        ensures { result.now ≡ self.now.name }
    {
        &self.name
    }

    /// Returns the value's bounds.
    pub fn bound(&self) -> Bound
        ensures lower { result.lower ≡ self.now.lower }
        ensures upper { result.upper ≡ self.now.upper }
    {
        self.bound
    }

    /// Returns the least number of a panel's members who may have the value.
    pub fn lower(&self) -> usize
        ensures { result ≡ self.now.lower }
    {
        self.bound.lower
    }

    /// Returns the greatest number of a panel's members who may have the value.
    pub fn upper(&self) -> usize
        ensures { result ≡ self.now.upper }
    {
        self.bound.upper
    }

    /// Returns an equal value.
    pub fn copy(&self) -> Result<BoundedValue, AllocError>
        ensures { IfOk result (λ copied. copied ≡ self.now) }
    {
        Ok(BoundedValue {
            name: self.name.copy()?,
            bound: self.bound,
        })
    }
}

/// A category and its values, in the order in which they were added.
#[derive(Debug, Drop)]
pub struct Category {
    name: Name,
    values: Vec<BoundedValue>,
}

impl Model for Category {
    ghost use Rattle.define_pools.specs.Pool.{Category as Seen};

    ghost Value = { Seen };

    ghost view = { λ c. record { name = c.name; values = c.values.items } };
}

impl Category {
    // Returns a category without values.
    pub(crate) fn new(alloc: Global, name: &str) -> Result<Category, AllocError>
        ensures { IfOk result (λ category. category ≡ record { name = name.now; values = [] }) }
    {
        Ok(Category {
            name: Name::new(alloc, name)?,
            values: Vec::new(alloc),
        })
    }

    pub(crate) fn add(&mut self, value: BoundedValue) -> Result<(), AllocError>
        ensures ok { OnOk result (self.new ≡ record self.old { values = self.old.values ++ value ∷ [] }) }
        ensures err { OnErr result (self.new ≡ self.old) }
    {
        self.values.push(value)?;
        Ok(())
    }

    /// Returns the category's name.
    pub fn name(&self) -> &Name
        ensures { result.now ≡ self.now.name }
    {
        &self.name
    }

    /// Returns the values with their bounds, in the order in which they were added.
    pub fn values(&self) -> &[BoundedValue]
        ensures { result.now ≡ self.now.values }
    {
        &self.values
    }

    /// Returns an equal category.
    pub fn copy(&self) -> Result<Category, AllocError>
        ensures { IfOk result (λ copied. copied ≡ self.now) }
    {
        Ok(Category {
            name: self.name.copy()?,
            values: copied_values(*self.values.allocator(), &self.values)?,
        })
    }
}

fn copied_values(alloc: Global, values: &[BoundedValue]) -> Result<Vec<BoundedValue>, AllocError>
    ensures { IfOk result (λ copies. copies.items ≡ values.now) }
{
    let mut copies = Vec::new(alloc);
    for value in values {
        copies.push(value.copy()?)?;
    }
    Ok(copies)
}

/// A volunteer: an id, the place of a value for each category, counted from 0, a standing, and the name of a household if one is known.
#[derive(Debug, Drop)]
pub struct Volunteer {
    id: Name,
    values: Vec<usize>,
    standing: Standing,
    household: Option<Name>,
}

impl Model for Volunteer {
    ghost use Rattle.define_pools.specs.Pool.{Volunteer as Seen};

    ghost Value = { Seen };

    ghost view = { λ v. record { id = v.id; values = v.values.items; standing = v.standing; household = v.household } };
}

impl Volunteer {
    // Returns an open volunteer without a household.
    pub(crate) fn new(id: Name, values: Vec<usize>) -> Volunteer
        ensures { result ≡ record { id = id; values = values.items; standing = Open; household = None } }
    {
        Volunteer {
            id,
            values,
            standing: Standing::Open,
            household: None,
        }
    }

    /// Returns the volunteer of these parts: an id, the place of a value for each category, counted from 0, a standing, and the name of a
    /// household if one is known.
    pub fn from_parts(
        id: Name,
        values: Vec<usize>,
        standing: Standing,
        household: Option<Name>,
    ) -> Volunteer
        ensures { result ≡ record { id = id; values = values.items; standing = standing; household = household } }
    {
        Volunteer {
            id,
            values,
            standing,
            household,
        }
    }

    /// Returns the volunteer's id.
    pub fn id(&self) -> &Name
        ensures { result.now ≡ self.now.id }
    {
        &self.id
    }

    /// Returns for each category the place of the volunteer's value among its values, counted from 0.
    pub fn values(&self) -> &[usize]
        ensures { result.now ≡ self.now.values }
    {
        &self.values
    }

    /// Returns the volunteer's standing: whether they may, must or can't be chosen.
    pub fn standing(&self) -> Standing
        ensures { result ≡ self.now.standing }
    {
        self.standing
    }

    pub(crate) fn set_standing(&mut self, standing: Standing)
        ensures { self.new ≡ record self.old { standing = standing } }
    {
        self.standing = standing;
    }

    /// Returns the name of the volunteer's household, if the volunteer has one.
    pub fn household(&self) -> Option<&Name>
        ensures { option_map (λ name. name.now) result ≡ self.now.household }
    {
        self.household.as_ref()
    }

    pub(crate) fn set_household(&mut self, name: Name)
        ensures { self.new ≡ record self.old { household = Some name } }
    {
        self.household = Some(name);
    }

    /// Returns an equal volunteer.
    pub fn copy(&self) -> Result<Volunteer, AllocError>
        ensures { IfOk result (λ copied. copied ≡ self.now) }
    {
        Ok(Volunteer {
            id: self.id.copy()?,
            values: self.values.clone()?,
            standing: self.standing,
            household: copied_name(&self.household)?,
        })
    }
}

/// Returns an equal name, or None if there is none.
pub fn copied_name(name: &Option<Name>) -> Result<Option<Name>, AllocError>
    ensures { IfOk result (λ copied. copied ≡ name.now) }
{
    match name {
        Some(name) => Ok(Some(name.copy()?)),
        None => Ok(None),
    }
}
