//! Pools, and the calls that build one. `pool_text`, `office_import`, `office_keeper`, `office_steps`, `office_reports` and `quota_loosen`
//! use them.

ghost use Rattle.std.specs.Prelude.{◌≡◌, ◌≢◌, ◌<◌, ◌==◌, ◌||◌, nat_le, not, [], ◌∷◌, length, map, None, Err, OnOk, OnErr, IfOk, vec_len};
ghost use Rattle.define_pools.specs.Lists.{includes_list};
ghost use Rattle.define_pools.specs.Pool.{IsPool, is_usual, most_volunteers, keeps_name_limits as keeps_limits};
ghost use Rattle.define_pools.specs.declared.Limits.TheVariants.{Usual, Large};
ghost use Rattle.define_pools.specs.Building.{lowest_kind, ids, size_kind, category_kind, value_kind, volunteer_kind, empty_pool, category_added, value_added, volunteer_added, with_value, last_values as values_of_last, with_standing, standing_set, with_household, household_set, household_kind};
ghost use Rattle.pool_model.specs.Answers.{Answers};
ghost use Rattle.pool_model.specs.declared.building.BuildStop.TheVariants.{OutOfMemory};

use crate::building::BuildStop;
use crate::id_order::follows_last;
use crate::names::{
    are_known, are_named, bytes_of, is_category, is_value, is_volunteer, keeps_name_limits, places,
};
use crate::parts::{Bound, BoundedValue, Category, Name, Volunteer};
use define_pools::{Limits, Standing};
use std::alloc::{AllocError, Global};
use std::fmt;
use std::marker::Model;

const MAX_CATEGORIES: usize = 20;

const MAX_VALUES: usize = 50;

/// The greatest bound.
pub const MAX_BOUND: usize = 999;

/// A pool: the size of its panels, its categories and its volunteers, who are numbered from 0. It is always within these limits. The size
/// is from 1 to 1,000. There are at most 20 categories, 50 values a category and 4,000 volunteers. A lower bound is at most its upper bound,
/// which is at most 999. Each id and each name, also of a household, has 1 to 200 bytes of UTF-8, none of which is below 32 or is 127. No
/// two categories have the same name, no two values of a category, and no two volunteers the same id. Each volunteer has one value of each
/// category.
#[derive(Drop)]
pub struct Pool {
    size: usize,
    categories: Vec<Category>,
    volunteers: Vec<Volunteer>,
    // True only if each id precedes the next one. An id that follows the last one is then new.
    ids_in_order: bool,
}

impl Model for Pool {
    ghost use Rattle.std.specs.Prelude.{IsTrue};
    ghost use Rattle.define_pools.specs.Building.{ids};
    ghost use Rattle.define_pools.specs.Pool.{Pool as Seen, IsPool};
    ghost use Rattle.pool_model.specs.IdOrder.{are_in_order};

    ghost Value = { Seen };

    ghost view = { λ p. record { size = p.size; categories = p.categories.items; volunteers = p.volunteers.items } };

    ghost invariant = { λ p. IsPool (record { size = p.size; categories = p.categories.items; volunteers = p.volunteers.items })
        × (IsTrue p.ids_in_order → IsTrue (are_in_order (ids p.volunteers.items))) };
}

// As derived, but for `ids_in_order`, which is no part of a pool's value.
impl fmt::Debug for Pool {
    fn fmt<W: fmt::Write>(&self, f: &mut fmt::Formatter<W>) -> fmt::Result {
        f.debug_struct("Pool")
            .field("size", &self.size)
            .field("categories", &self.categories)
            .field("volunteers", &self.volunteers)
            .finish()
    }
}

impl Pool {
    /// Returns how many members a panel has.
    pub fn size(&self) -> usize
        ensures { result ≡ self.now.size }
    {
        self.size
    }

    /// Returns the categories, in the order in which they were added.
    pub fn categories(&self) -> &[Category]
        ensures { result.now ≡ self.now.categories }
    {
        &self.categories
    }

    /// Returns the volunteers, by number.
    pub fn volunteers(&self) -> &[Volunteer]
        ensures { result.now ≡ self.now.volunteers }
    {
        &self.volunteers
    }

    /// True if the pool is within the usual limits: its panels have at most 200 members, and it has at most 400 volunteers.
    pub fn is_usual(&self) -> bool
        ensures { result ≡ is_usual self.now }
    {
        self.size <= Limits::Usual.members() && self.volunteers.len() <= Limits::Usual.volunteers()
    }

    /// Does nothing. Its contract says that the pool is within its limits.
    pub fn facts(&self)
        ensures { IsPool self.now }
    {
        let _ = &self.size;
    }

    /// Returns an equal pool.
    pub fn copy(&self) -> Result<Pool, AllocError>
        ensures { IfOk result (λ copied. copied ≡ self.now) }
    {
        let categories = copied_categories(*self.categories.allocator(), &self.categories)?;
        let volunteers = copied_volunteers(*self.volunteers.allocator(), &self.volunteers)?;
        Ok(Pool {
            size: self.size,
            categories,
            volunteers,
            ids_in_order: self.ids_in_order,
        })
    }
}

impl Pool {
    /// Returns the pool of these parts, which must be within the limits of a pool.
    pub fn from_parts(size: usize, categories: Vec<Category>, volunteers: Vec<Volunteer>) -> Pool
        requires { IsPool (record { size = size; categories = categories.items; volunteers = volunteers.items }) }
        ensures { result ≡ record { size = size; categories = categories.items; volunteers = volunteers.items } }
    {
        Pool {
            size,
            categories,
            volunteers,
            ids_in_order: false,
        }
    }

    /// Returns a pool with no category and no volunteer, whose panels have `size` members.
    ///
    /// Stops with kind 2 exactly if the size is not from 1 to 200, and never for want of memory.
    pub fn new(alloc: Global, size: usize) -> Result<Pool, BuildStop>
        ensures kind { Answers (size_kind Usual size) result }
        ensures memory { result ≢ Err OutOfMemory }
        ensures ok { IfOk result (λ pool. pool ≡ empty_pool size) }
    {
        Pool::new_within(alloc, Limits::Usual, size)
    }

    /// Returns a pool with no category and no volunteer, whose panels have `size` members, as `new` does for a pool of usual size.
    ///
    /// Stops with kind 2 exactly if the size is not from 1 to the greatest one that `limits` allow, and never for want of memory.
    pub fn new_within(alloc: Global, limits: Limits, size: usize) -> Result<Pool, BuildStop>
        ensures kind { Answers (size_kind limits size) result }
        ensures memory { result ≢ Err OutOfMemory }
        ensures ok { IfOk result (λ pool. pool ≡ empty_pool size) }
    {
        if let Some(kind) = size_kind(limits, size) {
            return Err(BuildStop::Kind(kind));
        }
        Ok(Pool {
            size,
            categories: Vec::new(alloc),
            volunteers: Vec::new(alloc),
            ids_in_order: true,
        })
    }

    /// Returns the lowest kind of fault that a new category of this name has, or None: 1 if the pool has volunteers already, 3 if an
    /// earlier category has this name, 10 if the name isn't allowed or the pool has 20 categories already.
    pub fn category_kind(&self, name: &[u8]) -> Option<u8>
        ensures { result ≡ category_kind self.now name.now }
    {
        if !self.volunteers.is_empty() {
            Some(1)
        } else if is_category(&self.categories, name) {
            Some(3)
        } else if !keeps_name_limits(name) || MAX_CATEGORIES <= self.categories.len() {
            Some(10)
        } else {
            None
        }
    }

    /// Appends a category with no value. Stops with the kind that `category_kind` returns; the pool is then unchanged.
    pub fn add_category(&mut self, name: &str) -> Result<(), BuildStop>
        ensures kind { Answers (category_kind self.old name.now) result }
        ensures ok { OnOk result (self.new ≡ category_added self.old name.now) }
        ensures err { OnErr result (self.new ≡ self.old) }
    {
        if let Some(kind) = self.category_kind(name.as_bytes()) {
            return Err(BuildStop::Kind(kind));
        }
        self.add_right_category(name)?;
        Ok(())
    }

    /// Appends a category for which `category_kind` returns None, without testing it again.
    pub fn add_right_category(&mut self, name: &str) -> Result<(), AllocError>
        requires { category_kind self.old name.now ≡ None }
        ensures ok { OnOk result (self.new ≡ category_added self.old name.now) }
        ensures err { OnErr result (self.new ≡ self.old) }
    {
        let category = Category::new(*self.categories.allocator(), name)?;
        self.categories.push(category)?;
        Ok(())
    }

    /// Returns the lowest kind of fault that a new value of the last category with this name and these bounds has, or None: 1 if the pool
    /// has no category, or has volunteers already; 4 if an earlier value of the category has this name; 5 if the lower bound is above the
    /// upper one, or the upper one above 999; 10 if the name isn't allowed or the category has 50 values already.
    pub fn value_kind(&self, name: &[u8], lower: usize, upper: usize) -> Option<u8>
        ensures { result ≡ value_kind self.now (record { name = name.now; lower = lower; upper = upper }) }
    {
        let values = last_values(&self.categories);
        if self.categories.is_empty() || !self.volunteers.is_empty() {
            Some(1)
        } else if is_value(values, name) {
            Some(4)
        } else if upper < lower || MAX_BOUND < upper {
            Some(5)
        } else if !keeps_name_limits(name) || MAX_VALUES <= values.len() {
            Some(10)
        } else {
            None
        }
    }

    /// Appends a value to the last category: a panel has from `lower` to `upper` members with it. Stops with the kind that
    /// `value_kind` returns; the pool is then unchanged.
    pub fn add_value(&mut self, name: &str, lower: usize, upper: usize) -> Result<(), BuildStop>
        ensures kind { Answers (value_kind self.old (record { name = name.now; lower = lower; upper = upper })) result }
        ensures ok { OnOk result (self.new ≡ value_added self.old (record { name = name.now; lower = lower; upper = upper })) }
        ensures err { OnErr result (self.new ≡ self.old) }
    {
        if let Some(kind) = self.value_kind(name.as_bytes(), lower, upper) {
            return Err(BuildStop::Kind(kind));
        }
        self.add_right_value(name, lower, upper)?;
        Ok(())
    }

    /// Appends a value for which `value_kind` returns None, without testing it again.
    pub fn add_right_value(
        &mut self,
        name: &str,
        lower: usize,
        upper: usize,
    ) -> Result<(), AllocError>
        requires { value_kind self.old (record { name = name.now; lower = lower; upper = upper }) ≡ None }
        ensures ok { OnOk result (self.new ≡ value_added self.old (record { name = name.now; lower = lower; upper = upper })) }
        ensures err { OnErr result (self.new ≡ self.old) }
    {
        let name = Name::new(*self.categories.allocator(), name)?;
        let value = BoundedValue::new(name, Bound { lower, upper });
        add_to_last(&mut self.categories, value)?;
        Ok(())
    }

    /// Returns the lowest kind of fault that a volunteer with this id and these names of values has, or None: 6 if a name isn't that of a
    /// value of its category, 7 if there aren't as many names as categories, 8 if an earlier volunteer has this id, 10 if the id isn't
    /// allowed or the pool has as many volunteers already as `limits` allow.
    pub fn volunteer_kind(&self, limits: Limits, id: &[u8], values: &[&[u8]]) -> Option<u8>
        ensures { result ≡ volunteer_kind limits self.now id.now (map (λ name. name.now) values.now) }
    {
        let known = are_known(&self.categories, values);
        self.volunteer_fault(limits, id, known, values.len())
    }

    // Returns the kind that `volunteer_kind` returns. `known` says whether each name is that of a value of its category, and `count` is the
    // number of names.
    fn volunteer_fault(&self, limits: Limits, id: &[u8], known: bool, count: usize) -> Option<u8>
        ensures { result ≡ lowest_kind (
            (6, not known) ∷
            (7, not (count == length self.now.categories)) ∷
            (8, includes_list (ids self.now.volunteers) id.now) ∷
            (10, not (keeps_limits id.now) || nat_le (most_volunteers limits) (length self.now.volunteers)) ∷ []) }
    {
        if !known {
            Some(6)
        } else if count != self.categories.len() {
            Some(7)
        } else if self.has_volunteer(id) {
            Some(8)
        } else if !keeps_name_limits(id) || limits.volunteers() <= self.volunteers.len() {
            Some(10)
        } else {
            None
        }
    }

    // True if a volunteer has this id. Compares it only with the last one's where that shows that it is new.
    fn has_volunteer(&self, id: &[u8]) -> bool
        ensures { result ≡ includes_list (ids self.now.volunteers) id.now }
    {
        let is_past_all = self.ids_in_order && follows_last(&self.volunteers, id);
        !is_past_all && is_volunteer(&self.volunteers, id)
    }

    /// Appends an open volunteer, given the name of a value for each category. Stops with the kind that `volunteer_kind` returns within
    /// the usual limits; the pool is then unchanged.
    pub fn add_volunteer(&mut self, id: &str, values: &[Name]) -> Result<(), BuildStop>
        ensures kind { Answers (volunteer_kind Usual self.old id.now values.now) result }
        ensures ok { OnOk result (self.new ≡ volunteer_added self.old id.now values.now) }
        ensures err { OnErr result (self.new ≡ self.old) }
    {
        self.add_volunteer_within(Limits::Usual, id, values)
    }

    /// Appends an open volunteer as `add_volunteer` does, within these limits.
    pub fn add_volunteer_within(
        &mut self,
        limits: Limits,
        id: &str,
        values: &[Name],
    ) -> Result<(), BuildStop>
        ensures kind { Answers (volunteer_kind limits self.old id.now values.now) result }
        ensures ok { OnOk result (self.new ≡ volunteer_added self.old id.now values.now) }
        ensures err { OnErr result (self.new ≡ self.old) }
    {
        let known = are_named(&self.categories, values);
        if let Some(kind) = self.volunteer_fault(limits, id.as_bytes(), known, values.len()) {
            return Err(BuildStop::Kind(kind));
        }
        let names = bytes_of(*self.volunteers.allocator(), values)?;
        self.add_right_volunteer(id, &names)?;
        Ok(())
    }

    /// Appends a volunteer for whom `volunteer_kind` returns None within the limits of every pool, without testing it again.
    pub fn add_right_volunteer(&mut self, id: &str, values: &[&[u8]]) -> Result<(), AllocError>
        requires { volunteer_kind Large self.old id.now (map (λ name. name.now) values.now) ≡ None }
        ensures ok { OnOk result (self.new ≡ volunteer_added self.old id.now (map (λ name. name.now) values.now)) }
        ensures err { OnErr result (self.new ≡ self.old) }
    {
        let alloc = *self.volunteers.allocator();
        let places = places(alloc, &self.categories, values)?;
        let follows = follows_last(&self.volunteers, id.as_bytes());
        let volunteer = Volunteer::new(Name::new(alloc, id)?, places);
        self.volunteers.push(volunteer)?;
        self.ids_in_order &= follows;
        Ok(())
    }

    /// Sets the standing of volunteer `number`, and changes nothing else.
    pub fn set_standing(&mut self, number: usize, standing: Standing)
        requires { number < length self.old.volunteers }
        ensures { self.new ≡ standing_set self.old number standing }
    {
        set_standing_of(&mut self.volunteers, number, standing);
    }

    /// Sets the name of the household of volunteer `number`, in place of an earlier one, and changes nothing else. Stops with kind 10
    /// exactly if the name isn't allowed; the pool is then unchanged.
    pub fn set_household(&mut self, number: usize, name: &str) -> Result<(), BuildStop>
        requires { number < length self.old.volunteers }
        ensures kind { Answers (household_kind name.now) result }
        ensures ok { OnOk result (self.new ≡ household_set self.old number name.now) }
        ensures err { OnErr result (self.new ≡ self.old) }
    {
        if let Some(kind) = household_kind(name.as_bytes()) {
            return Err(BuildStop::Kind(kind));
        }
        self.set_right_household(number, name)?;
        Ok(())
    }

    /// Sets a household for whose name `household_kind` returns None, without testing it again.
    pub fn set_right_household(&mut self, number: usize, name: &str) -> Result<(), AllocError>
        requires number { number < length self.old.volunteers }
        requires name { household_kind name.now ≡ None }
        ensures ok { OnOk result (self.new ≡ household_set self.old number name.now) }
        ensures err { OnErr result (self.new ≡ self.old) }
    {
        let household = Name::new(*self.volunteers.allocator(), name)?;
        set_household_of(&mut self.volunteers, number, household);
        Ok(())
    }
}

/// Returns the kind of fault of a household's name: 10 exactly if the name isn't allowed.
pub fn household_kind(name: &[u8]) -> Option<u8>
    ensures { result ≡ household_kind name.now }
{
    if keeps_name_limits(name) {
        None
    } else {
        Some(10)
    }
}

/// Returns the kind of fault of a size: 2 exactly if it is not from 1 to the greatest one that `limits` allow.
fn size_kind(limits: Limits, size: usize) -> Option<u8>
    ensures { result ≡ size_kind limits size }
{
    if 1 <= size && size <= limits.members() {
        None
    } else {
        Some(2)
    }
}

// Returns the values of the last category; none if there is no category.
fn last_values(categories: &[Category]) -> &[BoundedValue]
    ensures { result.now ≡ values_of_last categories.now }
{
    match categories.last() {
        Some(category) => category.values(),
        None => &[],
    }
}

fn add_to_last(categories: &mut Vec<Category>, value: BoundedValue) -> Result<(), AllocError>
    requires { 0 < vec_len categories.old }
    ensures ok { OnOk result (categories.new.items ≡ with_value categories.old.items value) }
    ensures err { OnErr result (categories.new.items ≡ categories.old.items) }
{
    let last = categories.len() - 1;
    let category = &mut categories[last];
    category.add(value)
}

fn set_standing_of(volunteers: &mut Vec<Volunteer>, number: usize, standing: Standing)
    requires { number < vec_len volunteers.old }
    ensures { volunteers.new.items ≡ with_standing volunteers.old.items number standing }
{
    let volunteer = &mut volunteers[number];
    volunteer.set_standing(standing);
}

fn set_household_of(volunteers: &mut Vec<Volunteer>, number: usize, name: Name)
    requires { number < vec_len volunteers.old }
    ensures { volunteers.new.items ≡ with_household volunteers.old.items number name }
{
    let volunteer = &mut volunteers[number];
    volunteer.set_household(name);
}

/// Returns equal categories.
pub fn copied_categories(
    alloc: Global,
    categories: &[Category],
) -> Result<Vec<Category>, AllocError>
    ensures { IfOk result (λ copies. copies.items ≡ categories.now) }
{
    let mut copies = Vec::new(alloc);
    for category in categories {
        copies.push(category.copy()?)?;
    }
    Ok(copies)
}

/// Returns equal volunteers.
pub fn copied_volunteers(
    alloc: Global,
    volunteers: &[Volunteer],
) -> Result<Vec<Volunteer>, AllocError>
    ensures { IfOk result (λ copies. copies.items ≡ volunteers.now) }
{
    let mut copies = Vec::new(alloc);
    for volunteer in volunteers {
        copies.push(volunteer.copy()?)?;
    }
    Ok(copies)
}
