//! Categories while their file is read. A pool takes values for its last category alone, but in a file a value of an earlier category may
//! come later.

ghost use Rattle.std.specs.Prelude.{◌≡◌, [], ◌∷◌, ◌++◌, ◌<◌, length, bytes_eq, position, vec_len, IfOk, IfSome, None, OnOk, IsTrue};
ghost use Rattle.std.specs.Str.{is_utf8};
ghost use Rattle.define_pools.specs.Building.{category_kind, category_names, value_names};
ghost use Rattle.define_pools.specs.Pool.{is_category};
ghost use Rattle.define_pools.specs.Lists.{includes_list};
ghost use Rattle.define_imports.specs.Rules.{is_full as has_no_room, values_of as values_in, with_rule};
ghost use Rattle.define_offices.specs.Facts.{AreRules};
ghost use Rattle.office_import.specs.Seen.{rule_seen, with_value_at};

use crate::records::name_of;
use crate::rules::Rule;
use office_tables::Rules;
use pool_model::{Bound, Name, Pool};
use std::alloc::{AllocError, Global};
use std::marker::Model;

/// The most categories.
const MAX_CATEGORIES: usize = 20;

/// The most values of a category.
const MAX_VALUES: usize = 50;

/// A value with its bounds.
#[derive(Debug, Drop)]
pub(crate) struct DraftValue {
    name: Name,
    bound: Bound,
}

impl Model for DraftValue {
    ghost use Rattle.define_pools.specs.Pool.{BoundedValue as Seen};

    ghost Value = { Seen };

    ghost view = { λ v. record { name = v.name; lower = v.bound.lower; upper = v.bound.upper } };
}

impl DraftValue {
    /// Returns the value of a rule.
    fn of(alloc: Global, rule: &Rule<'_>) -> Result<DraftValue, AllocError>
        requires { IsTrue (is_utf8 (rule_seen rule.now).value.name) }
        ensures { IfOk result (λ value. value ≡ (rule_seen rule.now).value) }
    {
        let bound = Bound {
            lower: rule.lower,
            upper: rule.upper,
        };
        Ok(DraftValue {
            name: name_of(alloc, rule.name)?,
            bound,
        })
    }

    /// Returns the value's name.
    fn name(&self) -> &Name
        ensures { result.now ≡ self.now.name }
    {
        &self.name
    }

    /// Returns the least number of a panel's members who may have the value.
    fn lower(&self) -> usize
        ensures { result ≡ self.now.lower }
    {
        self.bound.lower
    }

    /// Returns the greatest number of a panel's members who may have the value.
    fn upper(&self) -> usize
        ensures { result ≡ self.now.upper }
    {
        self.bound.upper
    }
}

/// A category with the values that were read so far.
#[derive(Debug, Drop)]
pub(crate) struct Draft {
    name: Name,
    values: Vec<DraftValue>,
}

impl Model for Draft {
    ghost use Rattle.define_pools.specs.Pool.{Category as Seen};

    ghost Value = { Seen };

    ghost view = { λ d. record { name = d.name; values = d.values.items } };
}

impl Draft {
    /// Returns the category of a rule, with its one value.
    fn of(alloc: Global, rule: &Rule<'_>) -> Result<Draft, AllocError>
        requires category { IsTrue (is_utf8 (rule_seen rule.now).category) }
        requires name { IsTrue (is_utf8 (rule_seen rule.now).value.name) }
        ensures { IfOk result (λ draft. draft ≡ record { name = (rule_seen rule.now).category; values = (rule_seen rule.now).value ∷ [] }) }
    {
        let mut values = Vec::new(alloc);
        values.push(DraftValue::of(alloc, rule)?)?;
        Ok(Draft {
            name: name_of(alloc, rule.category)?,
            values,
        })
    }

    /// Returns the category's name.
    fn name(&self) -> &Name
        ensures { result.now ≡ self.now.name }
    {
        &self.name
    }

    /// Returns the values, in the order in which they first appeared.
    fn values(&self) -> &[DraftValue]
        ensures { result.now ≡ self.now.values }
    {
        &self.values
    }

    /// Appends a value.
    fn add(&mut self, value: DraftValue) -> Result<(), AllocError>
        ensures { OnOk result (self.new ≡ record self.old { values = self.old.values ++ value ∷ [] }) }
    {
        self.values.push(value)?;
        Ok(())
    }
}

/// Returns the values of the category with this name, or none if there is no category of this name.
fn values_of<'a>(drafts: &'a [Draft], name: &[u8]) -> &'a [DraftValue]
    ensures { result.now ≡ values_in drafts.now name.now }
{
    match drafts.iter().find(|draft| name == draft.name().as_bytes()) {
        Some(draft) => draft.values(),
        None => &[],
    }
}

/// True if the category has a value with this name.
pub(crate) fn has_value(drafts: &[Draft], category: &[u8], name: &[u8]) -> bool
    ensures { result ≡ includes_list (value_names (values_in drafts.now category.now)) name.now }
{
    values_of(drafts, category)
        .iter()
        .any(|value| name == value.name().as_bytes())
}

/// True if there is no room for one more value of this category: it has 50 values, or it is new and there are 20 categories.
pub(crate) fn is_full(drafts: &[Draft], category: &[u8]) -> bool
    ensures { result ≡ has_no_room drafts.now category.now }
{
    if has_category(drafts, category) {
        MAX_VALUES <= values_of(drafts, category).len()
    } else {
        MAX_CATEGORIES <= drafts.len()
    }
}

fn has_category(drafts: &[Draft], name: &[u8]) -> bool
    ensures { result ≡ includes_list (category_names drafts.now) name.now }
{
    drafts.iter().any(|draft| name == draft.name().as_bytes())
}

/// Adds a value to its category, which is appended if it is new.
pub(crate) fn add_rule(
    alloc: Global,
    drafts: &mut Vec<Draft>,
    rule: &Rule<'_>,
) -> Result<(), AllocError>
    requires category { IsTrue (is_utf8 (rule_seen rule.now).category) }
    requires name { IsTrue (is_utf8 (rule_seen rule.now).value.name) }
    ensures { OnOk result (drafts.new.items ≡ with_rule drafts.old.items (rule_seen rule.now)) }
{
    match place_of(drafts, rule.category) {
        Some(place) => add_value(drafts, place, DraftValue::of(alloc, rule)?),
        None => {
            drafts.push(Draft::of(alloc, rule)?)?;
            Ok(())
        }
    }
}

/// Returns the place of the category with this name, if there is one.
fn place_of(drafts: &[Draft], name: &[u8]) -> Option<usize>
    ensures value { result ≡ position (λ draft. bytes_eq name.now draft.name) drafts.now }
    ensures inside { IfSome result (λ place. place < length drafts.now) }
{
    drafts
        .iter()
        .position(|draft| name == draft.name().as_bytes())
}

/// Appends a value to the category at `place`.
fn add_value(drafts: &mut Vec<Draft>, place: usize, value: DraftValue) -> Result<(), AllocError>
    requires { place < vec_len drafts.old }
    ensures { OnOk result (drafts.new.items ≡ with_value_at drafts.old.items place value) }
{
    let draft = &mut drafts[place];
    draft.add(value)
}

/// Returns the rules of these categories.
pub(crate) fn rules_from(alloc: Global, drafts: &[Draft]) -> Result<Rules, AllocError>
    requires { AreRules drafts.now }
    ensures { IfOk result (λ rules. rules ≡ drafts.now) }
{
    let pool = pool_of(alloc, drafts)?;
    match Rules::of_pool(alloc, &pool)? {
        Some(rules) => Ok(rules),
        None => unreachable!(),
    }
}

/// Returns a pool of these categories, of size 1 and without volunteers.
fn pool_of(alloc: Global, drafts: &[Draft]) -> Result<Pool, AllocError>
    requires { AreRules drafts.now }
    ensures { IfOk result (λ pool. pool ≡ record { size = 1; categories = drafts.now; volunteers = [] }) }
{
    let mut pool = match Pool::new(alloc, 1) {
        Ok(pool) => pool,
        Err(_) => unreachable!(),
    };
    for draft in drafts {
        add_draft(&mut pool, draft)?;
    }
    Ok(pool)
}

/// Appends a category with its values.
fn add_draft(pool: &mut Pool, draft: &Draft) -> Result<(), AllocError>
    requires new { category_kind pool.old draft.now.name ≡ None }
    requires right { IsTrue (is_category draft.now) }
    ensures { OnOk result (pool.new ≡ record pool.old { categories = pool.old.categories ++ draft.now ∷ [] }) }
{
    pool.add_right_category(draft.name().as_str())?;
    for value in draft.values() {
        pool.add_right_value(value.name().as_str(), value.lower(), value.upper())?;
    }
    Ok(())
}
