//! The constraints of a stage, with a coefficient for each volunteer. The pool's constraints are made once, and each stage that is passed
//! adds its own. A constraint refers to what its coefficients are read from, so it takes a few words of memory, whatever the number of
//! volunteers. It shares no code with the searches.

ghost use Rattle.std.specs.Prelude.{◌≡◌, ◌==◌, ◌++◌, ◌≤◌, ◌+◌, [], filter, IfOk, OnOk, if◌then◌else◌, insert, length, map, pos, slice_index, slice_index_or};
ghost use Rattle.std.specs.List.{count_by, enumerate_from, find, flat_map, range_with_len};
ghost use Rattle.define_proofs.specs.Constraints.{category_constraints, coefficient as coefficient_of, first_members as first_members_of, household_constraint as household_constraint_of, size_constraint as size_constraint_of, stage_constraint as stage_constraint_of, value_constraint as value_constraint_of};
ghost use Rattle.define_pools.specs.Pool.{share_household as are_of_one_household, volunteer};
ghost use Rattle.define_searches.specs.Classes.{shared_household as shared};
ghost use Rattle.define_searches.specs.Compositions.{is_of_household as is_of};
ghost use Rattle.check_proofs.specs.Coefficients.{coefficients_of};
ghost use Rattle.check_proofs.specs.Kept.{AreConstraintsOf, household_row};

use pool_model::{BoundedValue, Category, Pool, Stage, Volunteer, share_household};
use std::alloc::{AllocError, Global};
use std::marker::Model;

/// A coefficient for each volunteer. None is kept: each is read from the volunteers, from a stage's weights, or from a list of households.
#[derive(Drop)]
enum Coefficients<'a> {
    /// 1 for everybody.
    Everybody(&'a [Volunteer]),
    /// 1 for each volunteer who has value `.2` of category `.1`, and 0 for everybody else.
    WithValue(&'a [Volunteer], usize, usize),
    /// A stage's weights.
    Weights(&'a [i128]),
    /// 1 for each member of household `.1`, and 0 for everybody else. `.0` has the number of the household that each volunteer shares.
    OfHousehold(&'a [Option<usize>], usize),
}

impl<'a> Coefficients<'a> {
    /// Returns the coefficient of a volunteer.
    fn at(&self, i: usize) -> i128
        ensures { result ≡ slice_index_or (coefficients_of self.now) i (pos 0) }
    {
        match self {
            Coefficients::Everybody(volunteers) => one_of(volunteers, i),
            Coefficients::WithValue(volunteers, c, v) => one_with(volunteers, *c, *v, i),
            Coefficients::Weights(weights) => weights.get(i).copied().unwrap_or(0),
            Coefficients::OfHousehold(households, number) => one_in(households, *number, i),
        }
    }
}

/// A coefficient for each volunteer, and the least and greatest sum of its members' coefficients that a panel may have.
#[derive(Drop)]
pub(crate) struct Constraint<'a> {
    coefficients: Coefficients<'a>,
    lower: i128,
    upper: i128,
}

impl<'a> Model for Constraint<'a> {
    ghost use Rattle.define_proofs.specs.Constraints.{Constraint as Seen};
    ghost use Rattle.check_proofs.specs.Coefficients.{coefficients_of};

    ghost Value = { Seen };

    ghost view = { λ c. record { coefficients = coefficients_of c.coefficients; lower = c.lower; upper = c.upper } };
}

impl<'a> Constraint<'a> {
    /// Returns the least sum.
    pub(crate) fn lower(&self) -> i128
        ensures { result ≡ self.now.lower }
    {
        self.lower
    }

    /// Returns the greatest sum.
    pub(crate) fn upper(&self) -> i128
        ensures { result ≡ self.now.upper }
    {
        self.upper
    }

    /// Returns the coefficient of a volunteer.
    pub(crate) fn coefficient(&self, i: usize) -> i128
        ensures { result ≡ coefficient_of self.now i }
    {
        self.coefficients.at(i)
    }
}

/// The constraints of a stage: the size, the values, the earlier stages, and the shared households, in this order.
#[derive(Drop)]
pub(crate) struct Constraints<'a> {
    rows: Vec<Constraint<'a>>,
    // the place of the stage's own constraint, once the stage is passed
    next: usize,
}

impl<'a> Constraints<'a> {
    /// Returns the constraints of the first stage. `households` are the pool's `shared_households`.
    pub(crate) fn of_first(
        alloc: Global,
        pool: &'a Pool,
        households: &'a [Option<usize>],
    ) -> Result<Constraints<'a>, AllocError>
        requires { households.now ≡ map (shared pool.now.volunteers) (range_with_len 0 (length pool.now.volunteers)) }
        ensures { IfOk result (λ all. AreConstraintsOf pool.now [] all.rows.items all.next) }
    {
        let mut rows = Vec::new(alloc);
        rows.push(size_constraint(pool))?;
        push_categories(&mut rows, pool)?;
        let next = rows.len();
        push_households(alloc, &mut rows, pool, households)?;
        Ok(Constraints { rows, next })
    }

    /// Passes a stage: its constraint joins those of the earlier stages.
    pub(crate) fn pass(&mut self, stage: &'a Stage) -> Result<(), AllocError>
        requires { self.old.next ≤ length self.old.rows.items }
        ensures rows { OnOk result (self.new.rows.items ≡ insert self.old.rows.items self.old.next (stage_constraint_of stage.now)) }
        ensures next { OnOk result (self.new.next ≡ self.old.next + 1) }
    {
        self.rows.insert(self.next, stage_constraint(stage))?;
        self.next += 1;
        Ok(())
    }

    /// Returns all constraints, in order.
    pub(crate) fn rows(&self) -> &[Constraint<'a>]
        ensures { result.now ≡ self.now.rows.items }
    {
        &self.rows
    }
}

/// Returns the constraint of a stage: a panel's weight in the stage equals the cap.
fn stage_constraint(stage: &Stage) -> Constraint<'_>
    ensures { result ≡ stage_constraint_of stage.now }
{
    Constraint {
        coefficients: Coefficients::Weights(stage.weights()),
        lower: stage.cap(),
        upper: stage.cap(),
    }
}

/// Returns the constraint of the size.
fn size_constraint(pool: &Pool) -> Constraint<'_>
    ensures { result ≡ size_constraint_of pool.now }
{
    Constraint {
        coefficients: Coefficients::Everybody(pool.volunteers()),
        lower: pool.size() as i128,
        upper: pool.size() as i128,
    }
}

/// Returns 1 for each volunteer.
#[tactic(auto, using(crate::proofs::Coefficients::for_everybody))]
fn one_of(volunteers: &[Volunteer], i: usize) -> i128
    ensures { result ≡ slice_index_or (map (λ i. pos 1) (range_with_len 0 (length volunteers.now))) i (pos 0) }
{
    one_if(i < volunteers.len())
}

/// Returns 1 for each volunteer who has a value, and 0 for everybody else.
fn one_with(volunteers: &[Volunteer], c: usize, v: usize, i: usize) -> i128
    ensures { result ≡ slice_index_or
        (map (λ i. if slice_index (volunteer volunteers.now i).values c == v then pos 1 else pos 0) (range_with_len 0 (length volunteers.now))) i (pos 0) }
{
    let has_value = value_of(volunteers, i, c) == v;
    one_if(i < volunteers.len() && has_value)
}

/// Returns 1 for each member of a household, and 0 for everybody else.
#[tactic(auto, using(crate::proofs::Coefficients::of_element))]
fn one_in(households: &[Option<usize>], number: usize, i: usize) -> i128
    ensures { result ≡ slice_index_or (map (λ household. if is_of number household then pos 1 else pos 0) households.now) i (pos 0) }
{
    one_if(is_of_household(number, household_of(households, i)))
}

/// Adds the constraints of all values.
fn push_categories<'a>(rows: &mut Vec<Constraint<'a>>, pool: &'a Pool) -> Result<(), AllocError>
    ensures { OnOk result (rows.new.items ≡ rows.old.items ++ flat_map (category_constraints pool.now) (enumerate_from 0 pool.now.categories)) }
{
    for (c, category) in pool.categories().iter().enumerate() {
        push_values(rows, pool, c, category)?;
    }
    Ok(())
}

/// Adds the constraints of a category's values.
fn push_values<'a>(
    rows: &mut Vec<Constraint<'a>>,
    pool: &'a Pool,
    c: usize,
    category: &Category,
) -> Result<(), AllocError>
    ensures { OnOk result (rows.new.items ≡ rows.old.items ++ category_constraints pool.now (c, category.now)) }
{
    for (v, value) in category.values().iter().enumerate() {
        rows.push(value_constraint(pool, c, v, value))?;
    }
    Ok(())
}

/// Returns the constraint of a value: the number of members who have it is within its bounds.
fn value_constraint<'a>(pool: &'a Pool, c: usize, v: usize, value: &BoundedValue) -> Constraint<'a>
    ensures { result ≡ value_constraint_of pool.now c (v, value.now) }
{
    Constraint {
        coefficients: Coefficients::WithValue(pool.volunteers(), c, v),
        lower: value.lower() as i128,
        upper: value.upper() as i128,
    }
}

/// Returns 1 if a condition holds, else 0.
fn one_if(holds: bool) -> i128
    ensures { result ≡ (if holds then pos 1 else pos 0) }
{
    if holds { 1 } else { 0 }
}

/// Returns the place of a volunteer's value in a category.
fn value_of(volunteers: &[Volunteer], i: usize, c: usize) -> usize
    ensures { result ≡ slice_index (volunteer volunteers.now i).values c }
{
    match volunteers.get(i) {
        Some(one) => one.values().get(c).copied().unwrap_or(0),
        None => 0,
    }
}

/// Adds the constraints of the shared households.
fn push_households<'a>(
    alloc: Global,
    rows: &mut Vec<Constraint<'a>>,
    pool: &Pool,
    households: &'a [Option<usize>],
) -> Result<(), AllocError>
    requires { households.now ≡ map (shared pool.now.volunteers) (range_with_len 0 (length pool.now.volunteers)) }
    ensures { OnOk result (rows.new.items ≡ rows.old.items ++ map (household_constraint_of pool.now) (first_members_of pool.now)) }
{
    let _ = pool;
    for number in first_members(alloc, households)?.iter() {
        rows.push(household_constraint(households, *number))?;
    }
    Ok(())
}

/// Returns the constraint of a household: a panel has at most one of its members.
fn household_constraint(households: &[Option<usize>], number: usize) -> Constraint<'_>
    ensures { result ≡ household_row households.now number }
{
    Constraint {
        coefficients: Coefficients::OfHousehold(households, number),
        lower: 0,
        upper: 1,
    }
}

/// True if `household` is the number `number`.
fn is_of_household(number: usize, household: Option<usize>) -> bool
    ensures { result ≡ is_of number household }
{
    match household {
        Some(other) => other == number,
        None => false,
    }
}

/// Returns the first member of each shared household: each volunteer whose own number is the household's number.
fn first_members(alloc: Global, households: &[Option<usize>]) -> Result<Vec<usize>, AllocError>
    ensures { IfOk result (λ numbers. numbers.items ≡ filter (λ i. is_of i (slice_index_or households.now i None)) (range_with_len 0 (length households.now))) }
{
    (0..households.len())
        .filter(|i| is_of_household(*i, household_of(households, *i)))
        .collect(alloc)
}

/// Returns the number of the household that a volunteer shares, if there is one.
fn household_of(households: &[Option<usize>], i: usize) -> Option<usize>
    ensures { result ≡ slice_index_or households.now i None }
{
    match households.get(i) {
        Some(household) => *household,
        None => None,
    }
}

/// Returns for each volunteer the number of the household that they share, or None.
pub(crate) fn shared_households(
    alloc: Global,
    volunteers: &[Volunteer],
) -> Result<Vec<Option<usize>>, AllocError>
    ensures { IfOk result (λ found. found.items ≡ map (shared volunteers.now) (range_with_len 0 (length volunteers.now))) }
{
    (0..volunteers.len())
        .map(|i| shared_household(volunteers, i))
        .collect(alloc)
}

/// Returns the number of the household that a volunteer shares, which is that of its first member, or None.
fn shared_household(volunteers: &[Volunteer], i: usize) -> Option<usize>
    ensures { result ≡ shared volunteers.now i }
{
    let members = household_size(volunteers, i);
    let first = first_of_household(volunteers, i);
    if 2 <= members { first } else { None }
}

/// Returns how many members a volunteer's household has.
fn household_size(volunteers: &[Volunteer], i: usize) -> usize
    ensures { result ≡ count_by (are_of_one_household volunteers.now i) (range_with_len 0 (length volunteers.now)) }
{
    (0..volunteers.len())
        .filter(|j| share_household(volunteers, i, *j))
        .count()
}

/// Returns the first member of a volunteer's household, or None if the volunteer has none.
fn first_of_household(volunteers: &[Volunteer], i: usize) -> Option<usize>
    ensures { result ≡ find (are_of_one_household volunteers.now i) (range_with_len 0 (length volunteers.now)) }
{
    (0..volunteers.len()).find(|j| share_household(volunteers, i, *j))
}
