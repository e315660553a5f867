//! Who is alike at a stage: volunteers of equal values, equal standing and equal weights in the stages up to it; someone who shares a
//! household is in a class alone. `grouping` makes classes by it.

ghost use Rattle.std.specs.Prelude.{◌≡◌, ◌<◌, ◌∷◌, IfOk, map, count_by, length};
ghost use Rattle.std.specs.List.{find, list_all, range_with_len};
ghost use Rattle.std.specs.Ordering.{int_eq};
ghost use Rattle.check_search.specs.Likeness.{AreShared, KnowsHouseholds, count_of, is_alike, stages_of};
ghost use Rattle.define_checks.specs.Caps.{weigh_equal};
ghost use Rattle.define_pools.specs.Certificate.{weight_of as weight_in_stage};
ghost use Rattle.define_pools.specs.Pool.{share_household as share};
ghost use Rattle.define_searches.specs.Classes.{are_alike, are_equal as equal, is_same_standing, shared_household as shared, shares_household};

use define_pools::Standing;
use pool_model::{Pool, Stage, Volunteer, share_household};
use std::alloc::{AllocError, Global};

// What decides whether volunteers are alike: the pool, a stage and the earlier ones, the latest first, and for each volunteer the number
// of the household that they share with somebody.
#[derive(Debug, Drop)]
pub(crate) struct Likeness<'a> {
    pub(crate) pool: &'a Pool,
    pub(crate) earlier: &'a [Stage],
    pub(crate) stage: &'a Stage,
    households: Vec<Option<usize>>,
}

impl<'a> Likeness<'a> {
    pub(crate) fn new(
        alloc: Global,
        pool: &'a Pool,
        earlier: &'a [Stage],
        stage: &'a Stage,
    ) -> Result<Likeness<'a>, AllocError>
        ensures households { IfOk result (λ likeness. KnowsHouseholds likeness) }
        ensures pool { IfOk result (λ likeness. likeness.pool.now ≡ pool.now) }
        ensures stages { IfOk result (λ likeness. stages_of likeness ≡ stage.now ∷ earlier.now) }
        ensures earlier { IfOk result (λ likeness. likeness.earlier.now ≡ earlier.now) }
        ensures stage { IfOk result (λ likeness. likeness.stage.now ≡ stage.now) }
    {
        Ok(Likeness {
            pool,
            earlier,
            stage,
            households: shared_households(alloc, pool.volunteers())?,
        })
    }

    // True if volunteers `i` and `j` are of one class.
    pub(crate) fn are_alike(&self, i: usize, j: usize) -> bool
        requires households { KnowsHouseholds self.now }
        requires one { i < count_of self.now }
        requires other { j < count_of self.now }
        ensures { result ≡ is_alike self.now i j }
    {
        self.are_alike_once(i, j) && self.weigh_equal(i, j)
    }

    // True if `i` and `j` are one volunteer, or have equal values and equal standing and neither shares a household.
    fn are_alike_once(&self, i: usize, j: usize) -> bool
        requires households { KnowsHouseholds self.now }
        requires one { i < count_of self.now }
        requires other { j < count_of self.now }
        ensures { result ≡ are_alike self.now.pool.now i j }
    {
        let volunteers = self.pool.volunteers();
        let equal = are_equal(&volunteers[i], &volunteers[j]);
        let one = self.shares(i);
        let other = self.shares(j);
        i == j || (equal && !one && !other)
    }

    // True if volunteers `i` and `j` have the same weight in each of the stages.
    fn weigh_equal(&self, i: usize, j: usize) -> bool
        ensures { result ≡ weigh_equal (stages_of self.now) i j }
    {
        weighs_equal(self.stage, i, j) && all_weigh_equal(self.earlier, i, j)
    }

    // True if volunteer `i` shares a household with somebody.
    fn shares(&self, i: usize) -> bool
        requires households { KnowsHouseholds self.now }
        requires below { i < count_of self.now }
        ensures { result ≡ shares_household self.now.pool.now i }
    {
        self.household_of(i).is_some()
    }

    // Returns the number of the household that volunteer `i` shares with somebody, if there is one.
    pub(crate) fn household_of(&self, i: usize) -> Option<usize>
        requires households { KnowsHouseholds self.now }
        requires below { i < count_of self.now }
        ensures { result ≡ shared self.now.pool.now.volunteers i }
    {
        match self.households.get(i) {
            Some(household) => *household,
            None => None,
        }
    }
}

// True if volunteers `i` and `j` have the same weight in each of the stages.
fn all_weigh_equal(stages: &[Stage], i: usize, j: usize) -> bool
    ensures { result ≡ weigh_equal stages.now i j }
{
    stages.iter().all(|stage| weighs_equal(stage, i, j))
}

// True if volunteers `i` and `j` have the same weight in the stage.
fn weighs_equal(stage: &Stage, i: usize, j: usize) -> bool
    ensures { result ≡ int_eq (weight_in_stage stage.now i) (weight_in_stage stage.now j) }
{
    weight_of(stage, i) == weight_of(stage, j)
}

// Returns the weight of volunteer `i`, or 0 if the stage has no weight `i`.
pub(crate) fn weight_of(stage: &Stage, i: usize) -> i128
    ensures { result ≡ weight_in_stage stage.now i }
{
    stage.weights().get(i).copied().unwrap_or(0)
}

// True if two volunteers have the same values and the same standing.
fn are_equal(one: &Volunteer, other: &Volunteer) -> bool
    ensures { result ≡ equal one.now other.now }
{
    one.values() == other.values() && is_same_standing(one.standing(), other.standing())
}

fn is_same_standing(one: Standing, other: Standing) -> bool
    ensures { result ≡ is_same_standing one other }
{
    match (one, other) {
        (Standing::Open, Standing::Open)
        | (Standing::Seated, Standing::Seated)
        | (Standing::Gone, Standing::Gone) => true,
        _ => false,
    }
}

// Returns for each volunteer the number of the household that they share with somebody, if there is one.
fn shared_households(
    alloc: Global,
    volunteers: &[Volunteer],
) -> Result<Vec<Option<usize>>, AllocError>
    ensures { IfOk result (λ found. AreShared volunteers.now found.items) }
{
    (0..volunteers.len())
        .map(|i| shared_household(volunteers, i))
        .collect(alloc)
}

// Returns the number of the household that volunteer `i` shares with somebody, if there is one. It is the number of the household's first
// member.
fn shared_household(volunteers: &[Volunteer], i: usize) -> Option<usize>
    ensures { result ≡ shared volunteers.now i }
{
    let members = household_size(volunteers, i);
    let first = household_number(volunteers, i);
    if 2 <= members { first } else { None }
}

// Returns how many volunteers are of the household of volunteer `i`: 0 if `i` has none.
fn household_size(volunteers: &[Volunteer], i: usize) -> usize
    ensures { result ≡ count_by (share volunteers.now i) (range_with_len 0 (length volunteers.now)) }
{
    (0..volunteers.len())
        .filter(|j| share_household(volunteers, i, *j))
        .count()
}

// Returns the number of the first volunteer of the household of volunteer `i`, if `i` has one.
fn household_number(volunteers: &[Volunteer], i: usize) -> Option<usize>
    ensures { result ≡ find (share volunteers.now i) (range_with_len 0 (length volunteers.now)) }
{
    (0..volunteers.len()).find(|j| share_household(volunteers, i, *j))
}
