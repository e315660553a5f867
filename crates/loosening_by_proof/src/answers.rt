//! A least loosening of a pool's quotas, or that there is no team.

ghost use Rattle.std.specs.Bool.{OnTrue};
ghost use Rattle.std.specs.Prelude.{◌≡◌, Some, IfErr, IfOk, IsTrue};
ghost use Rattle.define_proofs.specs.Leaves.{standings as standings_of};
ghost use Rattle.define_quotas.specs.CostBounds.{CostsAt};
ghost use Rattle.define_quotas.specs.Teams.{is_team as is_team_of, team_cost as team_cost_of};
ghost use Rattle.loosening_by_proof.specs.Answers.{IsLeastForTeam, IsLoosening};
ghost use Rattle.loosening_by_proof.specs.Searches.{IsSearch};
ghost use Rattle.prove_limits.specs.Budgets.{SpendsOn};
ghost use Rattle.quota_conflicts.specs.Answers.{StopsSo};

use crate::bounds::least_cost;
use crate::covers::covers;
use crate::searches::Search;
use crate::teams::{is_team, team_cost};
use define_quotas::costs::{asking_more_costs, cheapest_by_bound};
use pool_model::{Panel, Pool, Standing};
use prove_limits::{Budget, ProveStop};
use quota_conflicts::{reported, standings};
use quota_loosen::Loosened;
use std::alloc::{AllocError, Global};

/// Returns a least loosening of a pool's quotas, within a budget: bounds are moved so that there is a quota panel, by as little as possible
/// in all. None means that the pool has no team: its size, standings and households alone can't be met. Stops if a limit is spent, an
/// operation passes 2^62, memory runs out, or the search is lost, which means that what it found doesn't pass this crate's check.
pub fn loosen_by_proof(
    alloc: Global,
    pool: &Pool,
    budget: &mut Budget,
) -> Result<Option<Loosened>, ProveStop>
    ensures answer { IfOk result (IsLoosening pool.now) }
    ensures spends { SpendsOn budget.old budget.new }
    ensures stops { IfErr result (StopsSo budget.new) }
{
    match answered(alloc, pool, budget) {
        Ok(answer) => Ok(answer),
        Err(stop) => Err(reported(stop, budget)),
    }
}

fn answered(alloc: Global, pool: &Pool, budget: &mut Budget) -> Result<Option<Loosened>, ProveStop>
    ensures answer { IfOk result (IsLoosening pool.now) }
    ensures spends { SpendsOn budget.old budget.new }
{
    cheapest_by_bound();
    let all = standings(alloc, pool.volunteers())?;
    let mut search = Search::by_class(alloc, pool)?;
    match cost_shown(alloc, pool, &all, &mut search, budget)? {
        Some(least) => {
            let loosened = cheapest(alloc, pool, &all, least, &mut search, budget)?;
            Ok(Some(loosened))
        }
        None => Ok(None),
    }
}

/// Returns a number that each team costs at least, shown by leaves alone. Makes leaves until some point of the relaxation misses the bounds
/// by at most the number shown so far. Stops as lost if a leaf shows no greater number. None means that there is no team.
fn cost_shown(
    alloc: Global,
    pool: &Pool,
    all: &[Standing],
    search: &mut Search,
    budget: &mut Budget,
) -> Result<Option<usize>, ProveStop>
    requires all { all.now ≡ standings_of pool.now }
    requires search { IsSearch search.old }
    ensures costs { IfOk result (CostsAt pool.now (standings_of pool.now)) }
    ensures search { IsSearch search.new }
    ensures spends { SpendsOn budget.old budget.new }
{
    asking_more_costs();
    let mut least = 0;
    'leaves: loop {
        budget.take_node()?;
        let Some(leaf) = search.leaf_beyond(alloc, least, budget)? else {
            return Ok(Some(least));
        };
        match least_cost(alloc, pool, &leaf, all)? {
            None => return Ok(None),
            Some(more) => {
                if more <= least {
                    return Err(ProveStop::Lost);
                }
                least = more;
            }
        }
    }
}

/// Returns the loosening for a cheapest team. Each team must be known to cost at least `least`.
fn cheapest(
    alloc: Global,
    pool: &Pool,
    all: &[Standing],
    least: usize,
    search: &mut Search,
    budget: &mut Budget,
) -> Result<Loosened, ProveStop>
    requires all { all.now ≡ standings_of pool.now }
    requires least { CostsAt pool.now (standings_of pool.now) (Some least) }
    requires search { IsSearch search.old }
    ensures least { IfOk result (λ loosened. IsLeastForTeam pool.now loosened) }
    ensures spends { SpendsOn budget.old budget.new }
{
    let team = team_from(alloc, least, search, budget)?;
    if !is_team(pool, &team) {
        return Err(ProveStop::Lost);
    }
    let cost = team_cost(pool, &team).ok_or(ProveStop::Lost)?;
    if !is_least(alloc, pool, all, least, cost, budget)? {
        return Err(ProveStop::Lost);
    }
    let loosened = least_loosening(alloc, pool, team, cost)?;
    Ok(loosened)
}

/// Returns the loosening for a team that costs `cost`. Each team must be known to cost at least `cost`.
fn least_loosening(
    alloc: Global,
    pool: &Pool,
    team: Panel,
    cost: usize,
) -> Result<Loosened, AllocError>
    requires team { IsTrue (is_team_of pool.now team) }
    requires cost { cost ≡ team_cost_of pool.now team }
    requires least { CostsAt pool.now (standings_of pool.now) (Some cost) }
    ensures { IfOk result (IsLeastForTeam pool.now) }
{
    cheapest_by_bound();
    pool.facts();
    Loosened::for_team(alloc, pool, team, cost)
}

/// Looks for a team that misses the bounds by at most `least` in all, then by at most `least + 1`, and so on.
fn team_from(
    alloc: Global,
    least: usize,
    search: &mut Search,
    budget: &mut Budget,
) -> Result<Panel, ProveStop>
    requires { IsSearch search.old }
    ensures { SpendsOn budget.old budget.new }
{
    let mut most = least;
    'costs: loop {
        budget.take_node()?;
        if let Some(team) = search.team_within(alloc, most, budget)? {
            return Ok(team);
        }
        most = most.checked_add(1).ok_or(ProveStop::Lost)?;
    }
}

/// True if each team is shown to cost at least `cost`. It is known that each costs at least `least`; if `cost` is greater, a tree must show
/// it.
fn is_least(
    alloc: Global,
    pool: &Pool,
    all: &[Standing],
    least: usize,
    cost: usize,
    budget: &mut Budget,
) -> Result<bool, ProveStop>
    requires all { all.now ≡ standings_of pool.now }
    requires least { CostsAt pool.now (standings_of pool.now) (Some least) }
    ensures costs { IfOk result (λ is. OnTrue is (CostsAt pool.now (standings_of pool.now) (Some cost))) }
    ensures spends { SpendsOn budget.old budget.new }
{
    if cost <= least {
        return Ok(true);
    }
    let mut search = Search::by_volunteer(alloc, pool)?;
    let nodes = search.tree(alloc, cost - 1, budget)?;
    let is_shown = covers(alloc, pool, &nodes, all, cost)?;
    Ok(is_shown)
}
