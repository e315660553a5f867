//! The least loosening of a pool.

ghost use Rattle.std.specs.Prelude.{◌≡◌, Some, IfOk, IsTrue};
ghost use Rattle.define_quotas.specs.Costs.{cheapest_team, cost};
ghost use Rattle.define_quotas.specs.Loosenings.{loosening_for};
ghost use Rattle.define_quotas.specs.Teams.{is_team, team_cost};
ghost use Rattle.define_searches.specs.Classes.{classes_of};
ghost use Rattle.define_searches.specs.Compositions.{first_panel as first_panel_of};
ghost use Rattle.quota_loosen.specs.Answers.{Loosens};

use crate::bounds::loosened;
use crate::searching::{LoosenStop, cheapest};
use alike::{Classes, Composition, classes, first_panel};
use pool_model::{Panel, Pool};
use std::alloc::{AllocError, Global};
use std::marker::Model;

/// A pool with its bounds moved, how far they moved in all, and a quota panel of this pool.
#[derive(Debug, Drop)]
pub struct Loosened {
    total: usize,
    pool: Pool,
    panel: Panel,
}

impl Model for Loosened {
    ghost use Rattle.define_quotas.specs.Loosenings.{Loosening};

    ghost Value = { Loosening };

    ghost view = { λ l. record { total = l.total; pool = l.pool; panel = l.panel } };
}

impl Loosened {
    /// Returns the loosening for a team that costs `total`: each bound is moved only as far as the team needs to meet it.
    pub fn for_team(
        alloc: Global,
        pool: &Pool,
        team: Panel,
        total: usize,
    ) -> Result<Loosened, AllocError>
        requires team { IsTrue (is_team pool.now team) }
        requires total { total ≡ team_cost pool.now team }
        ensures { IfOk result (λ made. made ≡ loosening_for pool.now team) }
    {
        let pool = loosened(alloc, pool, &team)?;
        Ok(Loosened {
            total,
            pool,
            panel: team,
        })
    }

    /// Returns how far bounds moved in all.
    pub fn total(&self) -> usize
        ensures { result ≡ self.now.total }
    {
        self.total
    }

    /// Returns the pool with its bounds moved.
    pub fn pool(&self) -> &Pool
        ensures { result.now ≡ self.now.pool }
    {
        &self.pool
    }

    /// Returns the quota panel of the pool with its bounds moved.
    pub fn panel(&self) -> &Panel
        ensures { result.now ≡ self.now.panel }
    {
        &self.panel
    }
}

/// Returns the pool's least loosening: the bounds are moved by as little as possible in all so that there is a quota panel. None means that
/// the pool has no team: its size, standings and households alone can't be met. Fails with `Spent` if the search takes more than `nodes`
/// visits. `define_quotas` has the laws: nothing but bounds changes, the panel is a quota panel of the new pool, and no pool whose
/// bounds are moved by less has a quota panel.
pub fn loosen(alloc: Global, pool: &Pool, nodes: u64) -> Result<Option<Loosened>, LoosenStop>
    ensures { Loosens pool.now nodes result }
{
    let classes = classes(alloc, pool)?;
    match cheapest(alloc, &classes, nodes)? {
        Some((counts, total)) => Ok(Some(loosening(alloc, pool, &classes, &counts, total)?)),
        None => Ok(None),
    }
}

// Returns the loosening whose panel takes the first members of each class, as many as `counts` says. `counts` are those of the cheapest
// team, and `total` is what this team costs.
fn loosening(
    alloc: Global,
    pool: &Pool,
    classes: &Classes,
    counts: &Composition,
    total: usize,
) -> Result<Loosened, AllocError>
    requires classes { classes.now ≡ classes_of pool.now }
    requires counts { cheapest_team (classes_of pool.now) ≡ Some counts.now }
    requires total { total ≡ cost (classes_of pool.now) counts.now }
    ensures { IfOk result (λ made. made ≡ loosening_for pool.now (first_panel_of (classes_of pool.now) counts.now)) }
{
    let panel = first_panel(alloc, classes, counts)?;
    let pool = loosened(alloc, pool, &panel)?;
    Ok(Loosened { total, pool, panel })
}
