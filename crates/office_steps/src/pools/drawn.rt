//! The pool of each round but the first: the pool of the round before, after its draw, its dropouts and the withdrawals.

ghost use Rattle.std.specs.Prelude.{◌≡◌, map, true, is_ok, Some, IfOk};
ghost use Rattle.define_pools.specs.Lists.{includes_list};
ghost use Rattle.define_pools.specs.Lottery.{TotalAgrees};
ghost use Rattle.define_draws.specs.Dice.{name_ticket};
ghost use Rattle.define_offices.specs.Pools.{after_withdrawals, drawn_lottery, drawn_of, next_pool as pool_next, numbers_of as numbers_by, pool_after as pool_after_round, restood_pool};
ghost use Rattle.office_steps.specs.Told.{IsDrawn};

use bundle_text::Bundle;
use office_tables::{Entry, Round, Tickets, drawn_by};
use pool_model::{Name, Panel, Pool};
use rounds::{pool_after, withdraw};
use std::alloc::{AllocError, Global};

/// Returns the pool after a round that was drawn.
pub(crate) fn later_pool(
    alloc: Global,
    register: &[Entry],
    before: &Round,
) -> Result<Pool, AllocError>
    requires { IsDrawn before.now }
    ensures { IfOk result (λ pool. pool ≡ pool_after_round register.now (Some before.now)) }
{
    match before.bundle() {
        Some(bundle) => {
            let next = next_pool(
                alloc,
                bundle,
                before.tickets(),
                before.digits(),
                before.dropped(),
            )?;
            without_withdrawn(alloc, next, register)
        }
        None => unreachable!(),
    }
}

/// Returns the pool in which each open volunteer who withdrew, by the register, is gone.
fn without_withdrawn(alloc: Global, mut pool: Pool, register: &[Entry]) -> Result<Pool, AllocError>
    ensures { IfOk result (λ next. next ≡ restood_pool (after_withdrawals register.now) pool) }
{
    let withdrawn = withdrawn_of(alloc, register)?;
    withdraw(&mut pool, &withdrawn);
    Ok(pool)
}

/// Returns the pool after the digits drew a panel in a round with this bundle, from its lottery or shortened to `tickets` tickets, and the
/// volunteers of these ids dropped out.
fn next_pool(
    alloc: Global,
    bundle: &Bundle,
    tickets: &Option<Tickets>,
    digits: &[u8],
    dropped: &[Name],
) -> Result<Pool, AllocError>
    requires total { TotalAgrees bundle.now.answer.lottery }
    requires named { is_ok (name_ticket (drawn_lottery bundle.now tickets.now).total digits.now) ≡ true }
    ensures { IfOk result (λ pool. pool ≡ pool_next bundle.now.pool (drawn_of bundle.now tickets.now digits.now).panel (numbers_by bundle.now.pool dropped.now)) }
{
    let panel = panel_drawn(alloc, bundle, tickets, digits)?;
    let drops = numbers_of(alloc, bundle.pool(), dropped)?;
    pool_after(bundle.pool(), &panel, &drops)
}

/// Returns the panel that digits draw from a bundle.
fn panel_drawn(
    alloc: Global,
    bundle: &Bundle,
    tickets: &Option<Tickets>,
    digits: &[u8],
) -> Result<Panel, AllocError>
    requires total { TotalAgrees bundle.now.answer.lottery }
    requires named { is_ok (name_ticket (drawn_lottery bundle.now tickets.now).total digits.now) ≡ true }
    ensures { IfOk result (λ panel. panel ≡ (drawn_of bundle.now tickets.now digits.now).panel) }
{
    match drawn_by(alloc, bundle, tickets, digits)? {
        Some(drawn) => Ok(drawn.panel),
        None => unreachable!(),
    }
}

/// Returns the numbers of the volunteers whose ids are in `ids`, in rising order.
fn numbers_of(alloc: Global, pool: &Pool, ids: &[Name]) -> Result<Vec<usize>, AllocError>
    ensures { IfOk result (λ numbers. numbers.items ≡ numbers_by pool.now ids.now) }
{
    let mut numbers = Vec::new(alloc);
    for (number, volunteer) in pool.volunteers().iter().enumerate() {
        if includes(ids, volunteer.id()) {
            numbers.push(number)?;
        }
    }
    Ok(numbers)
}

/// True if `id` is among `ids`.
fn includes(ids: &[Name], id: &Name) -> bool
    ensures { result ≡ includes_list ids.now id.now }
{
    ids.iter().any(|one| id.as_bytes() == one.as_bytes())
}

/// Returns for each row of the register whether its volunteer withdrew.
fn withdrawn_of(alloc: Global, register: &[Entry]) -> Result<Vec<bool>, AllocError>
    ensures { IfOk result (λ marks. marks.items ≡ map (λ entry. entry.withdrawn) register.now) }
{
    register
        .iter()
        .map(|entry| entry.withdrawn())
        .collect(alloc)
}
