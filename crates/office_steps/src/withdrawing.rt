//! The withdrawal of a volunteer, who is found by a key or by the id.

ghost use Rattle.std.specs.Prelude.{◌≡◌, ◌&&◌, bytes_eq, length, not, position, IfOk};
ghost use Rattle.define_draws.specs.Seal.{seal_of};
ghost use Rattle.define_pools.specs.Pool.{volunteer};
ghost use Rattle.define_offices.specs.Deciding.{is_last_open as last_is_open, is_seated as seated, is_seated_in, place_of_hash, place_of_id, withdraw_at, withdraw_id_at, withdraw_row as row_withdrawn};
ghost use Rattle.define_offices.specs.Lines.{one_line, withdrawn_line};
ghost use Rattle.office_steps.specs.Replies.{seen_reply};
ghost use Rattle.define_offices.specs.Pools.{pool_of as pool_of_round};
ghost use Rattle.office_steps.specs.Steps.{Says};
ghost use Rattle.office_steps.specs.Withdrawals.{IsPlaceOf, IsPlaceOfId};

use crate::lines::line;
use crate::named::last_phase;
use crate::pools::{PoolStop, pool_of};
use crate::replies::{Refusal, Reply};
use crate::stops::OfficeStop;
use office_tables::{Change, Entry, Phase, Round, Tables};
use pool_model::{Name, Standing, Volunteer};
use sealed_draw::seal;
use std::alloc::{AllocError, Global};

/// Returns the outcome of a withdrawal by the volunteer with this key. It is refused if no row has the key. If the volunteer withdrew
/// already, the reply is the same, and nothing changes. Else it is refused if the last round isn't open, or if the volunteer is seated in
/// that round.
pub fn withdraw(
    alloc: Global,
    tables: &Tables,
    key: &[u8],
) -> Result<(Option<Change>, Reply), OfficeStop>
    ensures { Says (withdraw_at tables.now (place_of_hash tables.now.register (seal_of key.now) 0)) result }
{
    let hash = seal(alloc, key)?;
    let register = tables.register();
    let Some(place) = place_of(register, hash.as_bytes()) else {
        return Err(OfficeStop::Refused(Refusal::UnknownKey));
    };
    let reply = Reply::Lines(Vec::new(alloc));
    withdraw_row(alloc, tables, place, &register[place], reply)
}

/// Returns the outcome of a withdrawal that the office enters for the volunteer with this id, by the rules of `withdraw`.
pub fn withdraw_id(
    alloc: Global,
    tables: &Tables,
    id: &Name,
) -> Result<(Option<Change>, Reply), OfficeStop>
    ensures { Says (withdraw_id_at tables.now id.now (place_of_id tables.now.register id.now 0)) result }
{
    let register = tables.register();
    let Some(place) = place_by_id(register, id) else {
        return Err(OfficeStop::Refused(Refusal::UnknownId { id: id.copy()? }));
    };
    let reply = withdrawn_reply(alloc, id)?;
    withdraw_row(alloc, tables, place, &register[place], reply)
}

/// Returns the reply that names a withdrawal.
fn withdrawn_reply(alloc: Global, id: &Name) -> Result<Reply, AllocError>
    ensures { IfOk result (λ reply. seen_reply reply ≡ one_line (withdrawn_line id.now)) }
{
    line(alloc, b"withdrawn", &[id.as_bytes()])
}

/// Returns the outcome of a withdrawal of the row `entry`, which is at `place`, with `reply` if it withdraws.
fn withdraw_row(
    alloc: Global,
    tables: &Tables,
    place: usize,
    entry: &Entry,
    reply: Reply,
) -> Result<(Option<Change>, Reply), OfficeStop>
    ensures { Says (row_withdrawn tables.now (seen_reply reply) place entry.now) result }
{
    if entry.withdrawn() {
        return Ok((None, reply));
    }
    if may_withdraw(alloc, tables, place)? {
        Ok((Some(Change::Withdrawn { place }), reply))
    } else {
        Err(OfficeStop::Refused(Refusal::TooLate))
    }
}

/// Returns the place of the first row with this id, if there is one.
fn place_by_id(register: &[Entry], id: &Name) -> Option<usize>
    ensures { IsPlaceOfId register.now id.now result }
{
    position_by_id(register, id)
}

fn position_by_id(register: &[Entry], id: &Name) -> Option<usize>
    ensures { result ≡ position (λ entry. bytes_eq id.now entry.id) register.now }
{
    register
        .iter()
        .position(|entry| id.as_bytes() == entry.id().as_bytes())
}

/// Returns the place of the row with this digest of a key, if there is one.
fn place_of(register: &[Entry], hash: &[u8]) -> Option<usize>
    ensures { IsPlaceOf register.now hash.now result }
{
    position_of(register, hash)
}

fn position_of(register: &[Entry], hash: &[u8]) -> Option<usize>
    ensures { result ≡ position (λ entry. bytes_eq hash.now entry.hash) register.now }
{
    register
        .iter()
        .position(|entry| hash == entry.hash().as_bytes())
}

/// True if the last round is open, and the volunteer at `place` isn't seated in its pool.
fn may_withdraw(alloc: Global, tables: &Tables, place: usize) -> Result<bool, AllocError>
    ensures { IfOk result (λ may. may ≡ (last_is_open tables.now.rounds && not (is_seated_in (pool_of_round tables.now (length tables.now.rounds)) place))) }
{
    if !is_last_open(tables.rounds()) {
        return Ok(false);
    }
    match pool_of(alloc, tables, tables.rounds().len()) {
        Ok(pool) => Ok(!is_seated(pool.volunteers(), place)),
        Err(PoolStop::OutOfMemory) => Err(AllocError),
        Err(_) => Ok(true),
    }
}

/// True if there is a round, and the last one is open.
fn is_last_open(rounds: &[Round]) -> bool
    ensures { result ≡ last_is_open rounds.now }
{
    if rounds.len() < 1 {
        return false;
    }
    match last_phase(rounds) {
        Phase::Open => true,
        Phase::Solved => false,
        Phase::Sealed => false,
        Phase::Drawn => false,
    }
}

/// True if the volunteer at `place` is seated.
fn is_seated(volunteers: &[Volunteer], place: usize) -> bool
    ensures { result ≡ seated (volunteer volunteers.now place).standing }
{
    match volunteers.get(place) {
        Some(volunteer) => volunteer.standing() == Standing::Seated,
        None => false,
    }
}
