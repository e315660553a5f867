//! Assemblies as commands, from the imports on, and how each command ends.

ghost use Rattle.std.specs.Prelude.{IfSome};
ghost use Rattle.office_core.specs.Commands.{HasWorkers};

use define_runs::Limits;
use office_core::{ActStop, Charter, Command, Keeper, Rows, Rules, act};
use office_import::{read_charter, read_register, read_rules};
use office_tables::{LaterRound, Tickets};
use outside::NoWatch;
use pool_model::Name;
use std::alloc::Global;
use std::thread::Threads;

/// A command of the office. The round is round 1 if none is named.
#[derive(Clone, Copy)]
pub(crate) enum Asked {
    Charter(&'static [u8]),
    Rules,
    Register(&'static [u8]),
    Solve(usize),
    Seal,
    SealIn(u32),
    Draw(&'static str, &'static [u8]),
    Try(&'static str, &'static [u8]),
    DropOut(&'static str),
    Undrop(&'static str),
    Next,
    Reopen(usize),
    Bounds(usize),
    Show,
    Withdraw(&'static str),
    WithdrawId(&'static str),
}

/// How a command ends.
#[derive(Clone, Copy, PartialEq, Eq)]
pub(crate) enum Ending {
    Replies,
    Refuses,
    Stops,
}

/// A command with its ending.
pub(crate) type Row = (Asked, Ending);

const CHARTER: &[u8] = b"title = \"River\"\nsize = 2\n";

const LARGE: &[u8] = b"title = \"River\"\nsize = 2\nvolunteers = 500\n";

const RULES: &[u8] = b"category,name,min,max\ngender,female,1,1\ngender,male,1,1\n";

const WIDER: &[u8] = b"category,name,min,max\ngender,female,0,2\ngender,male,0,2\n";

const FOUR: &[u8] = b"id,key,gender\na,abc,female\nb,k2,female\nc,k3,male\nd,k4,male\n";

const DIFFERING: &[u8] = b"id,key,gender\na,abc,female\nb,k2,female\nc,k3,female\nd,k4,male\n";

const KEY_TAKEN: &[u8] = b"id,key,gender\nd,k4,male\ne,abc,male\n";

const HOUSED: &[u8] = b"id,key,gender,household\na,abc,female,h\nb,k2,female,\nc,k3,male,h\n";

const MORE: &[u8] = b"id,key,gender\nd,k4,male\ne,k5,male\n";

/// The SHA-256 digest of the bundle of `FOUR`.
const SEAL: &str = "41f145deb96e63082dd54ce2bcf3dea5bf3bb3cf4f2936371c318b2d1a4355e7";

/// The SHA-256 digest of the bundle of `HOUSED` and `MORE`.
const HOUSED_SEAL: &str = "2cb82b27c8b4c04f4a46a1fb8c5c4856a2486862f6e8e32bdddb6295cbdb3ab9";

/// An assembly of four volunteers. Some of its commands are given twice, and some are refused.
pub(crate) const PLAIN: &[Row] = &[
    (Asked::Solve(1), Ending::Refuses),
    (Asked::Register(FOUR), Ending::Refuses),
    (Asked::Rules, Ending::Replies),
    (Asked::Rules, Ending::Replies),
    (Asked::Register(FOUR), Ending::Replies),
    (Asked::Register(FOUR), Ending::Replies),
    (Asked::Register(DIFFERING), Ending::Refuses),
    (Asked::Register(KEY_TAKEN), Ending::Refuses),
    (Asked::Charter(CHARTER), Ending::Replies),
    (Asked::Charter(CHARTER), Ending::Replies),
    (Asked::Seal, Ending::Refuses),
    (Asked::Solve(1), Ending::Replies),
    (Asked::Solve(1), Ending::Replies),
    (Asked::Draw(SEAL, b"0"), Ending::Refuses),
    (Asked::Seal, Ending::Replies),
    (Asked::Seal, Ending::Replies),
    (Asked::Draw(SEAL, b"x"), Ending::Refuses),
    (Asked::Draw(SEAL, b"0"), Ending::Replies),
    (Asked::Draw(SEAL, b"0"), Ending::Replies),
    (Asked::Draw(SEAL, b"7"), Ending::Refuses),
    (Asked::DropOut("b"), Ending::Refuses),
    (Asked::Next, Ending::Refuses),
    (Asked::DropOut("a"), Ending::Replies),
    (Asked::DropOut("a"), Ending::Replies),
    (Asked::Next, Ending::Replies),
    (Asked::Next, Ending::Replies),
    (Asked::Solve(2), Ending::Replies),
    (Asked::Solve(2), Ending::Replies),
    (Asked::Solve(9), Ending::Refuses),
    (Asked::Withdraw("k2"), Ending::Refuses),
    (Asked::Show, Ending::Replies),
];

/// An assembly of five volunteers, whose commands make a change of each kind. Two volunteers are of one household, and one withdraws.
pub(crate) const HOUSEHOLDS: &[Row] = &[
    (Asked::Rules, Ending::Replies),
    (Asked::Register(HOUSED), Ending::Replies),
    (Asked::Register(MORE), Ending::Replies),
    (Asked::Charter(CHARTER), Ending::Replies),
    (Asked::Withdraw("k5"), Ending::Replies),
    (Asked::Solve(1), Ending::Replies),
    (Asked::Seal, Ending::Replies),
    (Asked::Draw(HOUSED_SEAL, b"0"), Ending::Replies),
    (Asked::DropOut("a"), Ending::Replies),
    (Asked::Next, Ending::Replies),
];

/// The first round of four volunteers, which is open. One withdraws, twice.
pub(crate) const ENROLLED: &[Row] = &[
    (Asked::Rules, Ending::Replies),
    (Asked::Register(FOUR), Ending::Replies),
    (Asked::Charter(CHARTER), Ending::Replies),
    (Asked::Withdraw("k4"), Ending::Replies),
    (Asked::Withdraw("k4"), Ending::Replies),
    (Asked::Withdraw("k5"), Ending::Refuses),
];

/// The same round without a withdrawal, which is solved and then sealed, when nobody may withdraw.
pub(crate) const SEALED: &[Row] = &[
    (Asked::Rules, Ending::Replies),
    (Asked::Register(FOUR), Ending::Replies),
    (Asked::Charter(CHARTER), Ending::Replies),
    (Asked::Solve(1), Ending::Replies),
    (Asked::Seal, Ending::Replies),
    (Asked::Withdraw("k4"), Ending::Refuses),
];

/// An assembly whose commands make each change that a store of version 2 has no place for, and take changes back. The first round is drawn
/// in 10 tickets. Somebody who dropped out withdraws while the second round is open, and isn't taken back once that round is gone.
pub(crate) const CORRECTED: &[Row] = &[
    (Asked::Rules, Ending::Replies),
    (Asked::Register(FOUR), Ending::Replies),
    (Asked::Charter(CHARTER), Ending::Replies),
    (Asked::Charter(LARGE), Ending::Replies),
    (Asked::Charter(CHARTER), Ending::Replies),
    (Asked::Charter(LARGE), Ending::Replies),
    (Asked::Bounds(2), Ending::Refuses),
    (Asked::Reopen(2), Ending::Refuses),
    (Asked::Solve(1), Ending::Replies),
    (Asked::SealIn(10), Ending::Replies),
    (Asked::SealIn(100), Ending::Refuses),
    (Asked::Try(SEAL, b"0"), Ending::Replies),
    (Asked::Draw(SEAL, b"7"), Ending::Replies),
    (Asked::Undrop("b"), Ending::Refuses),
    (Asked::DropOut("b"), Ending::Replies),
    (Asked::DropOut("d"), Ending::Replies),
    (Asked::Undrop("b"), Ending::Replies),
    (Asked::DropOut("b"), Ending::Replies),
    (Asked::Undrop("d"), Ending::Replies),
    (Asked::Next, Ending::Replies),
    (Asked::Undrop("b"), Ending::Refuses),
    (Asked::Bounds(2), Ending::Replies),
    (Asked::Bounds(2), Ending::Replies),
    (Asked::WithdrawId("c"), Ending::Replies),
    (Asked::WithdrawId("d"), Ending::Refuses),
    (Asked::WithdrawId("b"), Ending::Replies),
    (Asked::Reopen(2), Ending::Replies),
    (Asked::Reopen(2), Ending::Refuses),
    (Asked::Undrop("b"), Ending::Refuses),
    (Asked::Next, Ending::Replies),
    (Asked::Bounds(2), Ending::Replies),
];

/// Changes of each kind that a store of version 2 has no place for, or that take a change back.
pub(crate) const FURTHER: &[Row] = &[
    (Asked::Rules, Ending::Replies),
    (Asked::Register(FOUR), Ending::Replies),
    (Asked::Charter(LARGE), Ending::Replies),
    (Asked::Solve(1), Ending::Replies),
    (Asked::SealIn(10), Ending::Replies),
    (Asked::Draw(SEAL, b"7"), Ending::Replies),
    (Asked::DropOut("b"), Ending::Replies),
    (Asked::DropOut("d"), Ending::Replies),
    (Asked::Undrop("b"), Ending::Replies),
    (Asked::Next, Ending::Replies),
    (Asked::Bounds(2), Ending::Replies),
    (Asked::Reopen(2), Ending::Replies),
];

/// Does a command over a keeper. Returns how it ends, or None if the command can't be made, for want of memory.
pub(crate) fn done<K: Keeper, R: Threads + Sync>(
    rt: &R,
    alloc: Global,
    keeper: &mut K,
    asked: Asked,
) -> Option<Ending> {
    let command = command_of(alloc, asked)?;
    Some(match act(rt, alloc, keeper, &command, &NoWatch) {
        Ok(_) => Ending::Replies,
        Err(ActStop::Refused(_)) => Ending::Refuses,
        Err(_) => Ending::Stops,
    })
}

/// Returns the command that is asked for.
pub(crate) fn command_of(alloc: Global, asked: Asked) -> Option<Command>
    ensures { IfSome result HasWorkers }
{
    match asked {
        Asked::Charter(charter) => set_charter(alloc, charter),
        Asked::Rules => rules(alloc),
        Asked::Register(rows) => register(alloc, rows),
        Asked::Solve(round) => solve(round),
        Asked::Seal => Some(Command::Seal {
            round: 1,
            tickets: None,
        }),
        Asked::SealIn(tickets) => seal_in(tickets),
        Asked::Draw(seal, digits) => draw(alloc, seal, digits),
        Asked::Try(seal, digits) => try_draw(alloc, seal, digits),
        Asked::DropOut(id) => drop_out(alloc, id),
        Asked::Undrop(id) => undrop(alloc, id),
        Asked::Next => Some(Command::NextRound { after: 1 }),
        Asked::Reopen(round) => reopen(round),
        Asked::Bounds(round) => bounds(alloc, round),
        Asked::Show => Some(Command::Show { round: 1 }),
        Asked::Withdraw(key) => withdraw(alloc, key),
        Asked::WithdrawId(id) => withdraw_id(alloc, id),
    }
}

fn set_charter(alloc: Global, charter: &[u8]) -> Option<Command>
    ensures { IfSome result HasWorkers }
{
    Some(Command::Charter(read_charter(alloc, charter).ok()?))
}

fn rules(alloc: Global) -> Option<Command>
    ensures { IfSome result HasWorkers }
{
    Some(Command::Rules(read_rules(alloc, RULES).ok()?))
}

fn register(alloc: Global, rows: &[u8]) -> Option<Command>
    ensures { IfSome result HasWorkers }
{
    let rules = read_rules(alloc, RULES).ok()?;
    Some(Command::Register(read_register(alloc, rows, &rules).ok()?))
}

fn solve(round: usize) -> Option<Command>
    ensures { IfSome result HasWorkers }
{
    let limits = Limits::new(127, 1000, 10000)?;
    Some(Command::Solve {
        round,
        limits,
        workers: 1,
    })
}

fn draw(alloc: Global, seal: &str, digits: &[u8]) -> Option<Command>
    ensures { IfSome result HasWorkers }
{
    Some(Command::Draw {
        round: 1,
        seal: Name::new(alloc, seal).ok()?,
        digits: Vec::from_slice(alloc, digits).ok()?,
    })
}

fn drop_out(alloc: Global, id: &str) -> Option<Command>
    ensures { IfSome result HasWorkers }
{
    let id = Name::new(alloc, id).ok()?;
    Some(Command::Drop { round: 1, id })
}

fn withdraw(alloc: Global, key: &str) -> Option<Command>
    ensures { IfSome result HasWorkers }
{
    let key = Vec::from_slice(alloc, key.as_bytes()).ok()?;
    Some(Command::Withdraw { key })
}

fn seal_in(tickets: u32) -> Option<Command>
    ensures { IfSome result HasWorkers }
{
    Some(Command::Seal {
        round: 1,
        tickets: Some(Tickets::new(tickets)?),
    })
}

fn try_draw(alloc: Global, seal: &str, digits: &[u8]) -> Option<Command>
    ensures { IfSome result HasWorkers }
{
    Some(Command::Try {
        round: 1,
        seal: Name::new(alloc, seal).ok()?,
        digits: Vec::from_slice(alloc, digits).ok()?,
    })
}

fn undrop(alloc: Global, id: &str) -> Option<Command>
    ensures { IfSome result HasWorkers }
{
    let id = Name::new(alloc, id).ok()?;
    Some(Command::Undrop { round: 1, id })
}

fn reopen(round: usize) -> Option<Command>
    ensures { IfSome result HasWorkers }
{
    Some(Command::Reopen {
        round: LaterRound::new(round)?,
    })
}

/// Returns the command that sets the bounds `WIDER` for a round.
fn bounds(alloc: Global, round: usize) -> Option<Command>
    ensures { IfSome result HasWorkers }
{
    Some(Command::Bounds {
        round: LaterRound::new(round)?,
        bounds: read_rules(alloc, WIDER).ok()?,
    })
}

fn withdraw_id(alloc: Global, id: &str) -> Option<Command>
    ensures { IfSome result HasWorkers }
{
    let id = Name::new(alloc, id).ok()?;
    Some(Command::WithdrawId { id })
}
