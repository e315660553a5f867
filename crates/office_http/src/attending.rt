//! Attends one link.

ghost use Rattle.std.specs.Prelude.{◌≡◌, ◌≤◌, ◌+◌, IfOk, OnErr, OnOk, false};
ghost use Rattle.outside.specs.Faults.{Rose};
ghost use Rattle.office_requests.specs.Needs.{ReadsAsNeeded};
ghost use Rattle.office_requests.specs.Reads.{LosesAtMost, most_read};
ghost use Rattle.office_http.specs.Answers.{IsAnswerTo};
ghost use Rattle.office_http.specs.Visits.{IsAttended, kept, link_told, visit};

use office_core::Keeper;
use office_desk::{Answer, answer, unwell};
use office_requests::{RequestStop, read_asking};
use outside::{Link, Watch};
use std::alloc::Global;
use std::thread::Threads;
use thiserror::Error;

/// The link failed, and counted a fault.
#[derive(Clone, Copy, Debug, PartialEq, Eq, Error)]
#[error("the link failed")]
pub struct LinkFault;

/// Reads what is asked over the link, and writes the desk's reply to it, in one put. Returns the status of the reply. A read that fails is
/// never taken for the end of the bytes. Makes at most 73,728 reads, and none once the bytes say what is asked. The keeper lets others at
/// the tables before the reply is written, so a slow client keeps nobody from them. If the put fails, what a withdrawal changed stays changed.
pub fn attend<R: Threads + Sync, L: Link, K: Keeper, W: Watch + Sync>(
    rt: &R,
    alloc: Global,
    link: &mut L,
    keeper: &mut K,
    watch: &W,
) -> Result<u16, LinkFault>
    ensures visit { IsAttended (visit
        (link_told (L.left link.old) (L.written link.old) (L.faults link.old)) (kept (K.tables keeper.old) (K.faults keeper.old) (K.course keeper.old))
        (link_told (L.left link.new) (L.written link.new) (L.faults link.new)) (kept (K.tables keeper.new) (K.faults keeper.new) (K.course keeper.new)) result) }
    ensures reads { L.reads link.new ≤ L.reads link.old + most_read }
    ensures needed { ReadsAsNeeded L.left L.reads link.old link.new }
    ensures place { (K.course keeper.new).place ≡ (K.course keeper.old).place }
    ensures free { K.holds keeper.new ≡ false }
{
    let answer = answer_link(rt, alloc, link, keeper, watch)?;
    match link.put(answer.bytes()) {
        Ok(()) => Ok(answer.status()),
        Err(_) => Err(LinkFault),
    }
}

/// Reads what is asked over the link, and returns the desk's answer. Then the keeper lets others at the tables.
fn answer_link<R: Threads + Sync, L: Link, K: Keeper, W: Watch + Sync>(
    rt: &R,
    alloc: Global,
    link: &mut L,
    keeper: &mut K,
    watch: &W,
) -> Result<Answer, LinkFault>
    ensures answer { IfOk result (IsAnswerTo (L.left link.old)
        (kept (K.tables keeper.old) (K.faults keeper.old) (K.course keeper.old)) (kept (K.tables keeper.new) (K.faults keeper.new) (K.course keeper.new))) }
    ensures unasked { OnErr result (kept (K.tables keeper.new) (K.faults keeper.new) (K.course keeper.new) ≡ kept (K.tables keeper.old) (K.faults keeper.old) (K.course keeper.old)) }
    ensures cause { OnErr result (Rose (L.faults link.old) (L.faults link.new)) }
    ensures none { OnOk result (L.faults link.new ≡ L.faults link.old) }
    ensures unwritten { L.written link.new ≡ L.written link.old }
    ensures read { LosesAtMost most_read (L.left link.old) (L.left link.new) }
    ensures reads { L.reads link.new ≤ L.reads link.old + most_read }
    ensures needed { ReadsAsNeeded L.left L.reads link.old link.new }
    ensures place { (K.course keeper.new).place ≡ (K.course keeper.old).place }
    ensures free { K.holds keeper.new ≡ false }
{
    let answer = ask_desk(rt, alloc, link, keeper, watch);
    keeper.let_go();
    answer
}

/// Reads what is asked over the link, and returns the desk's answer. If memory runs out while it is read, the answer says so.
fn ask_desk<R: Threads + Sync, L: Link, K: Keeper, W: Watch + Sync>(
    rt: &R,
    alloc: Global,
    link: &mut L,
    keeper: &mut K,
    watch: &W,
) -> Result<Answer, LinkFault>
    ensures answer { IfOk result (IsAnswerTo (L.left link.old)
        (kept (K.tables keeper.old) (K.faults keeper.old) (K.course keeper.old)) (kept (K.tables keeper.new) (K.faults keeper.new) (K.course keeper.new))) }
    ensures unasked { OnErr result (kept (K.tables keeper.new) (K.faults keeper.new) (K.course keeper.new) ≡ kept (K.tables keeper.old) (K.faults keeper.old) (K.course keeper.old)) }
    ensures cause { OnErr result (Rose (L.faults link.old) (L.faults link.new)) }
    ensures none { OnOk result (L.faults link.new ≡ L.faults link.old) }
    ensures unwritten { L.written link.new ≡ L.written link.old }
    ensures read { LosesAtMost most_read (L.left link.old) (L.left link.new) }
    ensures reads { L.reads link.new ≤ L.reads link.old + most_read }
    ensures needed { ReadsAsNeeded L.left L.reads link.old link.new }
    ensures place { (K.course keeper.new).place ≡ (K.course keeper.old).place }
{
    match read_asking(alloc, link) {
        Ok(asking) => Ok(answer(rt, alloc, keeper, &asking, watch)),
        Err(RequestStop::OutOfMemory) => Ok(unwell()),
        Err(RequestStop::LinkFault) => Err(LinkFault),
    }
}
