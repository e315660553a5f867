//! Answers a request over the tables that a keeper keeps.

ghost use Rattle.std.specs.Prelude.{◌≡◌, IfOk, option_and_then};
ghost use Rattle.define_desk.specs.Desk.{page_of as page_named};
ghost use Rattle.define_desk.specs.Replies.{Reply, out_of_memory};
ghost use Rattle.office_core.specs.Acting.{IsLoaded};
ghost use Rattle.office_requests.specs.Askings.{seen_asking};
ghost use Rattle.office_desk.specs.Answers.{FailsFor, FailsInTurn, FailsToStore, HasFault, IsDeskAnswer, IsReplyTo};
ghost use Rattle.office_desk.specs.Endings.{IsSentFor};
ghost use Rattle.office_desk.specs.Pages.{seen_page};
ghost use Rattle.office_desk.specs.Sent.{sent_of};

use crate::answers::Answer;
use crate::own_page::own_page_answer;
use crate::public_pages::{bundle_answer, draw_answer};
use crate::refusals::Refusal;
use crate::routes::{Page, page_of};
use crate::withdrawing::withdrawal_answer;
use office_core::{Keeper, KeeperStop, Tables};
use office_requests::{Asking, Request};
use outside::Watch;
use std::alloc::{AllocError, Global};
use std::thread::Threads;

/// Returns the desk's reply to what was asked. A withdrawal is stored before its reply is returned. The first refusal that applies is
/// returned, in this order: 413 and 400, for which nothing is loaded; 503, after which the tables are as before; 404, 405, 401 and 409.
/// Unless the reply is 413 or 400, memory may run out at any time: the reply is then 507, and nothing was stored.
pub fn answer<R: Threads + Sync, K: Keeper, W: Watch + Sync>(
    rt: &R,
    alloc: Global,
    keeper: &mut K,
    asking: &Asking,
    watch: &W,
) -> Answer
    ensures desk { IsDeskAnswer (K.tables keeper.old) (seen_asking asking.now) (K.tables keeper.new) result }
    ensures place { (K.course keeper.new).place ≡ (K.course keeper.old).place }
    ensures fault { HasFault (FailsFor (K.tables keeper.old) (seen_asking asking.now) (K.course keeper.old) (K.course keeper.new)) (K.faults keeper.old) (K.faults keeper.new) result.status }
{
    match asking {
        Asking::TooLarge => Answer::refused(Refusal::TooLarge),
        Asking::NoRequest => Answer::refused(Refusal::NoRequest),
        Asking::Asks(request) => reply_to(rt, alloc, keeper, request, watch),
    }
}

/// Returns the reply to a request.
fn reply_to<R: Threads + Sync, K: Keeper, W: Watch + Sync>(
    rt: &R,
    alloc: Global,
    keeper: &mut K,
    request: &Request,
    watch: &W,
) -> Answer
    ensures desk { IsReplyTo (K.tables keeper.old) request.now (K.tables keeper.new) result }
    ensures place { (K.course keeper.new).place ≡ (K.course keeper.old).place }
    ensures fault { HasFault (FailsInTurn (K.tables keeper.old) request.now.keys (K.course keeper.old) (K.course keeper.new)) (K.faults keeper.old) (K.faults keeper.new) result.status }
{
    match keeper.load(alloc) {
        Ok(tables) => {
            tables.facts();
            reply_over(rt, alloc, keeper, &tables, request, watch)
        }
        Err(KeeperStop::Failed) => Answer::refused(Refusal::Unavailable),
        Err(KeeperStop::OutOfMemory) => Answer::refused(Refusal::OutOfMemory),
    }
}

/// Returns the reply to a request over tables that were loaded.
fn reply_over<R: Threads + Sync, K: Keeper, W: Watch + Sync>(
    rt: &R,
    alloc: Global,
    keeper: &mut K,
    tables: &Tables,
    request: &Request,
    watch: &W,
) -> Answer
    requires { IsLoaded (K.tables keeper.old) tables.now }
    ensures desk { IsReplyTo (K.tables keeper.old) request.now (K.tables keeper.new) result }
    ensures place { (K.course keeper.new).place ≡ (K.course keeper.old).place }
    ensures fault { HasFault (FailsToStore tables.now request.now.keys (K.course keeper.old) (K.course keeper.new)) (K.faults keeper.old) (K.faults keeper.new) result.status }
{
    match page_of(alloc, request.path()) {
        Ok(page) => reply_on(rt, alloc, keeper, tables, page, request, watch),
        Err(_) => Answer::refused(Refusal::OutOfMemory),
    }
}

/// Returns the reply to a request for this page over tables that were loaded.
fn reply_on<R: Threads + Sync, K: Keeper, W: Watch + Sync>(
    rt: &R,
    alloc: Global,
    keeper: &mut K,
    tables: &Tables,
    page: Option<Page>,
    request: &Request,
    watch: &W,
) -> Answer
    requires loaded { IsLoaded (K.tables keeper.old) tables.now }
    requires page { page ≡ option_and_then seen_page (page_named request.now.path) }
    ensures desk { IsReplyTo (K.tables keeper.old) request.now (K.tables keeper.new) result }
    ensures place { (K.course keeper.new).place ≡ (K.course keeper.old).place }
    ensures fault { HasFault (FailsToStore tables.now request.now.keys (K.course keeper.old) (K.course keeper.new)) (K.faults keeper.old) (K.faults keeper.new) result.status }
{
    match page {
        Some(Page::Withdrawal) => withdrawal_answer(rt, alloc, keeper, tables, request, watch),
        Some(Page::Own(page)) => or_short(own_page_answer(alloc, tables, page, request)),
        Some(Page::Bundle { round }) => or_short(bundle_answer(alloc, tables, round, request)),
        Some(Page::Draw { round }) => or_short(draw_answer(alloc, tables, round, request)),
        None => Answer::refused(Refusal::NotFound),
    }
}

/// Returns the answer, or if memory ran out, the reply that says so.
fn or_short(made: Result<Answer, AllocError>) -> Answer
    ensures { (reply : Reply) → IfOk made (λ answer. answer ≡ sent_of reply) → IsSentFor reply result }
{
    match made {
        Ok(answer) => answer,
        Err(_) => Answer::refused(Refusal::OutOfMemory),
    }
}

/// Returns the reply to a request if memory ran out while the request was read.
pub fn unwell() -> Answer
    ensures { result ≡ sent_of out_of_memory }
{
    Answer::refused(Refusal::OutOfMemory)
}
