//! The top call: `office`. Its contract is the promise of the whole program.

ghost use Rattle.std.specs.Prelude.{map, string_bytes, Some};
ghost use Rattle.command_shell.specs.Told.{object, told};
ghost use Rattle.command_shell.specs.Answers.{status_number};
ghost use Rattle.command_stores.specs.StoreTold.{keeper_told, store_told};
ghost use Rattle.command_desk.specs.DeskTold.{NoMoreBack, desk_told, door_told, ports};
ghost use Rattle.command_desk.specs.LinksRead.{LinksAreReadAsNeeded};
ghost use Rattle.office_http.specs.Visits.{link_told};
ghost use Rattle.command_office.specs.Office.{EndsRightly, OfficeIsRight};
ghost use Rattle.command_office.specs.Headline.{Headline};

use crate::asked::{Asked, read_asked};
use crate::steps::command_of;
use command_desk::call_serve;
use command_pools::{call_legs, call_lottery, call_make, call_shared_lottery};
use command_proofs::call_prove;
use command_shell::{Resources, Status, call, refuse_words, want_memory};
use command_stores::{call_import, call_prove_round, call_step, call_text};
use command_words::WordsStop;
use office_core::Keeper;
use outside::{Door, Sink, Source, Watch};
use std::alloc::Global;
use std::thread::Threads;

/// Makes one call of the program, and returns the program's status. `words` don't include the program's name.
///
/// The clause `right` says for each list of words what each status means, and what `out` and `errs` gained; `promises` says what follows
/// from it on one page. `needed` says that no link is read more than its visit needs, so nothing more is read from a client that has asked
/// and keeps the link open.
///
/// If the door tells its links, the caller must show that no more links came back to it than it gave. A new door has given none.
///
/// For `lottery`, `legs`, `make` and `solve`, workers search the pieces of a pricing on threads, and `watch` is told of each piece as it starts,
/// also of the one worker of `prove`. No answer depends on the workers or the watch, except that of `lottery --share` where a pricing of
/// `lottery` spends its budget.
#[tactic(auto, using(crate::proofs::Kept::keeps))]
pub fn office<R: Threads + Sync, S: Source, O: Sink, E: Sink, K: Keeper, D: Door, W: Watch + Sync>(
    rt: &R,
    alloc: Global,
    words: &[String],
    source: &mut S,
    out: &mut O,
    errs: &mut E,
    keeper: &mut K,
    door: &mut D,
    watch: &W,
) -> u8
    requires { NoMoreBack (D.links door.old) }
    ensures right { OfficeIsRight (map string_bytes words.now) (desk_told (store_told
        (told result
        (object (S.left source.old) (S.left source.new) (S.faults source.old) (S.faults source.new))
        (object (O.written out.old) (O.written out.new) (O.faults out.old) (O.faults out.new))
        (object (E.written errs.old) (E.written errs.new) (E.faults errs.old) (E.faults errs.new)))
        (keeper_told (object (K.tables keeper.old) (K.tables keeper.new) (K.faults keeper.old) (K.faults keeper.new)) (K.course keeper.old) (K.course keeper.new)))
        (door_told (λ link. link_told (D.Link.left link) (D.Link.written link) (D.Link.faults link))
        (D.links door.old) (D.links door.new) (D.faults door.old) (D.faults door.new))
        (ports (D.opened_at door.old) (D.opened_at door.new) (D.calls door.old) (D.calls door.new))) }
    ensures promises { Headline (map string_bytes words.now) (desk_told (store_told
        (told result
        (object (S.left source.old) (S.left source.new) (S.faults source.old) (S.faults source.new))
        (object (O.written out.old) (O.written out.new) (O.faults out.old) (O.faults out.new))
        (object (E.written errs.old) (E.written errs.new) (E.faults errs.old) (E.faults errs.new)))
        (keeper_told (object (K.tables keeper.old) (K.tables keeper.new) (K.faults keeper.old) (K.faults keeper.new)) (K.course keeper.old) (K.course keeper.new)))
        (door_told (λ link. link_told (D.Link.left link) (D.Link.written link) (D.Link.faults link))
        (D.links door.old) (D.links door.new) (D.faults door.old) (D.faults door.new))
        (ports (D.opened_at door.old) (D.opened_at door.new) (D.calls door.old) (D.calls door.new))) }
    ensures needed { LinksAreReadAsNeeded D.Link.left D.Link.reads (D.links door.old) (D.links door.new) }
{
    match read_asked(alloc, words) {
        Ok(asked) => {
            let resources = Resources { rt, alloc, watch };
            run(&resources, asked, source, out, errs, keeper, door).number()
        }
        Err(WordsStop::Usage(text)) => refuse_words(errs, text.as_bytes()).number(),
        Err(WordsStop::OutOfMemory) => want_memory(errs).number(),
    }
}

/// Makes one call of the command that the words ask for.
fn run<R: Threads + Sync, W: Watch + Sync, S: Source, O: Sink, E: Sink, K: Keeper, D: Door>(
    resources: &Resources<'_, R, W>,
    asked: Asked<'_>,
    source: &mut S,
    out: &mut O,
    errs: &mut E,
    keeper: &mut K,
    door: &mut D,
) -> Status
    requires { NoMoreBack (D.links door.old) }
    ensures right { EndsRightly (Some asked.entry) (desk_told (store_told
        (told (status_number result)
        (object (S.left source.old) (S.left source.new) (S.faults source.old) (S.faults source.new))
        (object (O.written out.old) (O.written out.new) (O.faults out.old) (O.faults out.new))
        (object (E.written errs.old) (E.written errs.new) (E.faults errs.old) (E.faults errs.new)))
        (keeper_told (object (K.tables keeper.old) (K.tables keeper.new) (K.faults keeper.old) (K.faults keeper.new)) (K.course keeper.old) (K.course keeper.new)))
        (door_told (λ link. link_told (D.Link.left link) (D.Link.written link) (D.Link.faults link))
        (D.links door.old) (D.links door.new) (D.faults door.old) (D.faults door.new))
        (ports (D.opened_at door.old) (D.opened_at door.new) (D.calls door.old) (D.calls door.new))) }
    ensures needed { LinksAreReadAsNeeded D.Link.left D.Link.reads (D.links door.old) (D.links door.new) }
{
    let alloc = resources.alloc;
    match asked {
        Asked::Text(command) => call(alloc, &command, source, out, errs),
        Asked::Prove(prove) => call_prove(resources, &prove, source, out, errs),
        Asked::Lottery(lottery) => call_lottery(resources, &lottery, source, out, errs),
        Asked::SharedLottery(lottery) => {
            call_shared_lottery(resources, &lottery, source, out, errs)
        }
        Asked::Legs(legs) => call_legs(resources, &legs, source, out, errs),
        Asked::Make(make) => call_make(resources, &make, out, errs),
        Asked::Step { store, step } => match command_of(alloc, &step) {
            Ok(command) => call_step(resources, &command, store.as_str(), keeper, out, errs),
            Err(_) => want_memory(errs),
        },
        Asked::Import { store, import } => {
            let path = store.as_str();
            call_import(resources, import, path, source, keeper, out, errs)
        }
        Asked::ProveRound { store, proving } => {
            call_prove_round(resources, proving, store.as_str(), keeper, out, errs)
        }
        Asked::StoreText { store, text } => {
            call_text(alloc, text, store.as_str(), keeper, out, errs)
        }
        Asked::Serve { store, serve } => {
            call_serve(resources, serve, store.as_str(), keeper, door, out, errs)
        }
    }
}
