//! The command `lottery --share`: as `lottery`, but the workers of a pricing share a bound.

ghost use Rattle.std.specs.Prelude.{IfOk};
ghost use Rattle.std.specs.Thread.{IsSync};
ghost use Rattle.command_shell.specs.Answers.{IsRight, status_number, saying};
ghost use Rattle.command_shell.specs.Formats.{pool_format};
ghost use Rattle.command_shell.specs.Outcomes.{TextOutcome};
ghost use Rattle.command_shell.specs.Subjects.{About};
ghost use Rattle.command_shell.specs.Told.{object, told};
ghost use Rattle.command_meanings.specs.Sharing.{SharedLotteryMeans};

use crate::lottery::stop_answer;
use bundle_text::write_bundle;
use command_shell::{Answer, Meaning, Printed, Resources, Status, call_answered_by, no_panel};
use define_runs::Workers;
use laws_of_runs::no_panel_where_none;
use leximin_run::{Limits, Solved, solve_sharing};
use outside::{Sink, Source, Watch};
use pool_model::Pool;
use std::alloc::{AllocError, Global};
use std::thread::Threads;

/// `lottery --share`: the leximin greatest lottery over the quota panels of a pool, with its certificate, as the run finds it whose workers
/// share a bound. More than one answer may be right, if a pricing may spend its budget.
#[derive(Clone, Copy, Debug)]
pub struct SharedLottery {
    /// How wide the run's numbers may be, and how many pivots and visits it may make.
    pub limits: Limits,
    /// How many workers price, on threads, and share a bound.
    pub workers: Workers,
}

impl Meaning for SharedLottery {
    type About = Pool;

    ghost use Rattle.command_shell.specs.Answers.{IsRight};
    ghost use Rattle.command_meanings.specs.Sharing.{SharedLotteryMeans};

    ghost means = { λ command pool. IsRight (SharedLotteryMeans command.limits pool) };
}

/// Makes one call of `lottery --share`. A closure answers it, since the run starts threads, which a method of a trait can't do.
pub fn call_shared_lottery<R: Threads + Sync, W: Watch + Sync, S: Source, O: Sink, E: Sink>(
    resources: &Resources<'_, R, W>,
    command: &SharedLottery,
    source: &mut S,
    out: &mut O,
    errs: &mut E,
) -> Status
    ensures { TextOutcome (About pool_format (λ pool. IsRight (SharedLotteryMeans command.now.limits pool))) (told (status_number result)
        (object (S.left source.old) (S.left source.new) (S.faults source.old) (S.faults source.new))
        (object (O.written out.old) (O.written out.new) (O.faults out.old) (O.faults out.new))
        (object (E.written errs.old) (E.written errs.new) (E.faults errs.old) (E.faults errs.new))) }
{
    // As in `call_lottery`, the resources are taken apart before the closure.
    let Resources { rt, alloc, watch } = *resources;
    call_answered_by(
        alloc,
        command,
        |pool: &Pool| -> Result<Answer, AllocError>
            requires { IsSync R.row × IsSync W.row }
            ensures { IfOk result (λ answer. IsRight (SharedLotteryMeans command.entry.now.limits pool.now) (saying answer)) }
        { answered(&Resources { rt, alloc, watch }, command, pool) },
        source,
        out,
        errs,
    )
}

/// Runs over `pool`, and returns an answer that is right for how the run ends.
fn answered<R: Threads + Sync, W: Watch + Sync>(
    resources: &Resources<'_, R, W>,
    command: &SharedLottery,
    pool: &Pool,
) -> Result<Answer, AllocError>
    ensures { IfOk result (λ answer. IsRight (SharedLotteryMeans command.now.limits pool.now) (saying answer)) }
{
    no_panel_where_none();
    let Resources { rt, alloc, watch } = *resources;
    let limits = command.limits;
    let workers = command.workers.number();
    match solve_sharing(rt, alloc, pool, limits, workers, watch) {
        Ok(Solved::Found(answer)) => Ok(Answer::Prints {
            printed: Printed::Done,
            text: write_bundle(alloc, pool, &answer)?,
        }),
        Ok(Solved::NoPanel) => no_panel(alloc),
        Err(stop) => stop_answer(alloc, limits, &stop),
    }
}
