//! The command `legs`: the legs of the run over a pool, each with the bound of its pivots.

ghost use Rattle.std.specs.Prelude.{◌≡◌, ◌≤◌, IfOk, length};
ghost use Rattle.std.specs.Thread.{IsSync};
ghost use Rattle.command_shell.specs.Answers.{IsRight, IsTheAnswer, status_number, saying};
ghost use Rattle.command_shell.specs.Formats.{pool_format};
ghost use Rattle.command_shell.specs.Outcomes.{TextOutcome};
ghost use Rattle.command_shell.specs.Subjects.{About};
ghost use Rattle.command_shell.specs.Told.{object, told};
ghost use Rattle.command_meanings.specs.Legs.{LegsMeans, class_count};

use crate::lottery::stop_answer;
use alike::classes;
use command_meanings::legs_has_one_answer;
use command_shell::{Answer, Meaning, Printed, Resources, Status, call_answered_by, no_panel};
use define_runs::Workers;
use laws_of_runs::no_panel_where_none;
use leximin_run::{Limits, SolvedTraced, solve_traced};
use office_reports::legs_text;
use outside::{Sink, Source, Watch};
use pool_model::Pool;
use std::alloc::{AllocError, Global};
use std::thread::Threads;

/// `legs`: the legs of the run that finds a pool's lottery, each with the bound of its pivots.
#[derive(Clone, Copy, Debug)]
pub struct Legs {
    /// How wide the run's numbers may be, and how many pivots and visits it may make.
    pub limits: Limits,
    /// How many workers price, on threads. The answer doesn't depend on it.
    pub workers: Workers,
}

impl Meaning for Legs {
    type About = Pool;

    ghost use Rattle.command_shell.specs.Answers.{IsTheAnswer};
    ghost use Rattle.command_meanings.specs.Legs.{LegsMeans};

    ghost means = { λ command pool. IsTheAnswer (LegsMeans command.limits pool) };
}

/// Makes one call of `legs`. A closure answers it, since the run starts threads, which a method of a trait can't do.
pub fn call_legs<R: Threads + Sync, W: Watch + Sync, S: Source, O: Sink, E: Sink>(
    resources: &Resources<'_, R, W>,
    command: &Legs,
    source: &mut S,
    out: &mut O,
    errs: &mut E,
) -> Status
    ensures { TextOutcome (About pool_format (λ pool. IsTheAnswer (LegsMeans command.now.limits pool))) (told (status_number result)
        (object (S.left source.old) (S.left source.new) (S.faults source.old) (S.faults source.new))
        (object (O.written out.old) (O.written out.new) (O.faults out.old) (O.faults out.new))
        (object (E.written errs.old) (E.written errs.new) (E.faults errs.old) (E.faults errs.new))) }
{
    let Resources { rt, alloc, watch } = *resources;
    call_answered_by(
        alloc,
        command,
        |pool: &Pool| -> Result<Answer, AllocError>
            requires { IsSync R.row × IsSync W.row }
            ensures { IfOk result (λ answer. IsTheAnswer (LegsMeans command.entry.now.limits pool.now) (saying answer)) }
        { answered(&Resources { rt, alloc, watch }, command, pool) },
        source,
        out,
        errs,
    )
}

/// Returns the one right answer of `legs` about `pool`.
fn answered<R: Threads + Sync, W: Watch + Sync>(
    resources: &Resources<'_, R, W>,
    command: &Legs,
    pool: &Pool,
) -> Result<Answer, AllocError>
    ensures { IfOk result (λ answer. IsTheAnswer (LegsMeans command.now.limits pool.now) (saying answer)) }
{
    legs_has_one_answer();
    traced(resources, command.limits, command.workers, pool)
}

/// Runs over `pool`, and returns an answer that is right for how the run ends. `answered` adds that no other is.
fn traced<R: Threads + Sync, W: Watch + Sync>(
    resources: &Resources<'_, R, W>,
    limits: Limits,
    workers: Workers,
    pool: &Pool,
) -> Result<Answer, AllocError>
    ensures { IfOk result (λ answer. IsRight (LegsMeans limits pool.now) (saying answer)) }
{
    no_panel_where_none();
    let Resources { rt, alloc, watch } = *resources;
    match solve_traced(rt, alloc, pool, limits, workers.number(), watch) {
        Ok(SolvedTraced::Found(_, legs)) => Ok(Answer::Prints {
            printed: Printed::Done,
            text: legs_text(alloc, class_count(alloc, pool)?, &legs)?.into_bytes(),
        }),
        Ok(SolvedTraced::NoPanel) => no_panel(alloc),
        Err(stop) => stop_answer(alloc, limits, &stop),
    }
}

/// Returns how many classes the pool has.
fn class_count(alloc: Global, pool: &Pool) -> Result<usize, AllocError>
    ensures { IfOk result (λ count. count ≡ class_count pool.now) }
{
    let classes = classes(alloc, pool)?;
    Ok(classes.classes().len())
}
