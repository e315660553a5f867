//! The command `make`: the summary of the run over a pool that is made from a seed and a number of volunteers.

ghost use Rattle.std.specs.Prelude.{◌≡◌, ◌≤◌, ◌&&◌, ℕ, if◌then◌else◌, nat_le, None, Some, IfOk};
ghost use Rattle.std.specs.Thread.{IsSync};
ghost use Rattle.command_shell.specs.Answers.{IsRight, IsTheAnswer, status_number, saying};
ghost use Rattle.command_shell.specs.Outcomes.{SilentOutcome};
ghost use Rattle.command_shell.specs.Told.{Bytes, IsUntouched, object, told};
ghost use Rattle.command_meanings.specs.Make.{MakeMeans};

use crate::lottery::stop_answer;
use command_meanings::make_has_one_answer;
use command_shell::{Answer, Meaning, Nothing, Printed, Resources, Status, call_silent, no_panel};
use define_runs::Workers;
use laws_of_runs::no_panel_where_none;
use leximin_run::{Limits, SolvedSized, solve_sized};
use office_reports::{made_pool, run_summary};
use outside::{Sink, Watch};
use std::alloc::AllocError;
use std::marker::Model;
use std::thread::Threads;

/// The fewest volunteers that a made pool may have.
const LEAST_VOLUNTEERS: u32 = 1;

/// The most volunteers that a made pool may have.
const MOST_VOLUNTEERS: u32 = 400;

/// `make`: the summary of the run over the pool that is made from a seed and a number of volunteers. It reads nothing.
#[derive(Clone, Copy, Debug)]
pub struct Make {
    /// The number from which the pool is made.
    pub seed: u64,
    /// How many volunteers the pool has, from 1 to 400.
    pub volunteers: Volunteers,
    /// How wide the run's numbers may be, and how many pivots and visits it may make.
    pub limits: Limits,
    /// How many workers price, on threads. The answer doesn't depend on it.
    pub workers: Workers,
}

/// How many volunteers a made pool has: from 1 to 400.
#[derive(Clone, Copy, Debug)]
pub struct Volunteers {
    number: u32,
}

impl Model for Volunteers {
    ghost use Rattle.std.specs.Prelude.{ℕ, ◌≤◌};

    ghost Value = { ℕ };

    ghost view = { λ it. it.number };

    ghost invariant = { λ it. (1 ≤ it.number) × (it.number ≤ 400) };

    ghost inverse = { λ number. record { number = number } };
}

impl Volunteers {
    /// Returns `number` as a number of volunteers, or None if it is not from 1 to 400.
    pub fn new(number: u64) -> Option<Volunteers>
        ensures { result ≡ (if nat_le 1 number && nat_le number 400 then Some number else None) }
    {
        let number = u32::try_from(number).ok()?;
        if LEAST_VOLUNTEERS <= number && number <= MOST_VOLUNTEERS {
            Some(Volunteers { number })
        } else {
            None
        }
    }

    fn number(self) -> u32
        ensures value { result ≡ self }
        ensures some { 1 ≤ self }
        ensures few { self ≤ 400 }
    {
        self.number
    }
}

impl Meaning for Make {
    type About = Nothing;

    ghost use Rattle.command_shell.specs.Answers.{IsTheAnswer};
    ghost use Rattle.command_meanings.specs.Make.{MakeMeans};

    ghost means = { λ command nothing. IsTheAnswer (MakeMeans command.seed command.volunteers command.limits) };
}

/// Makes one call of `make`. A closure answers it, since the run starts threads, which a method of a trait can't do.
pub fn call_make<R: Threads + Sync, W: Watch + Sync, O: Sink, E: Sink>(
    resources: &Resources<'_, R, W>,
    command: &Make,
    out: &mut O,
    errs: &mut E,
) -> Status
    ensures { (source : Bytes) → IsUntouched source → SilentOutcome (IsTheAnswer (MakeMeans command.now.seed command.now.volunteers command.now.limits)) (told (status_number result) source
        (object (O.written out.old) (O.written out.new) (O.faults out.old) (O.faults out.new))
        (object (E.written errs.old) (E.written errs.new) (E.faults errs.old) (E.faults errs.new))) }
{
    let Resources { rt, alloc, watch } = *resources;
    call_silent(
        command,
        || -> Result<Answer, AllocError>
            requires { IsSync R.row × IsSync W.row }
            ensures { IfOk result (λ answer. IsTheAnswer (MakeMeans command.entry.now.seed command.entry.now.volunteers command.entry.now.limits) (saying answer)) }
        { answered(&Resources { rt, alloc, watch }, command) },
        out,
        errs,
    )
}

/// Returns the one right answer of `make`.
fn answered<R: Threads + Sync, W: Watch + Sync>(
    resources: &Resources<'_, R, W>,
    made: &Make,
) -> Result<Answer, AllocError>
    ensures { IfOk result (λ answer. IsTheAnswer (MakeMeans made.now.seed made.now.volunteers made.now.limits) (saying answer)) }
{
    make_has_one_answer();
    made_summary(resources, made)
}

/// Runs over the made pool, and returns an answer that is right for how the run ends. `answered` adds that no other is.
fn made_summary<R: Threads + Sync, W: Watch + Sync>(
    resources: &Resources<'_, R, W>,
    made: &Make,
) -> Result<Answer, AllocError>
    ensures { IfOk result (λ answer. IsRight (MakeMeans made.now.seed made.now.volunteers made.now.limits) (saying answer)) }
{
    no_panel_where_none();
    let Resources { rt, alloc, watch } = *resources;
    let pool = made_pool(alloc, made.seed, made.volunteers.number())?;
    let workers = made.workers.number();
    match solve_sized(rt, alloc, &pool, made.limits, workers, watch) {
        Ok(SolvedSized::Found(answer, sizes)) => Ok(Answer::Prints {
            printed: Printed::Done,
            text: run_summary(alloc, &pool, &answer, &sizes)?.into_bytes(),
        }),
        Ok(SolvedSized::NoPanel) => no_panel(alloc),
        Err(stop) => stop_answer(alloc, made.limits, &stop),
    }
}
