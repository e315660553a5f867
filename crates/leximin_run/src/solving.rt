//! The whole run, from a pool to an answer.

ghost use Rattle.std.specs.Prelude.{◌≡◌, ◌≤◌, ◌<◌, false, Some, IfErr, IfOk, [], length, slice_index_or};
ghost use Rattle.leximin_run.specs.Advancing.{HoldsFrom, Reaches};
ghost use Rattle.leximin_run.specs.Tracing.{ReachesWithLegs};
ghost use Rattle.leximin_run.specs.Answers.{HasShortLegs, HasSomeClass, IsCertified, KeepsEnding, KeepsRanges, SpendsBelowLegs, TellsEnding, TellsOutcome, TellsRun, TellsSharing, TellsSized, TellsTraced, sizes_in, solved_of, stop_of, traced_of, unsized, untraced};
ghost use Rattle.define_runs.specs.Run.{parts_of, run_limits};
ghost use Rattle.define_rows.specs.InOrder.{settled_count};
ghost use Rattle.define_searches.specs.Classes.{classes_of};
ghost use Rattle.define_searches.specs.Compositions.{first_composition};
ghost use Rattle.define_searches.specs.Fronts.{sizes_of};
ghost use Rattle.define_searches.specs.Visits.{first_search};

use crate::certifying::certificate;
use crate::running::{Refusal, Run};
use crate::stops::{At, Outcome, Solved, SolvedSized, SolvedTraced, Stop};
use crate::tracing::Counts;
use alike::{Classes, Composition, SpreadStop, classes, spread};
use define_legs::Leg;
use define_runs::{Limits, RunSizes};
use exact_table::{Table, TableStop};
use frac128::Frac;
use outside::Watch;
use panel_search::{Pricer, SearchStop, first};
use pool_model::{Answer, Pool};
use std::alloc::{AllocError, Global};
use std::thread::Threads;

/// Runs over a pool under limits. Returns the lottery with its certificate, or that the pool has no quota panel. If a lottery is found, it
/// is leximin greatest, and its stages certify it. Fails with the reason why the run stops, and the table at which it stops, if there is
/// one; or with `OutOfMemory`, at any time. From 1 to 64 workers price, and the watch is told when a piece of work starts; the answer
/// depends on neither.
pub fn solve<R: Threads + Sync, W: Watch + Sync>(
    rt: &R,
    alloc: Global,
    pool: &Pool,
    limits: Limits,
    workers: u32,
    watch: &W,
) -> Result<Solved, Stop>
    requires some_worker { 1 ≤ workers }
    requires few_workers { workers ≤ 64 }
    ensures run { TellsEnding (classes_of pool.now) (run_limits limits) result }
    ensures certified { IsCertified pool.now result }
    // A lottery that is found is in the ranges of a bundle, so it can be put into one.
    ensures ranges { KeepsRanges pool.now result }
    // A budget of pivots that is at least the bound of the run's legs is never spent.
    ensures spent { IfErr result (SpendsBelowLegs (classes_of pool.now) (run_limits limits)) }
{
    match outcome(rt, alloc, pool, limits, workers, watch) {
        Ok(Outcome::Found(answer, _, _)) => Ok(Solved::Found(answer)),
        Ok(Outcome::NoPanel) => Ok(Solved::NoPanel),
        Err(stop) => Err(stop),
    }
}

/// Makes the run of `solve` with workers that share a bound, so that a piece of a pricing also profits from what the others have found. A
/// pricing may then make fewer visits than `solve` would make, so the run may go on where `solve` stops because a pricing needs more visits
/// than its budget. When the workers run decides whether it does. So the answer is that of the run whose pricings may make any number of
/// visits; or it is that a pricing spends its budget, at a table of that run at which the visits of `solve` exceed the budget. If no pricing
/// of `solve` spends its budget, the answer is that of `solve`.
pub fn solve_sharing<R: Threads + Sync, W: Watch + Sync>(
    rt: &R,
    alloc: Global,
    pool: &Pool,
    limits: Limits,
    workers: u32,
    watch: &W,
) -> Result<Solved, Stop>
    requires some_worker { 1 ≤ workers }
    requires few_workers { workers ≤ 64 }
    ensures run { TellsSharing (classes_of pool.now) (run_limits limits) result }
    // If no pricing of `solve` spends its budget, the answer is that of `solve`.
    ensures same { KeepsEnding (classes_of pool.now) (run_limits limits) result }
    ensures certified { IsCertified pool.now result }
    ensures ranges { KeepsRanges pool.now result }
{
    match shared_outcome(rt, alloc, pool, limits, workers, watch) {
        Ok(Outcome::Found(answer, _, _)) => Ok(Solved::Found(answer)),
        Ok(Outcome::NoPanel) => Ok(Solved::NoPanel),
        Err(stop) => Err(stop),
    }
}

/// Makes the run of `solve`. If it finds a lottery, it also returns the sizes of its last table.
pub fn solve_sized<R: Threads + Sync, W: Watch + Sync>(
    rt: &R,
    alloc: Global,
    pool: &Pool,
    limits: Limits,
    workers: u32,
    watch: &W,
) -> Result<SolvedSized, Stop>
    requires some_worker { 1 ≤ workers }
    requires few_workers { workers ≤ 64 }
    ensures run { TellsSized (classes_of pool.now) (run_limits limits) result }
    ensures certified { IsCertified pool.now (unsized result) }
    ensures ranges { KeepsRanges pool.now (unsized result) }
    ensures spent { IfErr result (SpendsBelowLegs (classes_of pool.now) (run_limits limits)) }
{
    match outcome(rt, alloc, pool, limits, workers, watch) {
        Ok(Outcome::Found(answer, sizes, _)) => Ok(SolvedSized::Found(answer, sizes)),
        Ok(Outcome::NoPanel) => Ok(SolvedSized::NoPanel),
        Err(stop) => Err(stop),
    }
}

/// Makes the run of `solve`. If it finds a lottery, it also returns the legs of the run. In each leg Bland's rule made fewer pivots than
/// there are sets of variables that could be basic.
pub fn solve_traced<R: Threads + Sync, W: Watch + Sync>(
    rt: &R,
    alloc: Global,
    pool: &Pool,
    limits: Limits,
    workers: u32,
    watch: &W,
) -> Result<SolvedTraced, Stop>
    requires some_worker { 1 ≤ workers }
    requires few_workers { workers ≤ 64 }
    ensures run { TellsTraced (classes_of pool.now) (run_limits limits) result }
    ensures certified { IsCertified pool.now (untraced result) }
    ensures ranges { KeepsRanges pool.now (untraced result) }
    ensures short { HasShortLegs (classes_of pool.now) result }
    ensures some { HasSomeClass (classes_of pool.now) result }
    ensures spent { IfErr result (SpendsBelowLegs (classes_of pool.now) (run_limits limits)) }
{
    match outcome(rt, alloc, pool, limits, workers, watch) {
        Ok(Outcome::Found(answer, _, legs)) => Ok(SolvedTraced::Found(answer, legs)),
        Ok(Outcome::NoPanel) => Ok(SolvedTraced::NoPanel),
        Err(stop) => Err(stop),
    }
}

// Makes the run, and returns all that is told of it.
fn outcome<R: Threads + Sync, W: Watch + Sync>(
    rt: &R,
    alloc: Global,
    pool: &Pool,
    limits: Limits,
    workers: u32,
    watch: &W,
) -> Result<Outcome, Stop>
    requires some_worker { 1 ≤ workers }
    requires few_workers { workers ≤ 64 }
    ensures run { TellsOutcome (classes_of pool.now) (run_limits limits) result }
    ensures certified { IsCertified pool.now (solved_of result) }
    ensures ranges { KeepsRanges pool.now (solved_of result) }
    ensures short { HasShortLegs (classes_of pool.now) (traced_of result) }
    ensures some { HasSomeClass (classes_of pool.now) (traced_of result) }
    ensures spent { IfErr result (SpendsBelowLegs (classes_of pool.now) (run_limits limits)) }
{
    pool.facts();
    let _ = limits.bits();
    run(rt, alloc, pool, limits, workers, watch, false)
}

// Makes the run with workers that share a bound.
fn shared_outcome<R: Threads + Sync, W: Watch + Sync>(
    rt: &R,
    alloc: Global,
    pool: &Pool,
    limits: Limits,
    workers: u32,
    watch: &W,
) -> Result<Outcome, Stop>
    requires some_worker { 1 ≤ workers }
    requires few_workers { workers ≤ 64 }
    ensures run { TellsSharing (classes_of pool.now) (run_limits limits) (solved_of result) }
    ensures same { KeepsEnding (classes_of pool.now) (run_limits limits) (solved_of result) }
    ensures certified { IsCertified pool.now (solved_of result) }
    ensures ranges { KeepsRanges pool.now (solved_of result) }
{
    pool.facts();
    let _ = limits.bits();
    run(rt, alloc, pool, limits, workers, watch, true)
}

// Makes the run over the pool's classes. If `share` is true, the workers of a pricing share a bound.
fn run<R: Threads + Sync, W: Watch + Sync>(
    rt: &R,
    alloc: Global,
    pool: &Pool,
    limits: Limits,
    workers: u32,
    watch: &W,
    share: bool,
) -> Result<Outcome, Stop>
    requires some_worker { 1 ≤ workers }
    requires few_workers { workers ≤ 64 }
    ensures { TellsRun share (classes_of pool.now) (run_limits limits) result }
{
    let classes = classes(alloc, pool)?;
    match first(alloc, &classes, limits.nodes()) {
        Ok(Some(composition)) => begin(
            rt,
            alloc,
            &classes,
            limits,
            composition,
            workers,
            watch,
            share,
        ),
        Ok(None) => Ok(Outcome::NoPanel),
        Err(SearchStop::Spent) => Err(Stop::NodesSpent(At::Opening)),
        Err(SearchStop::OutOfMemory) => Err(Stop::OutOfMemory),
    }
}

// Makes the rest of the run, after the opening search found `composition`.
fn begin<R: Threads + Sync, W: Watch + Sync>(
    rt: &R,
    alloc: Global,
    classes: &Classes,
    limits: Limits,
    composition: Composition,
    workers: u32,
    watch: &W,
    share: bool,
) -> Result<Outcome, Stop>
    requires within { (first_search classes.now).visits ≤ limits.nodes }
    requires first { first_composition classes.now ≡ Some composition }
    requires some_worker { 1 ≤ workers }
    requires few_workers { workers ≤ 64 }
    ensures { TellsRun share classes.now (run_limits limits) result }
{
    classes.facts();
    let sizes = sizes(alloc, classes)?;
    match Table::start(alloc, &sizes, composition, limits.bits()) {
        Ok(table) => finish(
            rt,
            alloc,
            Run {
                share,
                limits,
                table,
                pricer: Pricer::new(alloc, classes),
            },
            workers,
            watch,
        ),
        Err(TableStop::Pass(pass)) => Err(Stop::TooWide(At::Opening, pass)),
        Err(TableStop::OutOfMemory) => Err(Stop::OutOfMemory),
    }
}

// Returns the size of each class.
fn sizes(alloc: Global, classes: &Classes) -> Result<Vec<usize>, AllocError>
    ensures { IfOk result (λ sizes. sizes.items ≡ sizes_of classes.now) }
{
    classes
        .classes()
        .iter()
        .map(|class| class.size())
        .collect(alloc)
}

// Makes steps until everybody is settled or a step is refused, and returns the answer or the stop.
fn finish<R: Threads + Sync, W: Watch + Sync>(
    rt: &R,
    alloc: Global,
    mut run: Run<'_>,
    workers: u32,
    watch: &W,
) -> Result<Outcome, Stop>
    requires some_worker { 1 ≤ workers }
    requires few_workers { workers ≤ 64 }
    requires legs { HoldsFrom run.share (run_limits run.limits) (λ free. ReachesWithLegs run.pricer.classes free run.table []) }
    requires reached { Reaches run.share run.pricer.classes (run_limits run.limits) run.table run.pricer.closed }
    ensures { TellsRun run.entry.share run.entry.pricer.classes (run_limits run.entry.limits) result }
{
    let mut legs = Vec::new(alloc);
    loop {
        let before = Counts::of(&run.table);
        match run.advance(rt, alloc, workers, watch) {
            Ok(true) => before.count_step(&mut legs, &run.table)?,
            Ok(false) => return answer(alloc, run, legs),
            Err(refusal) => return Err(stop(run, refusal)),
        }
    }
}

// Returns why the run stops when a step is refused, with its table.
fn stop(run: Run<'_>, refusal: Refusal) -> Stop
    ensures { result ≡ stop_of run.entry.table refusal }
{
    let at = At::Table(run.table);
    match refusal {
        Refusal::Wide(pass) => Stop::TooWide(at, pass),
        Refusal::NoPivot => Stop::PivotsSpent(at),
        Refusal::NoVisit => Stop::NodesSpent(at),
        Refusal::NoMemory => Stop::OutOfMemory,
    }
}

// Makes the answer once everybody is settled: spreads the columns of positive value, and makes the certificate of the closed rows.
fn answer(alloc: Global, run: Run<'_>, legs: Vec<Leg>) -> Result<Outcome, Stop>
    requires legs { HoldsFrom run.share (run_limits run.limits) (λ free. ReachesWithLegs run.pricer.classes free run.table legs.items) }
    requires reached { Reaches run.share run.pricer.classes (run_limits run.limits) run.table run.pricer.closed }
    requires shut { run.table.in_stage ≡ false }
    requires settled { length run.table.sizes ≤ settled_count run.table }
    ensures { TellsRun run.entry.share run.entry.pricer.classes (run_limits run.entry.limits) result }
{
    let parts = parts(alloc, &run.table)?;
    let classes = run.pricer.classes();
    let certificate = certificate(alloc, classes, run.pricer.closed())?;
    match spread(alloc, classes, &parts) {
        Ok(lottery) => Ok(Outcome::Found(
            Answer::new(lottery, certificate),
            sizes_of(&run.table),
            legs,
        )),
        Err(SpreadStop::TotalPasses { place, total, den }) => {
            Err(Stop::TotalPasses(At::Table(run.table), place, total, den))
        }
        Err(SpreadStop::OutOfMemory) => Err(Stop::OutOfMemory),
    }
}

// Returns how many classes and columns a table has, and how many pivots were made.
fn sizes_of(table: &Table) -> RunSizes
    ensures { result ≡ sizes_in table.now }
{
    RunSizes {
        classes: table.sizes().len(),
        columns: table.columns().len(),
        pivots: table.pivots(),
    }
}

// Returns the columns of positive value as compositions with their fractions.
fn parts(alloc: Global, table: &Table) -> Result<Vec<(Composition, Frac)>, AllocError>
    ensures { IfOk result (λ parts. parts.items ≡ parts_of table.now) }
{
    table.facts();
    let solution = table.solution()?;
    let mut parts = Vec::new(alloc);
    for (column, value) in &solution {
        parts.push((copied_column(table, *column)?, *value))?;
    }
    Ok(parts)
}

// Returns a copy of column number `column`, counted from 0.
fn copied_column(table: &Table, column: usize) -> Result<Composition, AllocError>
    requires { column < length table.now.columns }
    ensures { IfOk result (λ copied. copied ≡ slice_index_or table.now.columns column []) }
{
    table.columns()[column].copy()
}
