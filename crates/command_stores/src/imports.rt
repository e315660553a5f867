//! Imports: a file from the source is read as a command of the office, and the command is done over the store.

ghost use Rattle.std.specs.Prelude.{◌≡◌, IfErr, IfOk, false};
ghost use Rattle.command_shell.specs.Answers.{status_number, saying};
ghost use Rattle.command_shell.specs.Outcomes.{HasNoInput, IsInput};
ghost use Rattle.command_shell.specs.Told.{object, told};
ghost use Rattle.office_import.specs.Answers.{fault_of};
ghost use Rattle.command_meanings.specs.Imports.{ImportMeans, fault_answer as words_of_fault, rules_for};
ghost use Rattle.command_stores.specs.ReadFiles.{IsProofRead, IsReadAs};
ghost use Rattle.command_stores.specs.StoreOutcomes.{SettlesAttached, TextStoreOutcome};
ghost use Rattle.command_stores.specs.StoreTold.{keeper_told, store_told};
ghost use Rattle.office_core.specs.Commands.{HasWorkers, seen_command};

use crate::calling::{answer_or_want, attach, load, tell_settled};
use crate::refusals::refusal_answer;
use crate::steps::settle_over;
use command_meanings::Import;
use command_shell::{Answer, Cause, Resources, Status, input_line, read_input, refuse_input};
use office_core::{Command, Keeper, KeeperStop, Part, Refusal, Rules, Tables};
use office_import::{ImportFault, ImportStop, read_charter, read_register, read_rules};
use office_tables::LaterRound;
use outside::{ReadStop, Sink, Source, Watch};
use proof_text::{Proof, read_proof};
use std::alloc::{AllocError, Global};
use std::thread::Threads;
use text_lines::TextStop;

/// Why a file isn't read as a command.
#[derive(Debug, Drop)]
pub(crate) enum FileStop {
    /// The file has a fault.
    Fault(ImportFault),
    /// The file should be a register, and there are no rules to read it by.
    NoRules,
    /// No memory was left.
    OutOfMemory,
}

/// Makes one call of an import over the store at `path`. The keeper is attached, the file is read from the source, the tables are loaded,
/// and then the file is judged. While the file is read, others may use the store: a source may be slow.
pub fn call_import<R: Threads + Sync, W: Watch + Sync, K: Keeper, S: Source, O: Sink, E: Sink>(
    resources: &Resources<'_, R, W>,
    import: Import,
    path: &str,
    source: &mut S,
    keeper: &mut K,
    out: &mut O,
    errs: &mut E,
) -> Status
    ensures { TextStoreOutcome path.now (ImportMeans import) (store_told
        (told (status_number result)
        (object (S.left source.old) (S.left source.new) (S.faults source.old) (S.faults source.new))
        (object (O.written out.old) (O.written out.new) (O.faults out.old) (O.faults out.new))
        (object (E.written errs.old) (E.written errs.new) (E.faults errs.old) (E.faults errs.new)))
        (keeper_told (object (K.tables keeper.old) (K.tables keeper.new) (K.faults keeper.old) (K.faults keeper.new)) (K.course keeper.old) (K.course keeper.new))) }
{
    let alloc = resources.alloc;
    if let Err(stop) = attach(alloc, path, keeper) {
        return tell_settled(&Err(stop), out, errs);
    }
    match read_unheld(alloc, source, keeper) {
        Ok(bytes) => {
            let settled = settle_import(resources, import, &bytes, keeper);
            tell_settled(&settled, out, errs)
        }
        Err(stop) => refuse_input(errs, stop),
    }
}

/// Reads the file while others may use the store.
fn read_unheld<K: Keeper, S: Source>(
    alloc: Global,
    source: &mut S,
    _keeper: &K,
) -> Result<Vec<u8>, ReadStop>
    requires free { K.holds _keeper.now ≡ false }
    ensures input { IfOk result (λ bytes. IsInput (object (S.left source.old) (S.left source.new) (S.faults source.old) (S.faults source.new)) bytes.items) }
    ensures none { IfErr result (λ stop. HasNoInput stop (object (S.left source.old) (S.left source.new) (S.faults source.old) (S.faults source.new))) }
{
    read_input(alloc, source)
}

/// Loads the tables of a keeper that is attached, imports the file, and returns the answer.
fn settle_import<R: Threads + Sync, W: Watch + Sync, K: Keeper>(
    resources: &Resources<'_, R, W>,
    import: Import,
    bytes: &[u8],
    keeper: &mut K,
) -> Result<Answer, KeeperStop>
    ensures settles { SettlesAttached (ImportMeans import bytes.now)
        (keeper_told (object (K.tables keeper.old) (K.tables keeper.new) (K.faults keeper.old) (K.faults keeper.new)) (K.course keeper.old) (K.course keeper.new)) result }
    ensures place { (K.course keeper.new).place ≡ (K.course keeper.old).place }
{
    let alloc = resources.alloc;
    let tables = load(alloc, keeper)?;
    match read_file(alloc, import, bytes, &tables) {
        Ok(command) => settle_over(resources, &tables, &command, keeper),
        Err(FileStop::Fault(fault)) => answer_or_want(fault_answer(alloc, fault)),
        Err(FileStop::NoRules) => {
            let what = Part::Rules;
            answer_or_want(refusal_answer(alloc, &Refusal::Incomplete { what }))
        }
        Err(FileStop::OutOfMemory) => Err(KeeperStop::OutOfMemory),
    }
}

/// Reads a file as a command of the office. A register is read by the rules of the tables.
fn read_file(
    alloc: Global,
    import: Import,
    bytes: &[u8],
    tables: &Tables,
) -> Result<Command, FileStop>
    ensures read { IsReadAs import tables.now bytes.now result }
    ensures workers { IfOk result HasWorkers }
{
    match import {
        Import::Charter => Ok(Command::Charter(read_charter(alloc, bytes)?)),
        Import::Rules { round } => Ok(rules_command(round, read_rules(alloc, bytes)?)),
        Import::Register => match tables.rules() {
            Some(rules) => Ok(Command::Register(read_register(alloc, bytes, rules)?)),
            None => Err(FileStop::NoRules),
        },
        Import::Proof { round } => Ok(Command::Keep {
            round,
            proof: proof_of(alloc, bytes)?,
        }),
    }
}

/// Returns the command that sets the rules of the assembly, or, from round 2 on, the bounds of this round.
fn rules_command(round: usize, rules: Rules) -> Command
    ensures command { seen_command result ≡ rules_for round rules }
    ensures workers { HasWorkers result }
{
    match LaterRound::new(round) {
        Some(round) => Command::Bounds {
            round,
            bounds: rules,
        },
        None => Command::Rules(rules),
    }
}

/// Reads a file as a proof.
fn proof_of(alloc: Global, bytes: &[u8]) -> Result<Proof, ImportStop>
    ensures { IsProofRead bytes.now result }
{
    match read_proof(alloc, bytes) {
        Ok(proof) => Ok(proof),
        Err(TextStop::Fault(fault)) => Err(ImportStop::Fault(ImportFault {
            place: fault.line,
            kind: fault.kind,
        })),
        Err(TextStop::OutOfMemory) => Err(ImportStop::OutOfMemory),
    }
}

impl From<ImportStop> for FileStop {
    ghost use Rattle.std.specs.Prelude.{◌≡◌};
    ghost use Rattle.command_stores.specs.ReadFiles.{stop_of_import};

    ghost from_gives = { λ stop e. e ≡ stop_of_import stop };

    fn from(stop: ImportStop) -> FileStop {
        match stop {
            ImportStop::Fault(fault) => FileStop::Fault(fault),
            ImportStop::OutOfMemory => FileStop::OutOfMemory,
        }
    }
}

/// Returns the answer to a faulty file, with status 3.
fn fault_answer(alloc: Global, fault: ImportFault) -> Result<Answer, AllocError>
    ensures { IfOk result (λ answer. saying answer ≡ words_of_fault (fault_of fault)) }
{
    Ok(Answer::Stops {
        cause: Cause::Input,
        line: input_line(alloc, fault.place, fault.kind)?,
    })
}
