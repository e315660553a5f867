//! What every call over a store does at its beginning and at its end: it loads the tables, and it tells the answer or why there is none.

ghost use Rattle.std.specs.Prelude.{◌≡◌, IfOk, None, OnOk, false};
ghost use Rattle.command_shell.specs.Told.{Bytes, object, told};
ghost use Rattle.command_shell.specs.Answers.{status_number};
ghost use Rattle.command_stores.specs.StoreOutcomes.{FailsEarly, TellsSettled, settled_by};
ghost use Rattle.command_stores.specs.StoreTold.{MayBeAttached, keeper_told};
ghost use Rattle.office_core.specs.Acting.{IsLoaded};
ghost use Rattle.office_core.specs.Keeping.{Attach, HasCause, Load, stop_of, with_call};

use command_shell::{Answer, Status, keeper_fault, tell, want_memory};
use office_core::{Keeper, KeeperStop, Tables};
use outside::Sink;
use std::alloc::{AllocError, Global};

/// Attaches the keeper, and lets others at the tables until the next call.
pub fn attach<K: Keeper>(alloc: Global, path: &str, keeper: &mut K) -> Result<(), KeeperStop>
    ensures same { K.tables keeper.new ≡ K.tables keeper.old }
    ensures course { K.course keeper.new ≡ with_call (K.course keeper.old) (Attach path.now (stop_of result)) }
    ensures cause { HasCause (K.faults keeper.old) (K.faults keeper.new) result }
    ensures free { K.holds keeper.new ≡ false }
{
    let attached = keeper.attach(alloc, path);
    keeper.let_go();
    attached
}

/// Attaches the keeper, and returns its tables.
pub(crate) fn load_at<K: Keeper>(
    alloc: Global,
    path: &str,
    keeper: &mut K,
) -> Result<Tables, KeeperStop>
    ensures loaded { IfOk result (λ tables. IsLoaded (K.tables keeper.old) tables) }
    ensures course { OnOk result (K.course keeper.new ≡ with_call (with_call (K.course keeper.old) (Attach path.now None)) (Load None)) }
    ensures early { FailsEarly path.now result (K.course keeper.old) (K.course keeper.new) }
    ensures place { MayBeAttached path.now (keeper_told (object (K.tables keeper.old) (K.tables keeper.new) (K.faults keeper.old) (K.faults keeper.new)) (K.course keeper.old) (K.course keeper.new)) }
    ensures same { K.tables keeper.new ≡ K.tables keeper.old }
    ensures cause { HasCause (K.faults keeper.old) (K.faults keeper.new) result }
{
    keeper.attach(alloc, path)?;
    load(alloc, keeper)
}

/// Returns the tables of a keeper that is attached.
pub(crate) fn load<K: Keeper>(alloc: Global, keeper: &mut K) -> Result<Tables, KeeperStop>
    ensures loaded { IfOk result (λ tables. IsLoaded (K.tables keeper.old) tables) }
    ensures course { K.course keeper.new ≡ with_call (K.course keeper.old) (Load (stop_of result)) }
    ensures same { K.tables keeper.new ≡ K.tables keeper.old }
    ensures cause { HasCause (K.faults keeper.old) (K.faults keeper.new) result }
{
    let tables = keeper.load(alloc)?;
    tables.facts();
    Ok(tables)
}

/// Tells an answer, or that the keeper failed or no memory was left.
pub(crate) fn tell_settled<O: Sink, E: Sink>(
    settled: &Result<Answer, KeeperStop>,
    out: &mut O,
    errs: &mut E,
) -> Status
    ensures { (source : Bytes) → TellsSettled settled.now (told (status_number result) source
        (object (O.written out.old) (O.written out.new) (O.faults out.old) (O.faults out.new))
        (object (E.written errs.old) (E.written errs.new) (E.faults errs.old) (E.faults errs.new))) }
{
    match settled {
        Ok(answer) => tell(out, errs, answer),
        Err(KeeperStop::Failed) => keeper_fault(errs),
        Err(KeeperStop::OutOfMemory) => want_memory(errs),
    }
}

/// Returns the answer, or that no memory was left for it.
pub(crate) fn answer_or_want(answer: Result<Answer, AllocError>) -> Result<Answer, KeeperStop>
    ensures { result ≡ settled_by answer }
{
    match answer {
        Ok(answer) => Ok(answer),
        Err(_) => Err(KeeperStop::OutOfMemory),
    }
}
