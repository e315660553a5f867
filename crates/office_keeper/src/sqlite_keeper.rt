//! `SqliteKeeper`, a keeper that keeps the tables in a file.

ghost use Rattle.std.specs.Prelude.{◌≡◌, Err, None, OnErr, OnOk, Some, false, is_some};
ghost use Rattle.office_core.specs.declared.keeper.KeeperStop.TheVariants.{Failed};
ghost use Rattle.office_core.specs.Keeping.{Attach, HasCause, Load, Nowhere, Store, stop_of, with_call};
ghost use Rattle.office_tables.specs.Changes.{seen_change};
ghost use Rattle.office_keeper.specs.Counting.{faults_after};
ghost use Rattle.office_keeper.specs.Places.{course_of};

use crate::shared_file::SharedFile;
use office_core::{Change, Keeper, KeeperStop, Tables};
use pool_model::Name;
use std::alloc::Global;

/// A store in a file. `attach` opens the file of a path; before that, each other call fails. It reads and tests all rows, so it fails if
/// the file holds no tables that keep the facts. If no file is there, `load` returns the first tables, and the first `store` makes the
/// file. `let_go` closes the file, and the next call opens it again if it must: if somebody else has it open, the call waits for up to five
/// seconds. Tables are read again only if the file may have changed. While the keeper has the file open, nobody else can open it. Contracts
/// speak of where the keeper is attached, and not of its tables.
#[derive(Drop)]
pub struct SqliteKeeper {
    rt: HostRuntime,
    path: Option<Name>,
    file: SharedFile,
    faults: u64,
}

impl SqliteKeeper {
    /// Returns a keeper that is attached nowhere and has counted no fault.
    pub fn new(rt: &HostRuntime) -> SqliteKeeper
        ensures faults { result.faults ≡ 0 }
        ensures place { (⟦<SqliteKeeper as Keeper>⟧.course result).place ≡ Nowhere }
    {
        SqliteKeeper {
            rt: *rt,
            path: None,
            file: SharedFile::none(),
            faults: 0,
        }
    }

    /// Returns how many calls have failed with a fault. Running out of memory is no fault.
    pub fn faults(&self) -> u64
        ensures { result ≡ self.now.faults }
    {
        self.faults
    }
}

/// Attaches the file of `path`. If it is the file that is open already, it isn't opened again.
fn go(
    rt: &HostRuntime,
    attached: &mut Option<Name>,
    file: &mut SharedFile,
    alloc: Global,
    path: &str,
) -> Result<(), KeeperStop>
    ensures ok { OnOk result (attached.new ≡ Some path.now) }
    ensures err { OnErr result (attached.new ≡ attached.old) }
{
    match attached {
        Some(name) if name.as_str() == path && file.is_open() => file.complete(alloc, path),
        _ => {
            let Ok(name) = Name::new(alloc, path) else {
                return Err(KeeperStop::OutOfMemory);
            };
            *file = SharedFile::open(rt, alloc, path)?;
            *attached = Some(name);
            Ok(())
        }
    }
}

/// Counts a fault, if the call ended with one.
fn count<T>(faults: &mut u64, answer: &Result<T, KeeperStop>)
    ensures cause { HasCause faults.old faults.new answer.now }
    ensures counted { faults.new ≡ faults_after faults.old answer.now }
{
    if matches!(answer, Err(KeeperStop::Failed)) {
        *faults = faults.saturating_add(1);
    }
}

impl Keeper for SqliteKeeper {
    ghost tables = { λ _. None };

    ghost course = { λ k. course_of k.path };

    ghost faults = { λ k. k.faults };

    ghost holds = { λ k. is_some k.file.open };

    fn attach(&mut self, alloc: Global, path: &str) -> Result<(), KeeperStop>
        ensures course { ⟦<SqliteKeeper as Keeper>⟧.course self.new ≡ with_call (⟦<SqliteKeeper as Keeper>⟧.course self.old) (Attach path.now (stop_of result)) }
        ensures cause { HasCause self.old.faults self.new.faults result }
        ensures counted { self.new.faults ≡ faults_after self.old.faults result }
    {
        let answer = go(&self.rt, &mut self.path, &mut self.file, alloc, path);
        count(&mut self.faults, &answer);
        answer
    }

    fn load(&mut self, alloc: Global) -> Result<Tables, KeeperStop>
        ensures course { ⟦<SqliteKeeper as Keeper>⟧.course self.new ≡ with_call (⟦<SqliteKeeper as Keeper>⟧.course self.old) (Load (stop_of result)) }
        ensures cause { HasCause self.old.faults self.new.faults result }
        ensures counted { self.new.faults ≡ faults_after self.old.faults result }
        ensures before { (⟦<SqliteKeeper as Keeper>⟧.course self.old).place ≡ Nowhere → result ≡ Err Failed }
    {
        let answer = match &self.path {
            Some(path) => self.file.load(&self.rt, alloc, path.as_str()),
            None => Err(KeeperStop::Failed),
        };
        count(&mut self.faults, &answer);
        answer
    }

    fn store(&mut self, alloc: Global, change: &Change) -> Result<(), KeeperStop>
        ensures course { ⟦<SqliteKeeper as Keeper>⟧.course self.new ≡ with_call (⟦<SqliteKeeper as Keeper>⟧.course self.old) (Store (seen_change change.now) (stop_of result)) }
        ensures cause { HasCause self.old.faults self.new.faults result }
        ensures counted { self.new.faults ≡ faults_after self.old.faults result }
        ensures before { (⟦<SqliteKeeper as Keeper>⟧.course self.old).place ≡ Nowhere → result ≡ Err Failed }
    {
        let answer = match &self.path {
            Some(path) => self.file.store(&self.rt, alloc, path.as_str(), change),
            None => Err(KeeperStop::Failed),
        };
        count(&mut self.faults, &answer);
        answer
    }

    fn let_go(&mut self)
        ensures path { self.new.path ≡ self.old.path }
        ensures none { self.new.faults ≡ self.old.faults }
        ensures free { is_some self.new.file.open ≡ false }
    {
        self.file.let_go();
    }
}
