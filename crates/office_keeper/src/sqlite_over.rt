//! `SqliteOver`, a keeper that keeps the tables in the database of a connection that it is given.

ghost use Rattle.std.specs.Prelude.{◌≡◌, Err, IsErr, None, OnErr, OnOk, true, false};
ghost use Rattle.office_core.specs.declared.keeper.KeeperStop.TheVariants.{Failed};
ghost use Rattle.office_core.specs.Keeping.{HasCause, Untold};
ghost use Rattle.office_keeper.specs.Counting.{faults_after};

use crate::reading::read_tables;
use crate::schema::complete;
use crate::writing::write_change;
use office_core::{Change, Keeper, KeeperStop, Tables};
use sqlite::{Alter, Connection, Error, ErrorCode};
use std::alloc::Global;

/// A store over a connection. Its `attach` ignores the path and makes the tables that are missing; before that, each other call fails.
/// Contracts speak neither of its tables nor of where it is attached.
#[derive(Drop)]
pub struct SqliteOver<S: Alter> {
    connection: Connection<S>,
    is_attached: bool,
    faults: u64,
}

impl<S: Alter> SqliteOver<S> {
    /// Returns a keeper over this connection, which isn't attached and has counted no fault.
    pub fn new(connection: Connection<S>) -> SqliteOver<S>
        ensures faults { result.faults ≡ 0 }
        ensures attached { result.is_attached ≡ false }
        ensures connection { result.connection ≡ connection }
    {
        SqliteOver {
            connection,
            is_attached: false,
            faults: 0,
        }
    }

    /// Returns a keeper over the connection of a store that was attached before, which lacks nothing.
    pub(crate) fn attached(connection: Connection<S>) -> SqliteOver<S> {
        SqliteOver {
            connection,
            is_attached: true,
            faults: 0,
        }
    }

    /// Returns how many calls have failed with a fault. Running out of memory is no fault.
    pub fn faults(&self) -> u64
        ensures { result ≡ self.now.faults }
    {
        self.faults
    }

    /// Returns the connection.
    pub fn into_connection(self) -> Connection<S>
        ensures { result ≡ self.connection }
    {
        self.connection
    }
}

/// Returns the stop of a call that met this error. Counts a fault, unless memory ran out.
fn stopped<T>(faults: &mut u64, error: &Error) -> Result<T, KeeperStop>
    ensures err { IsErr result }
    ensures cause { HasCause faults.old faults.new result }
    ensures counted { faults.new ≡ faults_after faults.old result }
{
    if matches!(error, Error::SqliteFailure(ErrorCode::OutOfMemory)) {
        return Err(KeeperStop::OutOfMemory);
    }
    *faults = faults.saturating_add(1);
    Err(KeeperStop::Failed)
}

impl<S: Alter> Keeper for SqliteOver<S> {
    ghost tables = { λ _. None };

    ghost course = { λ _. record { place = Untold; calls = None } };

    ghost faults = { λ k. k.faults };

    ghost holds = { λ _. false };

    fn attach(&mut self, _alloc: Global, _path: &str) -> Result<(), KeeperStop>
        ensures cause { HasCause self.old.faults self.new.faults result }
        ensures counted { self.new.faults ≡ faults_after self.old.faults result }
        ensures attached { OnOk result (self.new.is_attached ≡ true) }
        ensures stays { OnErr result (self.new.is_attached ≡ self.old.is_attached) }
    {
        match complete(&mut self.connection) {
            Ok(()) => {
                self.is_attached = true;
                Ok(())
            }
            Err(error) => stopped(&mut self.faults, &error),
        }
    }

    fn load(&mut self, alloc: Global) -> Result<Tables, KeeperStop>
        ensures cause { HasCause self.old.faults self.new.faults result }
        ensures counted { self.new.faults ≡ faults_after self.old.faults result }
        ensures attached { self.new.is_attached ≡ self.old.is_attached }
        ensures before { self.old.is_attached ≡ false → result ≡ Err Failed }
    {
        if !self.is_attached {
            self.faults = self.faults.saturating_add(1);
            return Err(KeeperStop::Failed);
        }
        match read_tables(alloc, &mut self.connection) {
            Ok(tables) => Ok(tables),
            Err(error) => stopped(&mut self.faults, &error),
        }
    }

    fn store(&mut self, alloc: Global, change: &Change) -> Result<(), KeeperStop>
        ensures cause { HasCause self.old.faults self.new.faults result }
        ensures counted { self.new.faults ≡ faults_after self.old.faults result }
        ensures attached { self.new.is_attached ≡ self.old.is_attached }
        ensures before { self.old.is_attached ≡ false → result ≡ Err Failed }
    {
        if !self.is_attached {
            self.faults = self.faults.saturating_add(1);
            return Err(KeeperStop::Failed);
        }
        match write_change(alloc, &mut self.connection, change) {
            Ok(()) => Ok(()),
            Err(error) => stopped(&mut self.faults, &error),
        }
    }

    fn let_go(&mut self)
        ensures { self.new ≡ self.old }
    {}
}
