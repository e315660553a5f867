//! The trait of keepers, which keep the tables of an office between calls.

ghost use Rattle.std.specs.Prelude.{◌≡◌, ℕ, Bool, false, IfOk, IfSome, OnErr, OnOk, Option};
ghost use Rattle.define_offices.specs.Facts.{IsTables};
ghost use Rattle.define_offices.specs.Steps.{apply};
ghost use Rattle.define_offices.specs.Tables.{Tables as Seen};
ghost use Rattle.office_tables.specs.Changes.{seen_change};
ghost use Rattle.office_core.specs.Keeping.{Attach, Course, HasCause, Load, Store, stop_of, stored, with_call};

use office_tables::{Change, Tables};
use std::alloc::Global;
use thiserror::Error;

/// Why a keeper does not answer.
#[derive(Clone, Copy, Debug, PartialEq, Eq, Error)]
pub enum KeeperStop {
    /// The call failed, and the keeper counted a fault.
    #[error("the keeper failed")]
    Failed,
    /// No memory was left.
    #[error("out of memory")]
    OutOfMemory,
}

/// A keeper keeps the tables of an office, and counts its own faults. The count never falls. A call that returns `Failed` counts a fault,
/// and no other call does. From a call on until `let_go` a keeper may keep others from the tables.
pub trait Keeper {
    /// The tables that are kept, if the keeper can tell.
    ghost tables: { Self → Option Seen };

    /// Where the keeper is attached, and the calls that were made of it, as far as it can tell.
    ghost course: { Self → Course };

    /// How many faults the keeper has counted.
    ghost faults: { Self → ℕ };

    /// Whether the keeper keeps others from its tables.
    ghost holds: { Self → Bool };

    /// Attaches the keeper to the tables at `path`. No tables change.
    fn attach(&mut self, alloc: Global, path: &str) -> Result<(), KeeperStop>
        ensures same { tables self.new ≡ tables self.old }
        ensures course { course self.new ≡ with_call (course self.old) (Attach path.now (stop_of result)) }
        ensures cause { HasCause (faults self.old) (faults self.new) result };

    /// Returns the tables that are kept.
    fn load(&mut self, alloc: Global) -> Result<Tables, KeeperStop>
        ensures same { tables self.new ≡ tables self.old }
        ensures course { course self.new ≡ with_call (course self.old) (Load (stop_of result)) }
        ensures loaded { IfOk result (λ loaded. IfSome (tables self.old) (λ kept. loaded ≡ kept)) }
        ensures cause { HasCause (faults self.old) (faults self.new) result };

    /// Stores a change of the kept tables; after a stop they are as before. If the keeper tells its tables, the caller must show that
    /// `IsTables` holds of them after the change.
    fn store(&mut self, alloc: Global, change: &Change) -> Result<(), KeeperStop>
        requires { IfSome (tables self.old) (λ kept. IsTables (apply kept (seen_change change.now))) }
        ensures course { course self.new ≡ with_call (course self.old) (Store (seen_change change.now) (stop_of result)) }
        ensures ok { OnOk result (tables self.new ≡ stored (tables self.old) (seen_change change.now)) }
        ensures err { OnErr result (tables self.new ≡ tables self.old) }
        ensures cause { HasCause (faults self.old) (faults self.new) result };

    /// Lets others at the tables until the next call. Nothing that the keeper tells changes.
    fn let_go(&mut self)
        ensures same { tables self.new ≡ tables self.old }
        ensures course { course self.new ≡ course self.old }
        ensures none { faults self.new ≡ faults self.old }
        ensures free { holds self.new ≡ false };
}
