//! Why a file was not read.

ghost use Rattle.std.specs.Prelude.{◌≡◌};
ghost use Rattle.define_imports.specs.Cells.{header_fault as fault_in_header};
ghost use Rattle.office_import.specs.Answers.{IsFault, stopped};

use pool_model::BuildStop;
use std::alloc::{AllocError, AllocFailed};
use thiserror::Error;

/// Where a file first goes wrong.
#[derive(Clone, Copy, Debug, PartialEq, Eq)]
pub struct ImportFault {
    /// The first faulty record, counted from 1, the header being the first; 0 for a charter.
    pub place: usize,
    /// The lowest kind of fault in it. In rules and registers:
    /// - 1 a field that is used isn't UTF-8
    /// - 2 in the header: there is none; a column that is needed is missing, or is there twice; a column for households is there twice; or
    ///   rules have no record after the header
    /// - 3 the record isn't as long as the header
    /// - 4 a name, an id, a key or a household isn't allowed, or a category is named `id` or `key`
    /// - 5 a field of a category is none of its values
    /// - 6 a bound isn't a number from 0 to 999, or the lower is above the upper
    /// - 7 an earlier record has the same category and value
    /// - 8 it would be a 21st category or a 51st value of its category
    ///
    /// In a charter:
    /// - 1 the file isn't TOML in UTF-8
    /// - 2 there is no title, or it isn't a string
    /// - 3 there is no size, or it isn't a whole number
    /// - 4 the title isn't allowed
    /// - 6 `volunteers` is there and isn't a whole number from 1 to 4,000; or the size isn't from 1 to 200, or to 1,000 where `volunteers` is
    ///   above 400
    pub kind: u8,
}

/// Why a file was not read.
#[derive(Debug, Drop, Error)]
pub enum ImportStop {
    /// The file has a fault.
    #[error("record {}: kind {}", .0.place, .0.kind)]
    Fault(ImportFault),
    /// No memory was left.
    #[error("out of memory")]
    OutOfMemory,
}

impl From<AllocError> for ImportStop {
    ghost use Rattle.std.specs.Prelude.{◌≡◌};
    ghost use Rattle.office_import.specs.declared.stops.ImportStop.TheVariants.{OutOfMemory};

    ghost from_gives = { λ _ e. e ≡ OutOfMemory };

    fn from(_error: AllocError) -> ImportStop {
        ImportStop::OutOfMemory
    }
}

impl<T: Drop> From<AllocFailed<T>> for ImportStop {
    ghost use Rattle.std.specs.Prelude.{◌≡◌};
    ghost use Rattle.office_import.specs.declared.stops.ImportStop.TheVariants.{OutOfMemory};

    ghost from_gives = { λ _ e. e ≡ OutOfMemory };

    fn from(_error: AllocFailed<T>) -> ImportStop {
        ImportStop::OutOfMemory
    }
}

/// Returns the stop for a fault of `kind` at `place`.
pub(crate) fn fault_at(place: usize, kind: u8) -> ImportStop
    ensures { IsFault (λ fault. fault ≡ record { place = place; kind = kind }) result }
{
    ImportStop::Fault(ImportFault { place, kind })
}

/// Returns the stop for a faulty header: record 1, kind 2.
pub(crate) fn header_fault() -> ImportStop
    ensures { IsFault (λ fault. fault ≡ fault_in_header) result }
{
    fault_at(1, 2)
}

/// Returns the reader's stop if `stop` refuses the record at `place`, or says that memory ran out there.
pub(crate) fn stop_at(place: usize, stop: BuildStop) -> ImportStop
    ensures { result ≡ stopped place stop }
{
    match stop {
        BuildStop::Kind(kind) => ImportStop::Fault(ImportFault { place, kind }),
        BuildStop::OutOfMemory => ImportStop::OutOfMemory,
    }
}
