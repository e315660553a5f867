//! What an input is read as. Each format of texts that a command reads has an `impl` of `Subject`, in `formats`.

ghost use Rattle.command_shell.specs.Subjects.{Format, IsRead};

use std::alloc::Global;
use text_lines::TextStop;

/// A value that a text spells: a pool, a bundle, a proof.
pub trait Subject: Sized + Drop {
    /// Which texts spell which values, and the first fault of any other text.
    ghost format: { Format Self };

    /// Reads the value that `bytes` spell.
    ///
    /// # Errors
    ///
    /// `Fault` if the format's own `read` fails on the bytes, with the same line and kind. `OutOfMemory` is allowed for any bytes.
    fn read(alloc: Global, bytes: &[u8]) -> Result<Self, TextStop>
        ensures { IsRead format bytes.now result };
}

/// The input of a command that reads nothing.
#[derive(Clone, Copy, Debug, Drop)]
pub struct Nothing;

impl Subject for Nothing {
    ghost use Rattle.command_shell.specs.Subjects.{nothing};

    ghost format = { nothing };

    fn read(_alloc: Global, _bytes: &[u8]) -> Result<Nothing, TextStop> {
        Ok(Nothing)
    }
}
