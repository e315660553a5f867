//! The input of `check-cover`: a cover, as `cover_text` reads it.

ghost use Rattle.std.specs.Prelude.{◌≡◌};

use command_shell::Subject;
use cover_cert::Cover;
use cover_text::{ReadCover, read_cover};
use std::alloc::Global;
use std::marker::Model;
use text_lines::{TextFault, TextStop};

/// A cover that was read.
#[derive(Debug, Drop)]
pub struct GivenCover {
    cover: Cover,
}

impl Model for GivenCover {
    ghost use Rattle.define_covers.specs.Covers.{Cover as Seen};

    ghost Value = { Seen };

    ghost view = { λ given. given.cover };
}

impl GivenCover {
    /// Returns the cover.
    pub fn cover(&self) -> &Cover
        ensures { result.now ≡ self.now }
    {
        &self.cover
    }
}

impl Subject for GivenCover {
    ghost use Rattle.command_bundles.specs.CoverFormat.{cover_format};

    ghost format = { cover_format };

    fn read(alloc: Global, bytes: &[u8]) -> Result<GivenCover, TextStop> {
        match read_cover(alloc, bytes) {
            Ok(cover) => Ok(GivenCover { cover }),
            Err(ReadCover::Fault(fault)) => Err(TextStop::Fault(TextFault {
                line: fault.line,
                kind: fault.kind,
            })),
            Err(ReadCover::OutOfMemory) => Err(TextStop::OutOfMemory),
        }
    }
}
