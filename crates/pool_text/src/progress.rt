//! How far the text of a pool was read, and how one more line changes that.

ghost use Rattle.std.specs.Prelude.{◌≡◌, ◌≤◌, Err, IfOk};
ghost use Rattle.pool_model.specs.declared.building.BuildStop.TheVariants.{OutOfMemory};
ghost use Rattle.pool_text.specs.Answers.{Tells};
ghost use Rattle.define_lines.specs.Lines.{fields_of as fields_in};
ghost use Rattle.define_bundles.specs.PoolReading.{line_kind, after_line, size_of as size_in};
ghost use Rattle.pool_text.specs.Progress.{seen, line_due};

use crate::entries::{FORM, read_entry};
use crate::versions::{limits_in, version_in};
use define_bundles::{Passed, Version};
use pool_model::{BuildStop, Limits, Pool};
use std::alloc::Global;
use text_lines::number_up_to;

/// The size that a line is read as, if it spells none.
const NO_SIZE: usize = 0;

/// How the second line begins.
const SIZE: &[u8] = b"size\t";

/// How far the text of a pool was read, and what its lines gave so far.
#[derive(Debug, Drop)]
pub enum Progress {
    /// Before the first line.
    Begun,
    /// After the first line, which says the version.
    Versioned(Version),
    /// After the size line: the pool that the lines read so far make, and how far they have come.
    Inside(Pool, Passed),
    /// After the end line.
    Ended(Pool),
}

/// Returns the progress after one more line. Stops with the lowest kind of fault of the line.
pub fn after(alloc: Global, progress: Progress, line: &[u8]) -> Result<Progress, BuildStop>
    ensures kind { Tells (line_kind (seen progress) line.now) result }
    ensures ok { IfOk result (λ next. seen next ≡ after_line (seen progress) line.now) }
    ensures memory { result ≡ Err OutOfMemory → 3 ≤ line_due (seen progress) }
{
    match progress {
        Progress::Begun => match version_in(line) {
            Some(version) => Ok(Progress::Versioned(version)),
            None => Err(BuildStop::Kind(FORM)),
        },
        Progress::Versioned(version) => {
            let limits = limits_in(version);
            let pool = Pool::new_within(alloc, limits, size_of(limits, line))?;
            let passed = Passed {
                version,
                households: 0,
                standings: 0,
            };
            Ok(Progress::Inside(pool, passed))
        }
        Progress::Inside(mut pool, passed) => {
            match read_entry(alloc, &mut pool, passed, line)? {
                Some(passed) => Ok(Progress::Inside(pool, passed)),
                None => Ok(Progress::Ended(pool)),
            }
        }
        Progress::Ended(_) => Err(BuildStop::Kind(FORM)),
    }
}

/// Returns the size within these limits that the second line spells, or 0 if it spells none.
fn size_of(limits: Limits, line: &[u8]) -> usize
    ensures { result ≡ size_in limits (fields_in line.now) }
{
    match line.strip_prefix(SIZE) {
        Some(field) => number_up_to(limits.members(), field).unwrap_or(NO_SIZE),
        None => NO_SIZE,
    }
}
