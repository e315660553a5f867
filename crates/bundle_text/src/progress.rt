//! The progress of a bundle's text, and how one more line moves it on.

ghost use Rattle.std.specs.Prelude.{◌≡◌, IfOk};
ghost use Rattle.pool_text.specs.Answers.{Tells};
ghost use Rattle.pool_text.specs.Progress.{seen as pool_seen};
ghost use Rattle.define_bundles.specs.BundleReading.{line_kind, after_line, Begun, InPool, InRows, InStages};
ghost use Rattle.bundle_text.specs.Progress.{seen};

use crate::lines::{AnswerLine, answer_line, total_of};
use define_bundles::Version;
use pool_model::{Answer, BuildStop, Certificate, Lottery, Pool};
use pool_text::{Progress as PoolProgress, version_line};
use std::alloc::Global;

/// The first line of each version.
const FIRST: &[u8] = b"bundle\t1";

const SECOND: &[u8] = b"bundle\t2";

const THIRD: &[u8] = b"bundle\t3";

/// The kind of fault if the pool's first line isn't the one of the bundle's version.
const FORM: u8 = 1;

/// The kind of fault if the first line isn't that of a bundle.
const VERSION: u8 = 13;

/// The kind of fault if the line after the pool isn't a total line.
const TOTAL: u8 = 14;

/// The kind of fault of a line that follows the total or a panel line, if `STAGE` doesn't apply.
const ROW: u8 = 15;

/// The kind of fault of a line after a stage line, and of a faulty stage line after a panel line.
const STAGE: u8 = 16;

/// The kind of fault if the lines run out outside the pool's text, or if a line follows the last one.
pub(crate) const ENDING: u8 = 17;

/// How far the text of a bundle was read, and what its lines gave so far.
#[derive(Debug, Drop)]
pub enum Progress {
    /// Before the first line.
    Begun,
    /// After the first line: the version, and the progress of the pool's lines.
    InPool(Version, PoolProgress),
    /// After the total: the pool, and the lottery with the panels read so far.
    InRows(Pool, Lottery),
    /// After at least one stage line: also the stages read so far.
    InStages(Pool, Lottery, Certificate),
    /// After the last line.
    Done(Pool, Answer),
}

/// Returns the progress after one more line. Stops with the lowest kind of fault of the line.
pub fn after(alloc: Global, progress: Progress, line: &[u8]) -> Result<Progress, BuildStop>
    ensures kind { Tells (line_kind (seen progress) line.now) result }
    ensures ok { IfOk result (λ next. seen next ≡ after_line (seen progress) line.now) }
{
    match progress {
        Progress::Begun => first_line(line),
        Progress::InPool(version, progress) => after_pool(alloc, version, progress, line),
        Progress::InRows(pool, lottery) => after_row(alloc, pool, lottery, line),
        Progress::InStages(pool, lottery, certificate) => {
            after_stage(alloc, pool, lottery, certificate, line)
        }
        Progress::Done(_, _) => Err(BuildStop::Kind(ENDING)),
    }
}

fn first_line(line: &[u8]) -> Result<Progress, BuildStop>
    ensures kind { Tells (line_kind Begun line.now) result }
    ensures ok { IfOk result (λ next. seen next ≡ after_line Begun line.now) }
{
    if line == FIRST {
        Ok(Progress::InPool(Version::First, PoolProgress::Begun))
    } else if line == SECOND {
        Ok(Progress::InPool(Version::Second, PoolProgress::Begun))
    } else if line == THIRD {
        Ok(Progress::InPool(Version::Third, PoolProgress::Begun))
    } else {
        Err(BuildStop::Kind(VERSION))
    }
}

/// Returns the progress after a line of the pool, or after the total line that follows the pool.
fn after_pool(
    alloc: Global,
    version: Version,
    progress: PoolProgress,
    line: &[u8],
) -> Result<Progress, BuildStop>
    ensures kind { Tells (line_kind (InPool version (pool_seen progress)) line.now) result }
    ensures ok { IfOk result (λ next. seen next ≡ after_line (InPool version (pool_seen progress)) line.now) }
{
    match progress {
        PoolProgress::Begun if line != version_line(version) => Err(BuildStop::Kind(FORM)),
        PoolProgress::Ended(pool) => match total_of(alloc, line)? {
            Some(total) => Ok(Progress::InRows(pool, Lottery::new(total, Vec::new(alloc)))),
            None => Err(BuildStop::Kind(TOTAL)),
        },
        progress => Ok(Progress::InPool(version, pool_text::after(alloc, progress, line)?)),
    }
}

/// Returns the progress after a line that follows the total or a panel line.
fn after_row(
    alloc: Global,
    pool: Pool,
    mut lottery: Lottery,
    line: &[u8],
) -> Result<Progress, BuildStop>
    ensures kind { Tells (line_kind (InRows pool lottery) line.now) result }
    ensures ok { IfOk result (λ next. seen next ≡ after_line (InRows pool lottery) line.now) }
{
    let behind = !lottery.rows().is_empty();
    match answer_line(alloc, pool.volunteers().len(), line)? {
        AnswerLine::Row(row) => {
            lottery.add_row(row)?;
            Ok(Progress::InRows(pool, lottery))
        }
        AnswerLine::Stage(stage) if behind => {
            let mut certificate = Certificate::new(Vec::new(alloc));
            certificate.add_stage(stage)?;
            Ok(Progress::InStages(pool, lottery, certificate))
        }
        AnswerLine::FaultyStage if behind => Err(BuildStop::Kind(STAGE)),
        _ => Err(BuildStop::Kind(ROW)),
    }
}

/// Returns the progress after a line that comes after a stage line.
fn after_stage(
    alloc: Global,
    pool: Pool,
    lottery: Lottery,
    mut certificate: Certificate,
    line: &[u8],
) -> Result<Progress, BuildStop>
    ensures kind { Tells (line_kind (InStages pool (record { lottery = lottery; stages = certificate })) line.now) result }
    ensures ok { IfOk result (λ next. seen next ≡ after_line (InStages pool (record { lottery = lottery; stages = certificate })) line.now) }
{
    match answer_line(alloc, pool.volunteers().len(), line)? {
        AnswerLine::Stage(stage) => {
            certificate.add_stage(stage)?;
            Ok(Progress::InStages(pool, lottery, certificate))
        }
        AnswerLine::Done => Ok(Progress::Done(pool, Answer::new(lottery, certificate))),
        _ => Err(BuildStop::Kind(STAGE)),
    }
}
