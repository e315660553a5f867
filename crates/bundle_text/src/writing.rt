//! Writes the text of a bundle, line by line into one growing buffer.

ghost use Rattle.std.specs.Prelude.{◌≡◌, ◌++◌, ◌∷◌, [], map, Ok, IfOk, OnOk};
ghost use Rattle.define_lines.specs.Lines.{text_of};
ghost use Rattle.define_bundles.specs.PoolText.{spelling};
ghost use Rattle.define_bundles.specs.Ranges.{IsInRanges};
ghost use Rattle.define_bundles.specs.BundleText.{total_line, panel_line, stage_line, done_line, answer_lines, bundle_text};
ghost use Rattle.define_bundles.specs.BundleReading.{read_bundle};

use pool_model::{Answer, Lottery, LotteryRow, Pool, Stage};
use pool_text::{version_of, version_word, write_pool};
use std::alloc::{AllocError, Global};
use text_lines::{end_line, push_line, push_numbers, push_signed, push_signed_numbers};

/// Returns the text of the pool with this answer, whose numbers are in the ranges of a bundle. It is read as this bundle.
pub fn write_bundle(alloc: Global, pool: &Pool, answer: &Answer) -> Result<Vec<u8>, AllocError>
    requires { IsInRanges pool.now answer.now }
    ensures spelled { IfOk result (λ bytes. bytes.items ≡ bundle_text pool.now answer.now) }
    ensures read { IfOk result (λ bytes. read_bundle bytes.items ≡ Ok (record { pool = pool.now; answer = answer.now })) }
{
    pool.facts();
    let mut text = Vec::new(alloc);
    push_line(&mut text, b"bundle", &[version_word(version_of(pool))])?;
    push_pool(alloc, &mut text, pool)?;
    push_answer(&mut text, answer)?;
    Ok(text)
}

fn push_pool(alloc: Global, text: &mut Vec<u8>, pool: &Pool) -> Result<(), AllocError>
    ensures { OnOk result (text.new.items ≡ text.old.items ++ spelling pool.now) }
{
    let bytes = write_pool(alloc, pool)?;
    text.extend_from_slice(&bytes)
}

/// Appends the lines after those of the pool.
fn push_answer(text: &mut Vec<u8>, answer: &Answer) -> Result<(), AllocError>
    ensures { OnOk result (text.new.items ≡ text.old.items ++ text_of (answer_lines answer.now ++ done_line ∷ [])) }
{
    let lottery = answer.lottery();
    push_total(text, lottery)?;
    push_rows(text, lottery.rows())?;
    push_stages(text, answer.certificate().stages())?;
    push_line(text, b"done", &[])
}

fn push_total(text: &mut Vec<u8>, lottery: &Lottery) -> Result<(), AllocError>
    ensures { OnOk result (text.new.items ≡ text.old.items ++ text_of (total_line lottery.now.total ∷ [])) }
{
    text.extend_from_slice(b"total")?;
    push_signed(text, lottery.total())?;
    end_line(text)
}

fn push_rows(text: &mut Vec<u8>, rows: &[LotteryRow]) -> Result<(), AllocError>
    ensures { OnOk result (text.new.items ≡ text.old.items ++ text_of (map panel_line rows.now)) }
{
    for row in rows {
        push_row(text, row)?;
    }
    Ok(())
}

/// Appends a panel's line: its weight, and the numbers of its members.
fn push_row(text: &mut Vec<u8>, row: &LotteryRow) -> Result<(), AllocError>
    ensures { OnOk result (text.new.items ≡ text.old.items ++ text_of (panel_line row.now ∷ [])) }
{
    text.extend_from_slice(b"panel")?;
    push_signed(text, row.weight())?;
    push_numbers(text, row.panel().members())?;
    end_line(text)
}

fn push_stages(text: &mut Vec<u8>, stages: &[Stage]) -> Result<(), AllocError>
    ensures { OnOk result (text.new.items ≡ text.old.items ++ text_of (map stage_line stages.now)) }
{
    for stage in stages {
        push_stage(text, stage)?;
    }
    Ok(())
}

/// Appends a stage's line: its cap, and the weight of each volunteer.
fn push_stage(text: &mut Vec<u8>, stage: &Stage) -> Result<(), AllocError>
    ensures { OnOk result (text.new.items ≡ text.old.items ++ text_of (stage_line stage.now ∷ [])) }
{
    text.extend_from_slice(b"stage")?;
    push_signed(text, stage.cap())?;
    push_signed_numbers(text, stage.weights())?;
    end_line(text)
}
