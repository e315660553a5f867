//! The summary of a run: how large the pool, the answer and the last table are, the least and the greatest chance, and the seal.

ghost use Rattle.std.specs.Prelude.{◌≡◌, ◌≤ℤ◌, ◌<ℤ◌, ◌++◌, ◌∷◌, [], codes, map, pos, string_bytes, unsigned_abs, IfOk, OnOk};
ghost use Rattle.frac128.specs.Fractions.{fraction_text, lowest_of};
ghost use Rattle.define_pools.specs.Lottery.{TotalAgrees};
ghost use Rattle.define_lines.specs.Lines.{text_of};
ghost use Rattle.define_bundles.specs.Ranges.{IsInRanges};
ghost use Rattle.define_made_pools.specs.Summary.{field_line, greatest as words_of_greatest, least as words_of_least, number_line, size_lines, summary_text};

use bundle_text::write_bundle;
use define_runs::RunSizes;
use frac128::lowest;
use pool_model::{Answer, Pool, chances};
use sealed_draw::seal;
use std::alloc::{AllocError, Global};

/// Returns the summary of a run that found this answer: lines that end with LF, each of a word, a TAB and a field. The fields are the
/// numbers of volunteers and classes, the size of a panel, the numbers of the lottery's panels, of columns, pivots and stages, the
/// total, the least and the greatest chance of a volunteer in lowest terms, and the seal of the bundle. The answer's numbers are in the
/// ranges of a bundle, and its weights sum to its total.
pub fn run_summary(
    alloc: Global,
    pool: &Pool,
    answer: &Answer,
    sizes: &RunSizes,
) -> Result<String, AllocError>
    requires ranges { IsInRanges pool.now answer.now }
    requires total { TotalAgrees answer.now.lottery }
    ensures { IfOk result (λ text. string_bytes text ≡ summary_text pool.now answer.now
        (record { classes = sizes.now.classes; columns = sizes.now.columns; pivots = sizes.now.pivots })) }
{
    let lottery = answer.lottery();
    let counts = chances(alloc, pool, lottery)?;
    let bundle = write_bundle(alloc, pool, answer)?;
    let mut text = String::new(alloc);
    push_sizes(&mut text, pool, answer, sizes)?;
    push_total(&mut text, lottery.total())?;
    push_chance(&mut text, "least", least(&counts), lottery.total())?;
    push_chance(&mut text, "greatest", greatest(&counts), lottery.total())?;
    push_line(&mut text, "seal", seal(alloc, &bundle)?.as_str())?;
    Ok(text)
}

/// Appends the lines that come before the total: those of the numbers that say how large the pool, the answer and the last table are.
fn push_sizes(
    text: &mut String,
    pool: &Pool,
    answer: &Answer,
    sizes: &RunSizes,
) -> Result<(), AllocError>
    ensures { OnOk result (string_bytes text.new ≡ string_bytes text.old ++ text_of (size_lines pool.now answer.now
        (record { classes = sizes.now.classes; columns = sizes.now.columns; pivots = sizes.now.pivots }))) }
{
    push_number(text, "volunteers", pool.volunteers().len())?;
    push_number(text, "classes", sizes.classes)?;
    push_number(text, "size", pool.size())?;
    push_number(text, "panels", answer.lottery().rows().len())?;
    push_number(text, "columns", sizes.columns)?;
    push_number(text, "pivots", sizes.pivots as usize)?;
    push_number(text, "stages", answer.certificate().stages().len())
}

/// Appends the line of the total, which is at least 0.
fn push_total(text: &mut String, total: i128) -> Result<(), AllocError>
    requires { pos 0 ≤ℤ total }
    ensures { OnOk result (string_bytes text.new ≡ string_bytes text.old ++ text_of (number_line (codes "total") (unsigned_abs total) ∷ [])) }
{
    writeln!(text, "total\t{total}")
}

/// Appends the line of a chance, in lowest terms: a count of at least 0 over the total, which is at least 1.
fn push_chance(text: &mut String, word: &str, count: i128, total: i128) -> Result<(), AllocError>
    requires count { pos 0 ≤ℤ count }
    requires total { pos 0 <ℤ total }
    ensures { OnOk result (string_bytes text.new ≡ string_bytes text.old
        ++ text_of (field_line word.now (fraction_text (lowest_of (unsigned_abs count) (unsigned_abs total))) ∷ [])) }
{
    let chance = lowest(count, total);
    writeln!(text, "{word}\t{chance}")
}

/// Appends the line of a word and a number.
fn push_number(text: &mut String, word: &str, number: usize) -> Result<(), AllocError>
    ensures { OnOk result (string_bytes text.new ≡ string_bytes text.old ++ text_of (number_line word.now number ∷ [])) }
{
    writeln!(text, "{word}\t{number}")
}

/// Appends the line of a word and a field.
fn push_line(text: &mut String, word: &str, field: &str) -> Result<(), AllocError>
    ensures { OnOk result (string_bytes text.new ≡ string_bytes text.old ++ text_of (field_line word.now field.now ∷ [])) }
{
    writeln!(text, "{word}\t{field}")
}

/// Returns the least of the counts, which are at least 0, or 0 if there are none.
fn least(counts: &[i128]) -> i128
    requires { counts.now ≡ map pos (map unsigned_abs counts.now) }
    ensures { result ≡ pos (words_of_least (map unsigned_abs counts.now)) }
{
    let mut least = counts.first().copied().unwrap_or(0);
    for count in counts {
        least = least.min(*count);
    }
    least
}

/// Returns the greatest of the counts, which are at least 0, or 0 if there are none.
fn greatest(counts: &[i128]) -> i128
    requires { counts.now ≡ map pos (map unsigned_abs counts.now) }
    ensures { result ≡ pos (words_of_greatest (map unsigned_abs counts.now)) }
{
    let mut greatest = counts.first().copied().unwrap_or(0);
    for count in counts {
        greatest = greatest.max(*count);
    }
    greatest
}
