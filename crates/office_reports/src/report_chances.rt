//! The lines of a report on the volunteers' chances. A helper of `reports`.

ghost use Rattle.std.specs.Prelude.{◌≡◌, ◌≤◌, ◌≤ℤ◌, ◌<ℤ◌, ◌++◌, ◌∷◌, [], pos, unsigned_abs, OnOk};
ghost use Rattle.frac128.specs.Fractions.{lowest_of};
ghost use Rattle.define_lines.specs.Lines.{text_of};
ghost use Rattle.define_pools.specs.Lottery.{TotalAgrees};
ghost use Rattle.define_offices.specs.Report.{chance_line, chance_lines};

use frac128::lowest;
use pool_model::{Lottery, Name, Pool, chances};
use std::alloc::{AllocError, Global};
use text_lines::push_line;

/// Appends each volunteer's chance. The weights of the lottery sum to its total.
pub(crate) fn push_chances(
    alloc: Global,
    text: &mut Vec<u8>,
    pool: &Pool,
    lottery: &Lottery,
) -> Result<(), AllocError>
    requires agrees { TotalAgrees lottery.now }
    requires total { 1 ≤ lottery.now.total }
    ensures { OnOk result (text.new.items ≡ text.old.items ++ text_of (chance_lines pool.now lottery.now)) }
{
    let counts = chances(alloc, pool, lottery)?;
    for (i, volunteer) in pool.volunteers().iter().enumerate() {
        push_chance(alloc, text, volunteer.id(), counts[i], lottery.total())?;
    }
    Ok(())
}

/// Appends the chance of the volunteer of this id: a count of at least 0 over the total, in lowest terms.
fn push_chance(
    alloc: Global,
    text: &mut Vec<u8>,
    id: &Name,
    count: i128,
    total: i128,
) -> Result<(), AllocError>
    requires count { pos 0 ≤ℤ count }
    requires total { pos 0 <ℤ total }
    ensures { OnOk result (text.new.items ≡ text.old.items
        ++ text_of (chance_line id.now (lowest_of (unsigned_abs count) (unsigned_abs total)) ∷ [])) }
{
    let chance = format!(in alloc; "{}", lowest(count, total))?;
    push_line(text, b"chance", &[id.as_bytes(), chance.as_bytes()])
}
