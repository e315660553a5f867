//! The lines of `loosen`: how far bounds are moved in all, the values whose bounds are moved, and a quota panel of the loosened pool.

ghost use Rattle.std.specs.Prelude.{◌≡◌, ◌++◌, ◌∷◌, [], None, IfOk, IsTrue, OnOk};
ghost use Rattle.std.specs.List.{flat_map, zip};
ghost use Rattle.define_lines.specs.Lines.{text_of};
ghost use Rattle.define_quotas.specs.Teams.{is_team};
ghost use Rattle.command_meanings.specs.Lines.{nodes_spent_line as words_of_nodes_spent};
ghost use Rattle.command_meanings.specs.LooseningLines.{bound_line, is_moved as has_moved, loosening_text as words_of_loosening, moved_line, moved_lines, total_line};

use itoa::Buffer;
use pool_model::{BoundedValue, Category, Pool};
use pool_text::push_panel;
use quota_loosen::Loosened;
use std::alloc::{AllocError, Global};
use text_lines::{end_line, push_line, push_number};

/// Returns how far bounds are moved in all, a line for each value whose bounds are moved, and the line of the panel.
pub(crate) fn loosening_text(
    alloc: Global,
    pool: &Pool,
    loosened: &Loosened,
) -> Result<Vec<u8>, AllocError>
    requires { IsTrue (is_team pool.now loosened.now.panel) }
    ensures { IfOk result (λ text. text.items ≡ words_of_loosening pool.now loosened.now) }
{
    let mut text = Vec::new(alloc);
    push_total(&mut text, loosened.total())?;
    push_categories(&mut text, pool.categories(), loosened.pool().categories())?;
    push_panel(&mut text, pool, loosened.panel())?;
    Ok(text)
}

/// Appends the line of how far bounds are moved in all.
fn push_total(text: &mut Vec<u8>, total: usize) -> Result<(), AllocError>
    ensures { OnOk result (text.new.items ≡ text.old.items ++ text_of (total_line total ∷ [])) }
{
    let mut digits = Buffer::new();
    push_line(text, b"loosen", &[digits.format(total).as_bytes()])
}

/// Appends the lines of the values whose bounds are moved, category by category.
fn push_categories(
    text: &mut Vec<u8>,
    categories: &[Category],
    loosened: &[Category],
) -> Result<(), AllocError>
    ensures { OnOk result (text.new.items ≡ text.old.items ++ text_of (moved_lines categories.now loosened.now)) }
{
    for (category, after) in categories.iter().zip(loosened) {
        push_values(
            text,
            category.name().as_bytes(),
            category.values(),
            after.values(),
        )?;
    }
    Ok(())
}

/// Appends the lines of the values of one category whose bounds are moved.
fn push_values(
    text: &mut Vec<u8>,
    category: &[u8],
    values: &[BoundedValue],
    loosened: &[BoundedValue],
) -> Result<(), AllocError>
    ensures { OnOk result (text.new.items ≡ text.old.items ++ text_of (flat_map (moved_line category.now) (zip values.now loosened.now))) }
{
    for (value, after) in values.iter().zip(loosened) {
        push_moved(text, category, value, after)?;
    }
    Ok(())
}

/// Appends the line of a value with its bounds in the loosened pool, if they are moved.
fn push_moved(
    text: &mut Vec<u8>,
    category: &[u8],
    value: &BoundedValue,
    loosened: &BoundedValue,
) -> Result<(), AllocError>
    ensures { OnOk result (text.new.items ≡ text.old.items ++ text_of (moved_line category.now (value.now, loosened.now))) }
{
    if is_moved(value, loosened) {
        push_bound(text, category, loosened)
    } else {
        Ok(())
    }
}

/// True if a bound of the value differs in the loosened pool.
fn is_moved(value: &BoundedValue, loosened: &BoundedValue) -> bool
    ensures { result ≡ has_moved value.now loosened.now }
{
    value.lower() != loosened.lower() || value.upper() != loosened.upper()
}

/// Appends the line of a value with its bounds.
fn push_bound(text: &mut Vec<u8>, category: &[u8], value: &BoundedValue) -> Result<(), AllocError>
    ensures { OnOk result (text.new.items ≡ text.old.items ++ text_of (bound_line category.now value.now ∷ [])) }
{
    let mut lower = Buffer::new();
    let mut upper = Buffer::new();
    push_line(
        text,
        b"bound",
        &[
            category,
            value.name().as_bytes(),
            lower.format(value.lower()).as_bytes(),
            upper.format(value.upper()).as_bytes(),
        ],
    )
}

/// Returns the line of a search that needs more than `nodes` visits. It has three zeros where
/// other commands say how far a run got, since `loosen` makes no run.
pub(crate) fn nodes_spent_line(alloc: Global, nodes: u64) -> Result<Vec<u8>, AllocError>
    ensures { IfOk result (λ line. line.items ≡ words_of_nodes_spent nodes None) }
{
    let mut line = Vec::new(alloc);
    line.extend_from_slice(b"spent\tnodes")?;
    push_number(&mut line, nodes as usize)?;
    line.extend_from_slice(b"\t0\t0\t0")?;
    end_line(&mut line)?;
    Ok(line)
}
