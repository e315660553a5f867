//! The lines of `panel` and `lottery`: a panel's members, and why the search or the run stops. `make` prints the lines for stops too.

ghost use Rattle.std.specs.Prelude.{◌≡◌, ◌++◌, IfOk, OnOk, IsTrue};
ghost use Rattle.define_pools.specs.Pool.{is_quota_panel};
ghost use Rattle.define_runs.specs.Spreading.{TotalPass};
ghost use Rattle.define_lines.specs.Lines.{tabbed};
ghost use Rattle.leximin_run.specs.Answers.{IsTotalPass, stood};
ghost use Rattle.command_meanings.specs.Lines.{
  nodes_spent_line as words_of_nodes_spent,
  operation as words_of_operation,
  panel_line as words_of_panel,
  pivots_spent_line as words_of_pivots_spent,
  place as words_of_place,
  total_line as words_of_total,
  wide_line as words_of_wide,
};

use define_rows::{Op, Pass};
use leximin_run::At;
use pool_model::{Panel, Pool};
use pool_text::push_panel;
use std::alloc::{AllocError, Global};
use text_lines::{end_line, push_field, push_number, push_signed};

/// Returns the line of a quota panel: the ids of its members.
pub(crate) fn panel_line(alloc: Global, pool: &Pool, panel: &Panel) -> Result<Vec<u8>, AllocError>
    requires { IsTrue (is_quota_panel pool.now panel.now) }
    ensures { IfOk result (λ line. line.items ≡ words_of_panel pool.now panel.now) }
{
    let mut line = Vec::new(alloc);
    push_panel(&mut line, pool, panel)?;
    Ok(line)
}

/// Returns the line of an operation that passes the width: how far the run got, the row, the operation and its two numbers.
pub(crate) fn wide_line(alloc: Global, at: &At, pass: &Pass) -> Result<Vec<u8>, AllocError>
    ensures { IfOk result (λ line. line.items ≡ words_of_wide (stood at.now) pass.now) }
{
    let mut line = Vec::new(alloc);
    line.extend_from_slice(b"wide")?;
    push_place(&mut line, at)?;
    push_number(&mut line, pass.row)?;
    push_field(&mut line, operation(pass.op))?;
    push_signed(&mut line, pass.x)?;
    push_signed(&mut line, pass.y)?;
    end_line(&mut line)?;
    Ok(line)
}

/// Returns the line of a total that passes 10^38: the number of the composition whose fraction makes it pass, the total of the compositions
/// before it, and the fraction's denominator.
pub(crate) fn total_line(
    alloc: Global,
    place: usize,
    total: i128,
    den: i128,
) -> Result<Vec<u8>, AllocError>
    ensures { (pass : TotalPass) → IsTotalPass pass place total den → IfOk result (λ line. line.items ≡ words_of_total pass) }
{
    let mut line = Vec::new(alloc);
    line.extend_from_slice(b"wide\ttotal")?;
    push_number(&mut line, place)?;
    push_signed(&mut line, total)?;
    push_signed(&mut line, den)?;
    end_line(&mut line)?;
    Ok(line)
}

/// Returns the line of a run that spent its `pivots` pivots, with how far it got.
pub(crate) fn pivots_spent_line(alloc: Global, pivots: u64, at: &At) -> Result<Vec<u8>, AllocError>
    ensures { IfOk result (λ line. line.items ≡ words_of_pivots_spent pivots (stood at.now)) }
{
    let mut line = Vec::new(alloc);
    line.extend_from_slice(b"spent\tpivots")?;
    push_number(&mut line, pivots as usize)?;
    push_place(&mut line, at)?;
    end_line(&mut line)?;
    Ok(line)
}

/// Returns the line of a search that needs more than `nodes` visits, with how far the run got.
pub(crate) fn nodes_spent_line(alloc: Global, nodes: u64, at: &At) -> Result<Vec<u8>, AllocError>
    ensures { IfOk result (λ line. line.items ≡ words_of_nodes_spent nodes (stood at.now)) }
{
    let mut line = Vec::new(alloc);
    line.extend_from_slice(b"spent\tnodes")?;
    push_number(&mut line, nodes as usize)?;
    push_place(&mut line, at)?;
    end_line(&mut line)?;
    Ok(line)
}

/// Appends how far the run got: its stages, columns and pivots, or three zeros before it has a table.
fn push_place(line: &mut Vec<u8>, at: &At) -> Result<(), AllocError>
    ensures { OnOk result (line.new.items ≡ line.old.items ++ tabbed (words_of_place (stood at.now))) }
{
    match at {
        At::Opening => line.extend_from_slice(b"\t0\t0\t0"),
        At::Table(table) => {
            push_number(line, table.stage())?;
            push_number(line, table.columns().len())?;
            push_number(line, table.pivots() as usize)
        }
    }
}

fn operation(op: Op) -> &'static [u8]
    ensures { result.now ≡ words_of_operation op }
{
    match op {
        Op::Mul => b"mul",
        Op::Sub => b"sub",
        Op::Add => b"add",
    }
}
