//! The pool of the next round, by a mark for each volunteer. `selection` has the call.

ghost use Rattle.std.specs.Prelude.{◌≡◌, IfOk, filter, length};
ghost use Rattle.std.specs.List.{range_with_len};
ghost use Rattle.command_shell.specs.Answers.{saying};
ghost use Rattle.command_browser.specs.NextPools.{IsNextPool, is_dropped as is_dropped_by, is_member as is_member_by, mark_at, members_by};

use command_shell::{Answer, Command, Meaning, Printed};
use pool_model::{Panel, Pool};
use pool_text::write_pool;
use rounds::pool_after;
use std::alloc::{AllocError, Global};

/// The pool of the next round.
#[derive(Clone, Copy, Debug)]
pub(crate) struct NextPool<'a> {
    /// A mark for each volunteer: 0 if not in the panel, 1 for a member who comes, 2 or more for a member who can't.
    pub(crate) marks: &'a [u8],
}

impl Meaning for NextPool<'_> {
    type About = Pool;

    ghost use Rattle.command_browser.specs.NextPools.{IsNextPool};

    ghost means = { λ command pool. IsNextPool command.marks.now pool };
}

impl Command for NextPool<'_> {
    fn answer(&self, alloc: Global, pool: &Pool, _text: &[u8]) -> Result<Answer, AllocError> {
        told(alloc, self.marks, pool)
    }
}

/// Returns the text of the next pool.
fn told(alloc: Global, marks: &[u8], pool: &Pool) -> Result<Answer, AllocError>
    ensures { IfOk result (λ answer. IsNextPool marks.now pool.now (saying answer)) }
{
    let panel = panel_of(alloc, marks, pool)?;
    let drops = dropped_of(alloc, marks, pool.volunteers().len())?;
    let next = pool_after(pool, &panel, &drops)?;
    Ok(Answer::Prints {
        printed: Printed::Done,
        text: write_pool(alloc, &next)?,
    })
}

/// Returns the panel of the marks.
fn panel_of(alloc: Global, marks: &[u8], pool: &Pool) -> Result<Panel, AllocError>
    ensures { IfOk result (λ panel. panel ≡ members_by marks.now pool.now) }
{
    let members = members_of(alloc, marks, pool.volunteers().len())?;
    match Panel::new(members) {
        Some(panel) => Ok(panel),
        None => unreachable!(),
    }
}

/// Returns the numbers of the volunteers below `volunteers` who are in the panel.
fn members_of(alloc: Global, marks: &[u8], volunteers: usize) -> Result<Vec<usize>, AllocError>
    ensures { IfOk result (λ members. members.items ≡ filter (is_member_by marks.now) (range_with_len 0 volunteers)) }
{
    (0..volunteers)
        .filter(|i| is_member(marks, *i))
        .collect(alloc)
}

/// Returns the numbers of the volunteers below `volunteers` who are in the panel and can't come.
fn dropped_of(alloc: Global, marks: &[u8], volunteers: usize) -> Result<Vec<usize>, AllocError>
    ensures { IfOk result (λ drops. drops.items ≡ filter (is_dropped_by marks.now) (range_with_len 0 volunteers)) }
{
    (0..volunteers)
        .filter(|i| is_dropped(marks, *i))
        .collect(alloc)
}

/// True if a volunteer is in the panel.
fn is_member(marks: &[u8], i: usize) -> bool
    ensures { result ≡ is_member_by marks.now i }
{
    1 <= mark_of(marks, i)
}

/// True if a volunteer is in the panel and can't come.
fn is_dropped(marks: &[u8], i: usize) -> bool
    ensures { result ≡ is_dropped_by marks.now i }
{
    2 <= mark_of(marks, i)
}

/// Returns the mark of a volunteer.
fn mark_of(marks: &[u8], i: usize) -> u8
    ensures { result ≡ mark_at marks.now i }
{
    match marks.get(i) {
        Some(mark) => *mark,
        None => 0,
    }
}
