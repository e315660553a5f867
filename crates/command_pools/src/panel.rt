//! The command `panel`: the first quota panel of a pool.

ghost use Rattle.std.specs.Prelude.{◌≡◌, None, IfOk};
ghost use Rattle.command_shell.specs.declared.status.Cause.TheVariants as cause;
ghost use Rattle.command_shell.specs.Answers.{IsRight, Stops, saying};
ghost use Rattle.command_meanings.specs.Lines.{nodes_spent_line as words_of_nodes_spent};
ghost use Rattle.command_meanings.specs.Panel.{PanelMeans};
ghost use Rattle.command_pools.specs.Found.{FirstSays};

use crate::lines::{nodes_spent_line, panel_line};
use alike::{classes, first_panel};
use command_meanings::panel_has_one_answer;
use command_shell::{Answer, Cause, Command, Meaning, Printed, no_panel};
use define_searches::{alike_make_classes, first_search_decides};
use leximin_run::At;
use panel_search::{SearchStop, first};
use pool_model::{Panel, Pool};
use std::alloc::{AllocError, Global};

/// `panel`: the first quota panel of a pool.
#[derive(Clone, Copy, Debug)]
pub struct FirstPanel {
    /// The most visits that the search may make, from 0 to 1,000,000,000,000.
    pub nodes: u64,
}

impl Meaning for FirstPanel {
    type About = Pool;

    ghost use Rattle.command_shell.specs.Answers.{IsTheAnswer};
    ghost use Rattle.command_meanings.specs.Panel.{PanelMeans};

    ghost means = { λ command pool. IsTheAnswer (PanelMeans command.nodes pool) };
}

impl Command for FirstPanel {
    fn answer(&self, alloc: Global, pool: &Pool, _text: &[u8]) -> Result<Answer, AllocError> {
        panel_has_one_answer();
        panel(alloc, self.nodes, pool)
    }
}

/// Returns what `panel` answers about `pool`.
fn panel(alloc: Global, nodes: u64, pool: &Pool) -> Result<Answer, AllocError>
    ensures { IfOk result (λ answer. IsRight (PanelMeans nodes pool.now) (saying answer)) }
{
    match first_panel_within(alloc, nodes, pool) {
        Ok(Some(panel)) => Ok(Answer::Prints {
            printed: Printed::Done,
            text: panel_line(alloc, pool, &panel)?,
        }),
        Ok(None) => no_panel(alloc),
        Err(SearchStop::Spent) => visits_spent(alloc, nodes),
        Err(SearchStop::OutOfMemory) => Err(AllocError),
    }
}

/// Returns the answer for a search that needs more than `nodes` visits. Fails for want of memory. `why` uses it too.
pub fn visits_spent(alloc: Global, nodes: u64) -> Result<Answer, AllocError>
    ensures { IfOk result (λ answer. saying answer ≡ Stops cause.Spent (words_of_nodes_spent nodes None)) }
{
    Ok(Answer::Stops {
        cause: Cause::Spent,
        line: nodes_spent_line(alloc, nodes, &At::Opening)?,
    })
}

/// Returns the panel of the first composition, with the first members of each class, or None if there is no quota panel. Fails with `Spent`
/// if the search needs more than `nodes` visits. `why` uses it too.
pub fn first_panel_within(
    alloc: Global,
    nodes: u64,
    pool: &Pool,
) -> Result<Option<Panel>, SearchStop>
    ensures { FirstSays nodes pool.now result }
{
    alike_make_classes();
    first_search_decides();
    let Ok(classes) = classes(alloc, pool) else {
        return Err(SearchStop::OutOfMemory);
    };
    let Some(composition) = first(alloc, &classes, nodes)? else {
        return Ok(None);
    };
    match first_panel(alloc, &classes, &composition) {
        Ok(panel) => Ok(Some(panel)),
        Err(_) => Err(SearchStop::OutOfMemory),
    }
}
