//! A stage as a row over classes: its cap, and for each class the weight of its first member.

ghost use Rattle.std.specs.Prelude.{◌≡◌, ◌∷◌, IfOk, map, length};
ghost use Rattle.define_pools.specs.Certificate.{weight_of as weight_in_stage};
ghost use Rattle.define_rows.specs.Row.{Row as Seen};

use crate::likeness::weight_of;
use pool_model::Stage;
use std::alloc::{AllocError, Global};
use std::marker::Model;

/// The cap of a stage, and an entry for each class.
#[derive(Debug, Drop)]
pub struct StageRow {
    cap: i128,
    entries: Vec<i128>,
}

impl Model for StageRow {
    ghost use Rattle.define_rows.specs.Row.{Row as Seen};

    ghost Value = { Seen };

    ghost view = { λ r. record { b = r.cap; a = r.entries.items } };
}

impl StageRow {
    // Makes the row of a stage. `leaders` are the first members of the classes.
    pub(crate) fn of_stage(
        alloc: Global,
        leaders: &[usize],
        stage: &Stage,
    ) -> Result<StageRow, AllocError>
        ensures { IfOk result (λ row. row ≡ record { b = stage.now.cap; a = map (weight_in_stage stage.now) leaders.now }) }
    {
        Ok(StageRow {
            cap: stage.cap(),
            entries: weights_of(alloc, leaders, stage)?,
        })
    }

    /// Returns the cap.
    pub fn side(&self) -> i128
        ensures { result ≡ self.now.b }
    {
        self.cap
    }

    /// Returns the entries in class order.
    pub fn entries(&self) -> &[i128]
        ensures { result.now ≡ self.now.a }
    {
        &self.entries
    }
}

// Returns the weights of the leaders in the stage.
fn weights_of(alloc: Global, leaders: &[usize], stage: &Stage) -> Result<Vec<i128>, AllocError>
    ensures { IfOk result (λ weights. weights.items ≡ map (weight_in_stage stage.now) leaders.now) }
{
    leaders
        .iter()
        .map(|leader| weight_of(stage, *leader))
        .collect(alloc)
}

// Makes the rows of the stages.
pub(crate) fn rows_of(
    alloc: Global,
    leaders: &[usize],
    stages: &[Stage],
) -> Result<Vec<StageRow>, AllocError>
    ensures { IfOk result (λ rows. rows.items ≡ map (λ stage. record { b = stage.cap; a = map (weight_in_stage stage) leaders.now }) stages.now) }
{
    let mut rows = Vec::new(alloc);
    for stage in stages {
        rows.push(StageRow::of_stage(alloc, leaders, stage)?)?;
    }
    Ok(rows)
}
