//! What a search at a stage reads: the classes, the caps as rows over them, and the greatest sums of units in each row.

ghost use Rattle.std.specs.Prelude.{◌≡◌, ◌∷◌, IfOk, IsTrue, length};
ghost use Rattle.std.specs.List.{list_all};
ghost use Rattle.define_bundles.specs.Ranges.{is_stage};
ghost use Rattle.check_search.specs.Terms.{AreOfStage, AreTerms};
ghost use Rattle.define_searches.specs.Fronts.{HaveEntries, HaveReach};

use crate::greatest::{Sums, all_sums};
use crate::grouping::{classes_at, leaders};
use crate::groups::Classes;
use crate::likeness::Likeness;
use crate::rows::{StageRow, rows_of};
use pool_model::{Pool, Stage};
use std::alloc::{AllocError, Global};

/// The classes at a stage, the caps of the earlier stages as closed rows, the latest first, and that of the stage as a row, each with its
/// greatest sums. The search changes none of it.
#[derive(Debug, Drop)]
pub struct Terms {
    /// The classes.
    pub classes: Classes,
    /// The caps of the earlier stages, the latest first.
    pub closed: Vec<StageRow>,
    /// The greatest sums in each of these rows.
    pub closed_sums: Vec<Sums>,
    /// The cap of the stage.
    pub row: StageRow,
    /// The greatest sums in it.
    pub sums: Sums,
}

impl Terms {
    // Makes the terms of a stage after the earlier stages, which are listed with the latest first.
    pub(crate) fn new(
        alloc: Global,
        pool: &Pool,
        earlier: &[Stage],
        stage: &Stage,
    ) -> Result<Terms, AllocError>
        requires { IsTrue (list_all (is_stage (length pool.now.volunteers)) (stage.now ∷ earlier.now)) }
        ensures terms { IfOk result (λ terms. AreTerms terms) }
        ensures stage { IfOk result (λ terms. AreOfStage pool.now earlier.now stage.now terms) }
    {
        let likeness = Likeness::new(alloc, pool, earlier, stage)?;
        let leaders = leaders(alloc, &likeness)?;
        let classes = classes_at(alloc, &likeness, &leaders)?;
        let closed = rows_of(alloc, &leaders, earlier)?;
        let row = StageRow::of_stage(alloc, &leaders, stage)?;
        Ok(Terms::of_rows(alloc, classes, closed, row)?)
    }

    // Makes the terms of `classes`, `closed` and `row`, with the greatest sums.
    fn of_rows(
        alloc: Global,
        classes: Classes,
        closed: Vec<StageRow>,
        row: StageRow,
    ) -> Result<Terms, AllocError>
        requires entries { HaveEntries classes (row ∷ closed.items) }
        requires reach { HaveReach classes (row ∷ closed.items) }
        ensures terms { IfOk result (λ terms. AreTerms terms) }
        ensures classes { IfOk result (λ terms. terms.classes ≡ classes) }
        ensures closed { IfOk result (λ terms. terms.closed.items ≡ closed.items) }
        ensures row { IfOk result (λ terms. terms.row ≡ row) }
    {
        let closed_sums = all_sums(alloc, &classes, &closed)?;
        let sums = Sums::new(alloc, &classes, &row)?;
        Ok(Terms {
            classes,
            closed,
            closed_sums,
            row,
            sums,
        })
    }
}
