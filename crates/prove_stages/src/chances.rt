//! The chances of columns, which stages settle one after the other. The contracts promise exactly which columns have which chances.

ghost use Rattle.std.specs.Prelude.{◌≡◌, ◌↔◌, IsTrue, ◌<◌, ◌≤ℤ◌, pos, length, replicate, slice_index_or, slice_set, None, Some, IsSome, IfOk, OnErr, OnOk};
ghost use Rattle.std.specs.List.{All};

use crate::fractions::Chance;
use frac128::gcd;
use prove_limits::{Narrow, ProveStop, Span, narrow_mul};
use prove_program::Program;
use std::alloc::{AllocError, Global};
use std::marker::Model;

/// The chances of the settled columns, with a common multiple of their denominators.
#[derive(Debug, Drop)]
pub struct Chances {
    chances: Vec<Option<Chance>>,
    common: Narrow,
}

impl Model for Chances {
    ghost use Rattle.std.specs.Prelude.{pos, ◌≤ℤ◌};
    ghost use Rattle.prove_stages.specs.Chances.{Settled};

    ghost Value = { Settled };

    ghost view = { λ c. record { chances = c.chances.items; common = c.common } };

    ghost invariant = { λ c. pos 1 ≤ℤ c.common };
}

impl Chances {
    /// Returns `columns` columns, none settled yet.
    pub(crate) fn unsettled(alloc: Global, columns: usize) -> Result<Chances, AllocError>
        ensures { IfOk result (λ chances. chances ≡ record { chances = replicate columns None; common = pos 1 }) }
    {
        Ok(Chances {
            chances: vec![in alloc; None; columns]?,
            common: Narrow::ONE,
        })
    }

    /// Returns the chance of a column, if it is settled.
    pub fn chance(&self, column: usize) -> Option<Chance>
        ensures { result ≡ slice_index_or self.now.chances column None }
    {
        self.chances.get(column).copied().flatten()
    }

    /// True if all columns are settled.
    pub(crate) fn are_settled(&self) -> bool
        ensures { IsTrue result ↔ All (λ chance. IsSome chance) self.now.chances }
    {
        self.chances.iter().all(|chance| chance.is_some())
    }

    /// Returns a common multiple of the denominators of the settled chances. It is at least 1.
    pub fn common(&self) -> Narrow
        ensures value { result ≡ self.now.common }
        ensures positive { pos 1 ≤ℤ result }
    {
        self.common
    }

    /// Settles a column's chance. Stops if there is no such column. After an error nothing has changed.
    pub(crate) fn settle(&mut self, column: usize, chance: Chance) -> Result<(), ProveStop>
        ensures chances { OnOk result (self.new.chances ≡ slice_set self.old.chances column (Some chance)) }
        ensures err { OnErr result (self.new ≡ self.old) }
    {
        if column >= self.chances.len() {
            return Err(ProveStop::Lost);
        }
        self.common = self.common_with(chance)?;
        self.chances[column] = Some(chance);
        Ok(())
    }

    /// Returns the least common multiple of the common multiple and a chance's denominator. It is at least 1.
    pub(crate) fn common_with(&self, chance: Chance) -> Result<Narrow, ProveStop>
        ensures positive { IfOk result (λ common. pos 1 ≤ℤ common) }
    {
        let (common, den) = (self.common.wide(), chance.den().wide());
        let factor = common.checked_div(gcd(common, den)).ok_or(ProveStop::Lost)?;
        let multiple = narrow_mul(factor, den)?;
        if multiple.get() >= 1 {
            Ok(multiple)
        } else {
            Err(ProveStop::Lost)
        }
    }

    /// Returns the spans of the columns, times a multiple of all denominators. The members of a settled column have its chance, those of a
    /// seated column 1, and all others at least `level`. If `level` is beyond the end of a column's span, the call stops; but if `is_open`
    /// holds, the span is then `level` alone.
    pub(crate) fn column_spans(
        &self,
        alloc: Global,
        program: &Program,
        level: Chance,
        multiple: Narrow,
        is_open: bool,
    ) -> Result<Vec<Span>, ProveStop>
        ensures { IfOk result (λ spans. length spans.items ≡ length program.now.firsts) }
    {
        let mut spans = Vec::new(alloc);
        for column in 0..program.columns() {
            spans.push(self.column_span(program, column, level, multiple, is_open)?)?;
        }
        Ok(spans)
    }

    /// Returns the span of one column, as `column_spans` does.
    fn column_span(
        &self,
        program: &Program,
        column: usize,
        level: Chance,
        multiple: Narrow,
        is_open: bool,
    ) -> Result<Span, ProveStop>
        requires { column < length program.now.firsts }
    {
        let span = program.spans()[column];
        let size = program.size_of(column).wide();
        if let Some(settled) = self.chance(column) {
            let scaled = settled.scaled(multiple)?;
            return Ok(Span::point(narrow_mul(scaled.wide(), size)?));
        }
        let least = if span.least().is_zero() {
            narrow_mul(level.scaled(multiple)?.wide(), size)?
        } else {
            narrow_mul(size, multiple.wide())?
        };
        let greatest = narrow_mul(span.greatest().wide(), multiple.wide())?;
        if is_open {
            return Ok(Span::reaching(least, greatest));
        }
        Span::new(least, greatest).ok_or(ProveStop::Lost)
    }
}
