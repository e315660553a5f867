//! Lotteries: panels with their weights, and the weights' total.

ghost use Rattle.std.specs.Prelude.{◌≡◌, ◌==◌, ◌<◌, ◌^◌, ◌≤ℤ◌, ◌++◌, ◌∷◌, [], pos, sum_by, unsigned_abs, IfOk, OnOk, OnErr};

use crate::panels::Panel;
use std::alloc::{AllocError, Global};
use std::marker::Model;

/// A panel and its weight in a lottery. The weight is at least 0.
#[derive(Debug, Drop)]
pub struct LotteryRow {
    panel: Panel,
    weight: i128,
}

impl Model for LotteryRow {
    ghost use Rattle.std.specs.Prelude.{◌≤ℤ◌, pos, unsigned_abs};
    ghost use Rattle.define_pools.specs.Lottery.{LotteryRow as Seen};

    ghost Value = { Seen };

    ghost view = { λ r. record { panel = r.panel; weight = unsigned_abs r.weight } };

    ghost invariant = { λ r. pos 0 ≤ℤ r.weight };
}

impl LotteryRow {
    /// Returns the row of `panel` with `weight`, which is at least 0.
    pub fn new(panel: Panel, weight: i128) -> LotteryRow
        requires { pos 0 ≤ℤ weight }
        ensures { result ≡ record { panel = panel; weight = unsigned_abs weight } }
    {
        LotteryRow { panel, weight }
    }

    /// Returns the panel.
    pub fn panel(&self) -> &Panel
        ensures { result.now ≡ self.now.panel }
    {
        &self.panel
    }

    /// Returns the panel's weight, at least 0.
    pub fn weight(&self) -> i128
        ensures { result ≡ pos self.now.weight }
    {
        self.weight
    }

    /// Returns an equal row.
    pub fn copy(&self) -> Result<LotteryRow, AllocError>
        ensures { IfOk result (λ copied. copied ≡ self.now) }
    {
        Ok(LotteryRow {
            panel: self.panel.copy()?,
            weight: self.weight,
        })
    }
}

/// Panels with their weights, in order, and a total of at least 0. In a lottery over a pool the total is the sum of the weights.
#[derive(Debug, Drop)]
pub struct Lottery {
    total: i128,
    rows: Vec<LotteryRow>,
}

impl Model for Lottery {
    ghost use Rattle.std.specs.Prelude.{◌≤ℤ◌, pos, unsigned_abs};
    ghost use Rattle.define_pools.specs.Lottery.{Lottery as Seen};

    ghost Value = { Seen };

    ghost view = { λ l. record { total = unsigned_abs l.total; rows = l.rows.items } };

    ghost invariant = { λ l. pos 0 ≤ℤ l.total };
}

impl Lottery {
    /// Returns the lottery of `rows` with the total `total`, which is at least 0. The weights need not sum to it.
    pub fn new(total: i128, rows: Vec<LotteryRow>) -> Lottery
        requires { pos 0 ≤ℤ total }
        ensures { result ≡ record { total = unsigned_abs total; rows = rows.items } }
    {
        Lottery { total, rows }
    }

    /// Appends a row.
    pub fn add_row(&mut self, row: LotteryRow) -> Result<(), AllocError>
        ensures ok { OnOk result (self.new ≡ record { total = self.old.total; rows = self.old.rows ++ row ∷ [] }) }
        ensures err { OnErr result (self.new ≡ self.old) }
    {
        self.rows.push(row)?;
        Ok(())
    }

    /// Returns the total, at least 0.
    pub fn total(&self) -> i128
        ensures { result ≡ pos self.now.total }
    {
        self.total
    }

    /// Returns the panels with their weights.
    pub fn rows(&self) -> &[LotteryRow]
        ensures value { result.now ≡ self.now.rows }
        ensures total { self.now.total < 2 ^ 127 }
    {
        let _total = self.total;
        &self.rows
    }

    /// True if the weights sum to the total.
    pub fn weights_sum_to_total(&self) -> bool
        ensures { result ≡ (self.now.total == sum_by (λ row. row.weight) self.now.rows) }
    {
        weights_sum_to(self.total.unsigned_abs(), &self.rows)
    }

    /// Returns an equal lottery.
    pub fn copy(&self) -> Result<Lottery, AllocError>
        ensures { IfOk result (λ copied. copied ≡ self.now) }
    {
        let rows = copied_rows(*self.rows.allocator(), &self.rows)?;
        Ok(Lottery {
            total: self.total,
            rows,
        })
    }
}

/// True if the weights of the rows sum to `total`. Subtracts each weight from the total, so no sum overflows 128 bits.
fn weights_sum_to(total: u128, rows: &[LotteryRow]) -> bool
    ensures { result ≡ (total == sum_by (λ row. row.weight) rows.now) }
{
    let mut rest = total;
    for row in rows {
        let weight = row.weight().unsigned_abs();
        if rest < weight {
            return false;
        }
        rest -= weight;
    }
    rest == 0
}

fn copied_rows(alloc: Global, rows: &[LotteryRow]) -> Result<Vec<LotteryRow>, AllocError>
    ensures { IfOk result (λ copies. copies.items ≡ rows.now) }
{
    let mut copies = Vec::new(alloc);
    for row in rows {
        copies.push(row.copy()?)?;
    }
    Ok(copies)
}
