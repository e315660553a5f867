//! The table of a lottery's tickets.

ghost use Rattle.std.specs.Prelude.{◌≡◌, ◌<◌, ◌≤ℤ◌, pos, sum, unsigned_abs, IfOk};
ghost use Rattle.define_pools.specs.Lottery.{TotalAgrees};
ghost use Rattle.define_draws.specs.Tickets.{HoldsTicket, row_of, weights_of};

use pool_model::Lottery;
use std::alloc::{AllocError, Global};
use std::marker::Model;

/// The ranges of tickets of a lottery's rows. Contracts see it as the list of the rows' weights.
#[derive(Debug, Drop)]
pub struct TicketTable {
    /// The end of each row's range: the first ticket after it.
    ends: Vec<u128>,
}

impl Model for TicketTable {
    ghost use Rattle.std.specs.Prelude.{List, ℕ};
    ghost use Rattle.tickets.specs.Ends.{Rise, gaps};

    ghost Value = { List ℕ };

    ghost view = { λ t. gaps 0 t.ends.items };

    ghost invariant = { λ t. Rise 0 t.ends.items };
}

/// Returns the table of a lottery whose weights are at least 1 and sum to its total.
pub fn table(alloc: Global, lottery: &Lottery) -> Result<TicketTable, AllocError>
    requires { TotalAgrees lottery.now }
    ensures { IfOk result (λ table. table ≡ weights_of lottery.now) }
{
    let mut ends = Vec::new(alloc);
    let mut end: u128 = 0;
    for row in lottery.rows() {
        end += row.weight().unsigned_abs();
        ends.push(end)?;
    }
    Ok(TicketTable { ends })
}

/// Returns the number of the row whose range contains `ticket`, counted from 0. The ticket is from 0 to the sum of the weights less 1.
pub fn pick(table: &TicketTable, ticket: i128) -> usize
    requires from { pos 0 ≤ℤ ticket }
    requires below { unsigned_abs ticket < sum table.now }
    ensures holds { HoldsTicket table.now result (unsigned_abs ticket) }
    ensures row { result ≡ row_of table.now (unsigned_abs ticket) }
{
    let ticket = ticket.unsigned_abs();
    table.ends.partition_point(|end| *end <= ticket)
}
