//! The replies and refusals of a draw.

ghost use Rattle.std.specs.Prelude.{◌≡◌, ◌≤ℤ◌, pos, length, nat_lt, unsigned_abs, IfOk, IsTrue};
ghost use Rattle.std.specs.List.{list_all};
ghost use Rattle.define_lines.specs.Lines.{text_of};
ghost use Rattle.define_offices.specs.Commands as office;
ghost use Rattle.define_draws.specs.Lines.{drawn_lines as lines_of_draw};
ghost use Rattle.office_steps.specs.DrawStops.{IsStop};
ghost use Rattle.office_steps.specs.Replies.{seen_refusal, seen_reply};

use crate::replies::{Refusal, Reply};
use bundle_text::Bundle;
use pool_model::Name;
use sealed_draw::{Draw, DrawStop, drawn_lines};
use std::alloc::{AllocError, Global};

/// Returns the reply of a draw: the ticket with the count of the digits that were read, and the ids of the panel's members.
pub(crate) fn drawn_reply(alloc: Global, bundle: &Bundle, drawn: &Draw) -> Result<Reply, AllocError>
    requires ticket { pos 0 ≤ℤ drawn.now.ticket }
    requires panel { IsTrue (list_all (λ i. nat_lt i (length bundle.now.pool.volunteers)) drawn.now.panel) }
    ensures { IfOk result (λ reply. seen_reply reply
        ≡ office.Lines (text_of (lines_of_draw bundle.now (record { ticket = unsigned_abs drawn.now.ticket; used = drawn.now.used; panel = drawn.now.panel })))) }
{
    let text = drawn_lines(alloc, bundle.pool(), drawn)?;
    Ok(Reply::Lines(text))
}

/// Returns a draw's stop as a refusal. Fails if memory runs out, or if the stop says that it did.
pub(crate) fn draw_refusal(alloc: Global, stop: &DrawStop) -> Result<Refusal, AllocError>
    ensures { IfOk result (λ refusal. IsStop stop.now (seen_refusal refusal)) }
{
    match stop {
        DrawStop::SealDiffers { given, kept } => Ok(Refusal::SealDiffers {
            given: Name::new(alloc, given)?,
            kept: Name::new(alloc, kept)?,
        }),
        DrawStop::BadDigit { place } => Ok(Refusal::BadDigit { place: *place }),
        DrawStop::MoreDigits { read } => Ok(Refusal::MoreDigits { read: *read }),
        DrawStop::OutOfMemory => Err(AllocError),
    }
}
