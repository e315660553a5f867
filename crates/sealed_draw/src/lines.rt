//! The lines of a draw: the ticket with how many digits were read, and the panel.

ghost use Rattle.std.specs.Prelude.{◌≡◌, ◌++◌, ◌∷◌, [], ◌≤ℤ◌, pos, codes, length, map, nat_lt, unsigned_abs, IfOk, IsTrue, OnOk};
ghost use Rattle.std.specs.Fmt.{decimal};
ghost use Rattle.std.specs.List.{list_all};
ghost use Rattle.define_lines.specs.Lines.{line_of, text_of};
ghost use Rattle.define_pools.specs.Pool.{volunteer};

use crate::drawn::Draw;
use pool_model::Pool;
use pool_text::push_panel;
use std::alloc::{AllocError, Global};
use text_lines::{end_line, push_number, push_signed};

/// Returns the two lines of a draw: the ticket with the number of digits that were read, and the ids of the panel's members.
pub fn drawn_lines(alloc: Global, pool: &Pool, drawn: &Draw) -> Result<Vec<u8>, AllocError>
    requires ticket { pos 0 ≤ℤ drawn.now.ticket }
    requires panel { IsTrue (list_all (λ i. nat_lt i (length pool.now.volunteers)) drawn.now.panel) }
    ensures { IfOk result (λ text. text.items
        ≡ text_of (line_of (codes "ticket" ∷ decimal (unsigned_abs drawn.now.ticket) ∷ decimal drawn.now.used ∷ []) ∷ [])
        ++ text_of (line_of (codes "panel" ∷ map (λ i. (volunteer pool.now.volunteers i).id) drawn.now.panel) ∷ [])) }
{
    let mut text = Vec::new(alloc);
    push_ticket(&mut text, drawn.ticket, drawn.used)?;
    push_panel(&mut text, pool, &drawn.panel)?;
    Ok(text)
}

/// Appends the line of the ticket; `used` is how many digits were read.
pub fn push_ticket(text: &mut Vec<u8>, ticket: i128, used: usize) -> Result<(), AllocError>
    requires { pos 0 ≤ℤ ticket }
    ensures { OnOk result (text.new.items ≡ text.old.items ++ text_of (line_of (codes "ticket" ∷ decimal (unsigned_abs ticket) ∷ decimal used ∷ []) ∷ [])) }
{
    text.extend_from_slice(b"ticket")?;
    push_signed(text, ticket)?;
    push_number(text, used)?;
    end_line(text)
}
