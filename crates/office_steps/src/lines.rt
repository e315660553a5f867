//! Replies of one line.

ghost use Rattle.std.specs.Prelude.{◌≡◌, ◌∷◌, map, IfOk};
ghost use Rattle.define_lines.specs.Lines.{line_of};
ghost use Rattle.define_offices.specs.Lines.{one_line};
ghost use Rattle.office_steps.specs.Replies.{seen_reply};

use crate::replies::Reply;
use std::alloc::{AllocError, Global};
use text_lines::push_line;

/// Returns the reply of one line: a word and its fields.
pub fn line(alloc: Global, word: &[u8], fields: &[&[u8]]) -> Result<Reply, AllocError>
    ensures { IfOk result (λ reply. seen_reply reply ≡ one_line (line_of (word.now ∷ map (λ field. field.now) fields.now))) }
{
    let mut text = Vec::new(alloc);
    push_line(&mut text, word, fields)?;
    Ok(Reply::Lines(text))
}
