//! The line of a spent limit, which `settling` gives.

ghost use Rattle.std.specs.Prelude.{◌≡◌, IfOk};
ghost use Rattle.command_shell.specs.declared.status.Cause.TheVariants as cause;
ghost use Rattle.command_shell.specs.Answers.{Stops, saying};
ghost use Rattle.command_meanings.specs.Prove.{proof_spent_line};

use command_shell::{Answer, Cause};
use std::alloc::{AllocError, Global};
use text_lines::{end_line, push_field, push_number};

/// Returns the answer that the limit called `what` is spent; it was `most`. Fails for want of memory.
pub(crate) fn spent(alloc: Global, what: &[u8], most: u64) -> Result<Answer, AllocError>
    ensures { IfOk result (λ answer. saying answer ≡ Stops cause.Spent (proof_spent_line what.now most)) }
{
    Ok(Answer::Stops {
        cause: Cause::Spent,
        line: spent_line(alloc, what, most)?,
    })
}

fn spent_line(alloc: Global, what: &[u8], most: u64) -> Result<Vec<u8>, AllocError>
    ensures { IfOk result (λ line. line.items ≡ proof_spent_line what.now most) }
{
    let mut line = Vec::new(alloc);
    line.extend_from_slice(b"spent")?;
    push_field(&mut line, what)?;
    push_number(&mut line, most as usize)?;
    end_line(&mut line)?;
    Ok(line)
}
