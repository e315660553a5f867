//! The lines of `verify` and `bundle` that no other command prints.

ghost use Rattle.std.specs.Prelude.{◌≡◌, IfOk};
ghost use Rattle.command_meanings.specs.ItsBundle.{no_lottery_line as words_of_no_lottery};
ghost use Rattle.command_meanings.specs.Verify.{valid_none_line as words_of_valid_none};

use std::alloc::{AllocError, Global};
use text_lines::push_line;

/// Returns the line of a valid proof that there is no quota panel.
pub(crate) fn valid_none_line(alloc: Global) -> Result<Vec<u8>, AllocError>
    ensures { IfOk result (λ line. line.items ≡ words_of_valid_none) }
{
    let mut line = Vec::new(alloc);
    push_line(&mut line, b"valid", &[b"none"])?;
    Ok(line)
}

/// Returns the line of the rule that refuses a proof that there is no quota panel, since it has no lottery.
pub(crate) fn no_lottery_line(alloc: Global) -> Result<Vec<u8>, AllocError>
    ensures { IfOk result (λ line. line.items ≡ words_of_no_lottery) }
{
    let mut line = Vec::new(alloc);
    push_line(&mut line, b"rule", &[b"NoLottery"])?;
    Ok(line)
}
