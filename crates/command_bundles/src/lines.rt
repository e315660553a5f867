//! The lines that `seal` and `check` print, and those of a draw that is refused.

ghost use Rattle.std.specs.Prelude.{◌≡◌, ◌∷◌, [], codes, string_bytes, IfOk};
ghost use Rattle.std.specs.Fmt.{decimal};
ghost use Rattle.define_draws.specs.Seal.{seal_of};
ghost use Rattle.command_shell.specs.Lines.{line as words_of_line};
ghost use Rattle.command_meanings.specs.Check.{refused_line as words_of_refused, visits_spent_line};

use cert_check::Refusal;
use sealed_draw::seal;
use std::alloc::{AllocError, Global};
use text_lines::{end_line, push_field, push_line, push_number, push_numbers};

/// Returns the line of `seal`: the seal of `text`.
pub(crate) fn seal_line(alloc: Global, text: &[u8]) -> Result<Vec<u8>, AllocError>
    ensures { IfOk result (λ line. line.items ≡ words_of_line (codes "seal" ∷ seal_of text.now ∷ [])) }
{
    let seal = seal(alloc, text)?;
    let mut line = Vec::new(alloc);
    push_line(&mut line, b"seal", &[seal.as_bytes()])?;
    Ok(line)
}

/// Returns the line of a draw that is refused because the given seal isn't the bundle's, `kept`.
pub(crate) fn seal_rule_line(alloc: Global, given: &str, kept: &str) -> Result<Vec<u8>, AllocError>
    ensures { IfOk result (λ line. line.items ≡ words_of_line (codes "rule" ∷ codes "SealDiffers" ∷ given.now ∷ kept.now ∷ [])) }
{
    let mut line = Vec::new(alloc);
    push_line(
        &mut line,
        b"rule",
        &[b"SealDiffers", given.as_bytes(), kept.as_bytes()],
    )?;
    Ok(line)
}

/// Returns the line of a draw that is refused for its digits: the rule, and `number`, which is the place of a bad digit, or how many
/// digits were read before more were needed.
pub(crate) fn number_rule_line(
    alloc: Global,
    rule: &[u8],
    number: usize,
) -> Result<Vec<u8>, AllocError>
    ensures { IfOk result (λ line. line.items ≡ words_of_line (codes "rule" ∷ rule.now ∷ decimal number ∷ [])) }
{
    let mut line = Vec::new(alloc);
    line.extend_from_slice(b"rule")?;
    push_field(&mut line, rule)?;
    push_number(&mut line, number)?;
    end_line(&mut line)?;
    Ok(line)
}

/// Returns the line for a certificate that holds, or for a valid proof of a lottery.
pub fn valid_line(alloc: Global) -> Result<Vec<u8>, AllocError>
    ensures { IfOk result (λ line. line.items ≡ words_of_line (codes "valid" ∷ [])) }
{
    let mut line = Vec::new(alloc);
    push_line(&mut line, b"valid", &[])?;
    Ok(line)
}

/// Returns the line for a refused certificate or proof: the stage, the reason, and the numbers of the volunteers who show it. For the
/// reasons 11 and 12, which only a proof has, it names no volunteers, but the number of the faulty line in the proof's text.
pub fn refused_line(alloc: Global, refusal: &Refusal) -> Result<Vec<u8>, AllocError>
    ensures { IfOk result (λ line. line.items ≡ words_of_refused refusal.now) }
{
    let mut line = Vec::new(alloc);
    line.extend_from_slice(b"refused")?;
    push_number(&mut line, refusal.stage())?;
    push_number(&mut line, usize::from(refusal.reason()))?;
    push_numbers(&mut line, refusal.who())?;
    end_line(&mut line)?;
    Ok(line)
}

/// Returns the line for a check whose search needs more visits than its budget: `nodes`, the stage, and 0 columns and 0 pivots, since a
/// check has none.
pub(crate) fn nodes_spent_line(
    alloc: Global,
    nodes: u64,
    stage: usize,
) -> Result<Vec<u8>, AllocError>
    ensures { IfOk result (λ line. line.items ≡ visits_spent_line nodes stage) }
{
    let mut line = Vec::new(alloc);
    line.extend_from_slice(b"spent\tnodes")?;
    push_number(&mut line, nodes as usize)?;
    push_number(&mut line, stage)?;
    line.extend_from_slice(b"\t0\t0")?;
    end_line(&mut line)?;
    Ok(line)
}
