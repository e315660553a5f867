//! The answer to a refusal: the line `rule`, the name of the refusal and its values.

ghost use Rattle.std.specs.Prelude.{◌≡◌, ◌∷◌, [], codes, map, IfOk};
ghost use Rattle.command_shell.specs.Answers.{Stops, saying};
ghost use Rattle.define_lines.specs.Lines.{line_of, text_of};
ghost use Rattle.define_offices.specs.Lines.{part_name as words_of_part, rule_line};
ghost use Rattle.office_steps.specs.Replies.{seen_refusal};
ghost use Rattle.command_meanings.specs.Steps.{refused_by};

use command_shell::{Answer, Cause};
use itoa::Buffer;
use office_core::{Part, Refusal};
use office_tables::phase_name;
use std::alloc::{AllocError, Global};
use text_lines::push_line;

/// Returns the answer to a refusal, with status 6.
pub(crate) fn refusal_answer(alloc: Global, refusal: &Refusal) -> Result<Answer, AllocError>
    ensures { IfOk result (λ answer. saying answer ≡ refused_by (seen_refusal refusal.now)) }
{
    Ok(Answer::Stops {
        cause: Cause::Rule,
        line: refusal_line(alloc, refusal)?,
    })
}

/// Returns the line of a refusal.
fn refusal_line(alloc: Global, refusal: &Refusal) -> Result<Vec<u8>, AllocError>
    ensures { IfOk result (λ line. line.items ≡ text_of (rule_line (seen_refusal refusal.now) ∷ [])) }
{
    let mut number = Buffer::new();
    match refusal {
        Refusal::NoRound { last } => rule(alloc, &[b"NoRound", number.format(*last).as_bytes()]),
        Refusal::Incomplete { what } => rule(alloc, &[b"Incomplete", part_name(*what)]),
        Refusal::WrongPhase { phase } => {
            rule(alloc, &[b"WrongPhase", phase_name(*phase).as_bytes()])
        }
        Refusal::RowDiffers { what } => rule(alloc, &[b"RowDiffers", what.as_bytes()]),
        Refusal::KeyTaken { id } => rule(alloc, &[b"KeyTaken", id.as_bytes()]),
        Refusal::RegisterFull { rows } => {
            rule(alloc, &[b"RegisterFull", number.format(*rows).as_bytes()])
        }
        Refusal::NotSealed { phase } => {
            rule(alloc, &[b"NotSealed", phase_name(*phase).as_bytes()])
        }
        Refusal::SealDiffers { given, kept } => {
            rule(alloc, &[b"SealDiffers", given.as_bytes(), kept.as_bytes()])
        }
        Refusal::DrawDiffers { kept } => rule(alloc, &[b"DrawDiffers", kept]),
        Refusal::BadDigit { place } => {
            rule(alloc, &[b"BadDigit", number.format(*place).as_bytes()])
        }
        Refusal::MoreDigits { read } => {
            rule(alloc, &[b"MoreDigits", number.format(*read).as_bytes()])
        }
        Refusal::NotSeated { id } => rule(alloc, &[b"NotSeated", id.as_bytes()]),
        Refusal::RoundClosed { last } => {
            rule(alloc, &[b"RoundClosed", number.format(*last).as_bytes()])
        }
        Refusal::OtherPool { round } => {
            rule(alloc, &[b"OtherPool", number.format(*round).as_bytes()])
        }
        Refusal::UnknownKey => rule(alloc, &[b"UnknownKey"]),
        Refusal::TooLate => rule(alloc, &[b"TooLate"]),
        Refusal::TicketsDiffer { kept } => {
            rule(alloc, &[b"TicketsDiffer", number.format(*kept).as_bytes()])
        }
        Refusal::NotDropped { id } => rule(alloc, &[b"NotDropped", id.as_bytes()]),
        Refusal::UnknownId { id } => rule(alloc, &[b"UnknownId", id.as_bytes()]),
    }
}

/// Returns the line `rule` with these fields.
fn rule(alloc: Global, fields: &[&[u8]]) -> Result<Vec<u8>, AllocError>
    ensures { IfOk result (λ line. line.items ≡ text_of (line_of (codes "rule" ∷ map (λ field. field.now) fields.now) ∷ [])) }
{
    let mut line = Vec::new(alloc);
    push_line(&mut line, b"rule", fields)?;
    Ok(line)
}

fn part_name(part: Part) -> &'static [u8]
    ensures { result.now ≡ words_of_part part }
{
    match part {
        Part::Charter => b"charter",
        Part::Rules => b"rules",
        Part::Drops => b"drops",
    }
}
