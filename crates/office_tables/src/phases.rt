//! The name of a phase, as the lines of replies, refusals and reports and the page of a volunteer tell it.

ghost use Rattle.std.specs.Prelude.{◌≡◌};
ghost use Rattle.define_offices.specs.Lines.{phase_name as words_of_phase};

use define_offices::Phase;

/// Returns the name of a phase.
pub fn phase_name(phase: Phase) -> &'static str
    ensures { result.now ≡ words_of_phase phase }
{
    match phase {
        Phase::Open => "Open",
        Phase::Solved => "Solved",
        Phase::Sealed => "Sealed",
        Phase::Drawn => "Drawn",
    }
}
