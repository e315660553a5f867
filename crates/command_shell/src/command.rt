//! What a command is: its arguments, what its answers mean, and how it answers. `calling.rt` reads the source for it and writes its answer.

ghost use Rattle.std.specs.Prelude.{ℕ, IfOk, List};
ghost use Rattle.command_shell.specs.Answers.{Saying, saying};

use crate::answer::Answer;
use crate::subject::Subject;
use std::alloc::{AllocError, Global};

/// What a command that starts threads needs from the machine.
#[derive(Drop)]
pub struct Resources<'a, R, W> {
    /// Starts threads.
    pub rt: &'a R,
    /// Hands out memory.
    pub alloc: Global,
    /// Is told of each piece of a pricing as a worker starts it.
    pub watch: &'a W,
}

/// A command with its arguments: what it reads, and which answers are right.
pub trait Meaning {
    /// What its input is read as.
    type About: Subject;

    /// Which answers are right about a value.
    ghost means: { Self → Self.About → Saying → Type 0 };
}

/// A command with its arguments that starts no threads. It is a function from the value of its input to an answer; it sees neither `out`
/// nor `errs`.
pub trait Command: Meaning {
    /// Returns an answer that is right about the value that `text` spells.
    ///
    /// # Errors
    ///
    /// Want of memory.
    fn answer(&self, alloc: Global, about: &Self::About, text: &[u8]) -> Result<Answer, AllocError>
        requires { Self.About.format.spells about.now text.now }
        ensures { IfOk result (λ answer. Self.means self.now about.now (saying answer)) };
}

/// A command with its arguments that answers from the bytes of its input, whatever they are, and starts no threads.
pub trait Answering {
    /// Which answers are right about some bytes.
    ghost answers: { Self → List ℕ → Saying → Type 0 };

    /// Returns an answer that is right about the bytes.
    ///
    /// # Errors
    ///
    /// Want of memory.
    fn answer_bytes(&self, alloc: Global, bytes: &[u8]) -> Result<Answer, AllocError>
        ensures { IfOk result (λ answer. Self.answers self.now bytes.now (saying answer)) };
}
