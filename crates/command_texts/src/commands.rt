//! The commands that read one text, with their arguments.

use command_bundles::{Check, CheckCover, ItsCover, Seal};
use command_explain::Explain;
use command_pools::FirstPanel;
use command_proofs::{ItsBundle, Verify};
use command_questions::{Page, Question};
use command_quotas::{Loosen, LoosenByProof, Why};
use command_words::Word;
use short_tickets::TicketCount;

/// A command that reads one text. Texts among its arguments are borrowed from the words.
#[derive(Debug, Drop)]
pub enum TextCommand<'a> {
    /// The verdict on a proof.
    Verify(Verify),
    /// The bundle of a proof.
    Bundle(ItsBundle),
    /// The seal of a bundle.
    Seal(Seal),
    /// The panel that dice draw from a bundle.
    Draw {
        /// The bundle's seal, as it was published.
        seal: Word<'a>,
        /// The digits of dice.
        digits: Word<'a>,
    },
    /// The panel that dice draw from a bundle in a round number of tickets.
    ShortDraw {
        /// The number of tickets.
        tickets: TicketCount,
        /// The bundle's seal, as it was published.
        seal: Word<'a>,
        /// The digits of dice.
        digits: Word<'a>,
    },
    /// The first quota panel of a pool.
    Panel(FirstPanel),
    /// The least loosening of a pool's quotas.
    Loosen(Loosen),
    /// Quotas of a pool that can't be met together, or a quota panel.
    Why(Why),
    /// A least loosening of a pool's quotas, found by integer programs and shown to be least by sums.
    LoosenByProof(LoosenByProof),
    /// A page about the lottery of a bundle.
    Page(Page),
    /// A page about the lottery of a bundle, and about the panel that dice draw from it.
    DrawnPage {
        /// The number of tickets, if the draw is in a round number of them.
        tickets: Option<TicketCount>,
        /// The digits of dice.
        digits: Word<'a>,
    },
    /// The verdict on the certificate of a bundle.
    Check(Check),
    /// A cover of a bundle.
    Cover(ItsCover),
    /// The verdict on a cover.
    CheckCover(CheckCover),
    /// A text that answers a question about a bundle.
    Question(Question),
    /// What any file is, in words.
    Explain(Explain),
}
