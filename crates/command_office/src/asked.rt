//! The commands of the program with their arguments, as the words of a call give them. `read_asked` is the only call that others use.

ghost use Rattle.std.specs.Prelude.{◌≡◌, codes, map, string_bytes};
ghost use Rattle.command_words.specs.Given.{number_of};
ghost use Rattle.command_words.specs.Words.{Says};
ghost use Rattle.command_office.specs.Asked.{
  asked,
  asked_by as words_of_asked,
  draw_from as words_of_draw,
  draw_step as words_of_draw_step,
  drop_asked as words_of_drop,
  import_asked as words_of_import,
  limits_from as words_of_limits,
  later_round_from as words_of_later_round,
  legs_asked as words_of_legs,
  limits_in,
  lottery_asked as words_of_lottery,
  lottery_from as words_of_lottery_from,
  make_asked as words_of_make,
  page_from as words_of_page,
  prove_from as words_of_prove,
  reopen_asked as words_of_reopen,
  round_draw_asked as words_of_round_draw,
  round_or_first as words_of_first,
  round_page_from as words_of_round_page,
  round_proof_asked as words_of_round_proof,
  round_seal_from as words_of_round_seal,
  seal_from as words_of_seal,
  seal_step_asked as words_of_seal_step,
  serve_asked as words_of_serve,
  serve_from as words_of_serve_from,
  solve_asked as words_of_solve,
  step_asked as words_of_step,
  round_text_asked as words_of_round_text,
  text_command_asked as words_of_text_command,
  text_draw_from as words_of_text_draw,
  text_seal_from as words_of_text_seal,
  tickets_from as words_of_tickets,
  undrop_asked as words_of_undrop,
  volunteers_in,
  withdraw_asked as words_of_withdraw,
  workers_from as words_of_workers,
  workers_in,
};

use crate::steps::Step;
use command_desk::Serve;
use command_meanings::{Import, RoundText, StoreText};
use command_pools::{Legs, Lottery, Make, SharedLottery, Volunteers};
use command_proofs::Prove;
use command_stores::ProveRound;
use command_texts::{TextCommand, prove_in, text_asked};
use command_words::{CommandName, Given, Word, WordsStop, read_words};
use define_runs::{Limits, Workers};
use office_tables::{LaterRound, Tickets};
use std::alloc::Global;

/// The text for `errs` if options don't go together, or if a number is out of its range though `clap` accepted it. The second case never
/// comes, since `clap` tests the ranges.
const OUT_OF_RANGE: &str =
    "error: these options don't go together, or a number is out of its range\n";

/// What the words of a call ask for. Texts are borrowed from the words.
#[derive(Debug, Drop)]
pub enum Asked<'a> {
    /// A command that reads one text.
    Text(TextCommand<'a>),
    /// The lottery of a pool or of a bundle, with a proof.
    Prove(Prove),
    /// The lottery of a pool, by the stated run.
    Lottery(Lottery),
    /// The lottery of a pool, by the stated run, whose workers share a bound.
    SharedLottery(SharedLottery),
    /// The legs of the run over a pool.
    Legs(Legs),
    /// The summary of the run over a made pool.
    Make(Make),
    /// A command of the office, over a store.
    Step {
        /// The path of the store.
        store: Word<'a>,
        /// The command.
        step: Step<'a>,
    },
    /// An import of a file into a store.
    Import {
        /// The path of the store.
        store: Word<'a>,
        /// What is imported.
        import: Import,
    },
    /// A proof of a round of a store, which the round keeps.
    ProveRound {
        /// The path of the store.
        store: Word<'a>,
        /// The round, and the budget of the run.
        proving: ProveRound,
    },
    /// A text that is made of the tables of a store.
    StoreText {
        /// The path of the store.
        store: Word<'a>,
        /// The text.
        text: StoreText,
    },
    /// The desk of an office over HTTP.
    Serve {
        /// The path of the store.
        store: Word<'a>,
        /// The port, and how many links are attended at most.
        serve: Serve,
    },
}

/// Returns the command that the words ask for. `words` don't include the program's name. Fails with `Usage` if they ask for nothing, and
/// with `OutOfMemory` if memory runs out.
pub fn read_asked<'a>(alloc: Global, words: &'a [String]) -> Result<Asked<'a>, WordsStop>
    ensures { Says (asked (map string_bytes words.entry.now)) result }
{
    let given = read_words(alloc, words)?;
    match asked_by(&given) {
        Some(asked) => Ok(asked),
        None => match String::from_str(alloc, OUT_OF_RANGE) {
            Ok(text) => Err(WordsStop::Usage(text)),
            Err(_) => Err(WordsStop::OutOfMemory),
        },
    }
}

/// Returns the command with the values that the words give, or None if a value is missing or out of its range, or options
/// don't go together.
fn asked_by<'a>(given: &Given<'a>) -> Option<Asked<'a>>
    ensures { result ≡ words_of_asked given.now }
{
    match given.command() {
        CommandName::Prove => prove_from(given, given.text("store")),
        CommandName::Seal => seal_from(given, given.text("store")),
        CommandName::Draw => draw_from(given, given.text("store")),
        CommandName::Page => page_from(given, given.text("store")),
        CommandName::Lottery => lottery_of(given),
        CommandName::Legs => legs_of(given),
        CommandName::Make => make_of(given),
        CommandName::Solve => solve_of(given),
        CommandName::Drop => drop_of(given),
        CommandName::NextRound => {
            let after = given.number("after")? as usize;
            step_of(given, Step::NextRound { after })
        }
        CommandName::Undrop => undrop_of(given),
        CommandName::Reopen => reopen_of(given),
        CommandName::Withdraw => withdraw_of(given),
        CommandName::Show => {
            let round = round_of(given)?;
            step_of(given, Step::Show { round })
        }
        CommandName::Report => round_text_of(given, RoundText::Report),
        CommandName::Pool => round_text_of(given, RoundText::Pool),
        CommandName::Keep => {
            let round = round_of(given)?;
            import_of(given, Import::Proof { round })
        }
        CommandName::ImportCharter => import_of(given, Import::Charter),
        CommandName::ImportRules => {
            let round = round_or_first(round_of(given));
            import_of(given, Import::Rules { round })
        }
        CommandName::ImportRegister => import_of(given, Import::Register),
        CommandName::Serve => serve_of(given),
        CommandName::Verify
        | CommandName::Bundle
        | CommandName::Dice
        | CommandName::Tickets
        | CommandName::Short
        | CommandName::ShortDraw
        | CommandName::Chances
        | CommandName::Explain
        | CommandName::Panel
        | CommandName::Loosen
        | CommandName::Why
        | CommandName::LoosenByProof
        | CommandName::Check
        | CommandName::Cover
        | CommandName::CheckCover => text_command_of(given),
    }
}

/// Returns the command that reads one text, or None if the words ask for none.
fn text_command_of<'a>(given: &Given<'a>) -> Option<Asked<'a>>
    ensures { result ≡ words_of_text_command given.now }
{
    Some(Asked::Text(text_asked(given)?))
}

/// Returns the proof of a round of the store if the words name one, and else of the pool or bundle that is read.
fn prove_from<'a>(given: &Given<'a>, store: Option<Word<'a>>) -> Option<Asked<'a>>
    ensures { result ≡ words_of_prove given.now store.entry }
{
    match store {
        Some(store) => round_proof_of(given, store),
        None => Some(Asked::Prove(prove_in(given)?)),
    }
}

fn round_proof_of<'a>(given: &Given<'a>, store: Word<'a>) -> Option<Asked<'a>>
    ensures { result ≡ words_of_round_proof given.now store.entry }
{
    let prove = prove_in(given)?;
    let round = round_of(given)?;
    let proving = ProveRound { round, prove };
    Some(Asked::ProveRound { store, proving })
}

/// Returns the seal of a round of the store if the words name one, and else of the bundle that is read.
fn seal_from<'a>(given: &Given<'a>, store: Option<Word<'a>>) -> Option<Asked<'a>>
    ensures { result ≡ words_of_seal given.now store.entry }
{
    match store {
        Some(_) => round_seal_from(given, given.number("tickets")),
        None => text_seal_from(given, given.number("tickets")),
    }
}

/// Returns the seal of a round, with the number of tickets that is kept with it if the words give one.
fn round_seal_from<'a>(given: &Given<'a>, number: Option<u64>) -> Option<Asked<'a>>
    ensures { result ≡ words_of_round_seal given.now number }
{
    match number {
        None => seal_step_of(given, None),
        Some(number) => {
            let tickets = tickets_from(number)?;
            seal_step_of(given, Some(tickets))
        }
    }
}

fn seal_step_of<'a>(given: &Given<'a>, tickets: Option<Tickets>) -> Option<Asked<'a>>
    ensures { result ≡ words_of_seal_step given.now tickets }
{
    let round = round_of(given)?;
    step_of(given, Step::Seal { round, tickets })
}

/// Returns this number of tickets, or None if it isn't from 1 to 1,000,000,000.
fn tickets_from(number: u64) -> Option<Tickets>
    ensures { result ≡ words_of_tickets number }
{
    Tickets::new(u32::try_from(number).ok()?)
}

/// Returns the seal of the bundle that is read, with which no number of tickets is kept.
fn text_seal_from<'a>(given: &Given<'a>, number: Option<u64>) -> Option<Asked<'a>>
    ensures { result ≡ words_of_text_seal given.now number }
{
    match number {
        Some(_) => None,
        None => text_command_of(given),
    }
}

/// Returns the draw from a round of the store if the words name one, and else from the bundle that is read.
fn draw_from<'a>(given: &Given<'a>, store: Option<Word<'a>>) -> Option<Asked<'a>>
    ensures { result ≡ words_of_draw given.now store.entry }
{
    match store {
        Some(_) => round_draw_of(given),
        None => text_draw_from(given, given.flag("try")),
    }
}

/// Returns the draw from the bundle that is read, which keeps nothing anyway.
fn text_draw_from<'a>(given: &Given<'a>, tried: bool) -> Option<Asked<'a>>
    ensures { result ≡ words_of_text_draw given.now tried }
{
    if tried { None } else { text_command_of(given) }
}

fn round_draw_of<'a>(given: &Given<'a>) -> Option<Asked<'a>>
    ensures { result ≡ words_of_round_draw given.now }
{
    let seal = given.text("seal")?;
    let digits = given.text("digits")?;
    let round = round_of(given)?;
    let step = draw_step(given.flag("try"), round, seal, digits);
    step_of(given, step)
}

/// Returns the draw from a round, which keeps nothing if it is tried.
fn draw_step<'a>(tried: bool, round: usize, seal: Word<'a>, digits: Word<'a>) -> Step<'a>
    ensures { result ≡ words_of_draw_step tried round seal.entry digits.entry }
{
    if tried {
        Step::Try {
            round,
            seal,
            digits,
        }
    } else {
        Step::Draw {
            round,
            seal,
            digits,
        }
    }
}

/// Returns the page of a round of the store if the words name one, and else of the bundle or proof that is read.
fn page_from<'a>(given: &Given<'a>, store: Option<Word<'a>>) -> Option<Asked<'a>>
    ensures { result ≡ words_of_page given.now store.entry }
{
    match store {
        Some(_) => round_page_from(given, given.text("drawn"), given.number("tickets")),
        None => text_command_of(given),
    }
}

fn lottery_of<'a>(given: &Given<'a>) -> Option<Asked<'a>>
    ensures { result ≡ words_of_lottery given.now }
{
    let limits = limits_of(given)?;
    let workers = workers_of(given)?;
    Some(lottery_from(given.flag("share"), limits, workers))
}

/// Returns `lottery`, whose workers share a bound if `share` is true.
fn lottery_from<'a>(share: bool, limits: Limits, workers: Workers) -> Asked<'a>
    ensures { result ≡ words_of_lottery_from share limits workers }
{
    if share {
        Asked::SharedLottery(SharedLottery { limits, workers })
    } else {
        Asked::Lottery(Lottery { limits, workers })
    }
}

fn legs_of<'a>(given: &Given<'a>) -> Option<Asked<'a>>
    ensures { result ≡ words_of_legs given.now }
{
    let limits = limits_of(given)?;
    let workers = workers_of(given)?;
    Some(Asked::Legs(Legs { limits, workers }))
}

fn drop_of<'a>(given: &Given<'a>) -> Option<Asked<'a>>
    ensures { result ≡ words_of_drop given.now }
{
    let round = round_of(given)?;
    let id = given.text("id")?;
    step_of(given, Step::Drop { round, id })
}

fn undrop_of<'a>(given: &Given<'a>) -> Option<Asked<'a>>
    ensures { result ≡ words_of_undrop given.now }
{
    let round = round_of(given)?;
    let id = given.text("id")?;
    step_of(given, Step::Undrop { round, id })
}

fn reopen_of<'a>(given: &Given<'a>) -> Option<Asked<'a>>
    ensures { result ≡ words_of_reopen given.now }
{
    let round = later_round_from(round_of(given)?)?;
    step_of(given, Step::Reopen { round })
}

/// Returns the round of this number, or None if it is below 2.
fn later_round_from(number: usize) -> Option<LaterRound>
    ensures { result ≡ words_of_later_round number }
{
    LaterRound::new(number)
}

fn withdraw_of<'a>(given: &Given<'a>) -> Option<Asked<'a>>
    ensures { result ≡ words_of_withdraw given.now }
{
    let id = given.text("id")?;
    step_of(given, Step::Withdraw { id })
}

/// Returns the number of a round, 1 if none is given.
fn round_or_first(round: Option<usize>) -> usize
    ensures { result ≡ words_of_first round }
{
    match round {
        Some(round) => round,
        None => 1,
    }
}

/// Returns a command of the office over the store that the words name, or None if they name none.
fn step_of<'a>(given: &Given<'a>, step: Step<'a>) -> Option<Asked<'a>>
    ensures { result ≡ words_of_step step.entry given.now }
{
    let store = given.text("store")?;
    Some(Asked::Step { store, step })
}

/// Returns an import into the store that the words name, or None if they name none.
fn import_of<'a>(given: &Given<'a>, import: Import) -> Option<Asked<'a>>
    ensures { result ≡ words_of_import import given.now }
{
    let store = given.text("store")?;
    Some(Asked::Import { store, import })
}

/// Returns a text about a round of the store that the words name, or None if they name none.
fn round_text_of<'a>(given: &Given<'a>, text: RoundText) -> Option<Asked<'a>>
    ensures { result ≡ words_of_round_text text given.now }
{
    let round = round_of(given)?;
    let store = given.text("store")?;
    let text = StoreText { text, round };
    Some(Asked::StoreText { store, text })
}

/// Returns the page about a round, which takes no digits and no number of tickets.
fn round_page_from<'a>(
    given: &Given<'a>,
    drawn: Option<Word<'a>>,
    tickets: Option<u64>,
) -> Option<Asked<'a>>
    ensures { result ≡ words_of_round_page given.now drawn.entry tickets }
{
    match drawn {
        Some(_) => None,
        None => match tickets {
            Some(_) => None,
            None => round_text_of(given, RoundText::Page),
        },
    }
}

fn solve_of<'a>(given: &Given<'a>) -> Option<Asked<'a>>
    ensures { result ≡ words_of_solve given.now }
{
    let round = round_of(given)?;
    let limits = limits_of(given)?;
    let workers = workers_of(given)?;
    let step = Step::Solve {
        round,
        limits,
        workers,
    };
    step_of(given, step)
}

/// Returns the number of the round, or None if the words give none.
fn round_of(given: &Given<'_>) -> Option<usize>
    ensures { result ≡ number_of (codes "round") given.now }
{
    Some(given.number("round")? as usize)
}

fn make_of<'a>(given: &Given<'a>) -> Option<Asked<'a>>
    ensures { result ≡ words_of_make given.now }
{
    let seed = given.number("seed")?;
    let volunteers = volunteers_of(given)?;
    let limits = limits_of(given)?;
    let workers = workers_of(given)?;
    Some(Asked::Make(Make {
        seed,
        volunteers,
        limits,
        workers,
    }))
}

/// Returns how many volunteers a made pool is to have, or None if the words don't give a number from 1 to 400.
fn volunteers_of(given: &Given<'_>) -> Option<Volunteers>
    ensures { result ≡ volunteers_in given.now }
{
    Volunteers::new(given.number("volunteers")?)
}

/// Returns the limits of a run, or None if one is missing or out of its range.
fn limits_of(given: &Given<'_>) -> Option<Limits>
    ensures { result ≡ limits_in given.now }
{
    let bits = given.number("bits")?;
    let pivots = given.number("pivots")?;
    let nodes = given.number("nodes")?;
    limits_from(bits, pivots, nodes)
}

fn limits_from(bits: u64, pivots: u64, nodes: u64) -> Option<Limits>
    ensures { result ≡ words_of_limits bits pivots nodes }
{
    Limits::new(u32::try_from(bits).ok()?, pivots, nodes)
}

/// Returns how many workers price, or None if the words don't give a number from 1 to 64.
fn workers_of(given: &Given<'_>) -> Option<Workers>
    ensures { result ≡ workers_in given.now }
{
    workers_from(given.number("workers")?)
}

fn workers_from(number: u64) -> Option<Workers>
    ensures { result ≡ words_of_workers number }
{
    Workers::new(u32::try_from(number).ok()?)
}

/// Returns the desk over the store that the words name, or None if the store or a number is missing, or a number is out of its range.
fn serve_of<'a>(given: &Given<'a>) -> Option<Asked<'a>>
    ensures { result ≡ words_of_serve given.now }
{
    let port = given.number("port")?;
    let connections = given.number("connections")?;
    let serve = serve_from(port, connections)?;
    let store = given.text("store")?;
    Some(Asked::Serve { store, serve })
}

fn serve_from(port: u64, connections: u64) -> Option<Serve>
    ensures { result ≡ words_of_serve_from port connections }
{
    if 1 <= port && port <= 65_535 && 1 <= connections && connections <= 1_000_000 {
        Some(Serve {
            port: port as u16,
            connections: connections as usize,
        })
    } else {
        None
    }
}
