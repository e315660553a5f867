//! The headline: what the program promises, on one page (`specs/Headline.antt`), for a reader who believes nothing but definitions. The
//! functions do nothing; their contracts are the laws. `headline` says that the promises of a call follow from the exact contract of
//! `office`. The other laws speak of several calls.

ghost use Rattle.std.specs.Prelude.{ℕ, List};
ghost use Rattle.command_desk.specs.DeskTold.{DeskTold};
ghost use Rattle.command_office.specs.Office.{OfficeIsRight};
ghost use Rattle.command_office.specs.Again.{RepeatsChangeNothing};
ghost use Rattle.command_office.specs.Headline.{Headline, OfSeveralCalls};
ghost use Rattle.command_office.specs.Isolation.{TellsNothingOfOthers};
ghost use Rattle.command_office.specs.Records.{CallsAreRecorded};
ghost use Rattle.command_office.specs.Workers.{WorkersChangeNothing};

use command_stores::steps_answer_once;
use define_offices::laws::{refused_again, repeats_change_nothing as commands_repeat};
use office_desk::desk_is_isolated;

/// Every call that satisfies the contract of `office` keeps the promises of `Headline`.
pub fn headline()
    ensures { (words : List (List ℕ)) (told : DeskTold) → OfficeIsRight words told → Headline words told }
{}

/// The number of workers changes no byte of an answer of `lottery` without `--share`, of `legs`, `make` or `solve`, and no table.
pub fn workers_change_nothing()
    ensures { WorkersChangeNothing }
{
    steps_answer_once();
}

/// What the desk replies to a volunteer's key depends on what is published, the phase of the last round and the key's own row alone, and
/// changes no other row; what it replies to anyone else depends on what is published alone.
pub fn volunteers_are_isolated()
    ensures { TellsNothingOfOthers }
{
    desk_is_isolated();
}

/// Over any list of calls of `office`, each of which finds the tables of the store as the one before left them, from the first tables on,
/// the tables are the fold of the commands that the calls did. So the lottery of each bundle that they keep is leximin greatest.
pub fn calls_are_recorded()
    ensures { CallsAreRecorded }
{}

/// A command that is given again changes nothing, as long as nothing took its change back: a charter, rules and bounds at once, any other
/// command that made a change at any later time, and a withdrawal at the desk, which has the same reply again. A command that took a change
/// back is refused if it is given again at once.
pub fn repeats_change_nothing()
    ensures { RepeatsChangeNothing }
{
    commands_repeat();
    refused_again();
}

/// All that the headline says of several calls.
pub fn several_calls()
    ensures { OfSeveralCalls }
{
    workers_change_nothing();
    volunteers_are_isolated();
    repeats_change_nothing();
    calls_are_recorded();
}
