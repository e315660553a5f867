//! Worked examples: what `loosen` answers about small pools, byte for byte. The functions do nothing but call the laws that their contracts
//! rest on.

ghost use Rattle.std.specs.Prelude.{codes};
ghost use Rattle.define_quotas.specs.WorkedLoosenings.{one_woman};
ghost use Rattle.define_pools.specs.WorkedExamples.{couple, four, nobody};
ghost use Rattle.command_shell.specs.declared.status.Printed.TheVariants.{Done, NoPanel};
ghost use Rattle.command_shell.specs.declared.status.Cause.TheVariants.{Spent};
ghost use Rattle.command_shell.specs.Answers.{IsRight, Prints, Stops};
ghost use Rattle.command_meanings.specs.Loosening.{LoosenMeans};

use define_quotas::loosenings::{cheapest_is_least, least_loosening_is_least};
use define_searches::alike_make_classes;

/// Two women are needed and there is one: the lower bound is moved by 1, after three visits.
pub fn worked_moved()
    ensures answer { IsRight (LoosenMeans 3 (one_woman 2 2)) (Prints Done (codes "loosen\t1\nbound\tgender\tfemale\t1\t2\npanel\ta\tb\n")) }
    ensures spent { IsRight (LoosenMeans 2 (one_woman 2 2)) (Stops Spent (codes "spent\tnodes\t2\t0\t0\t0\n")) }
{
    alike_make_classes();
    cheapest_is_least();
    least_loosening_is_least();
}

/// There is a quota panel already, so no bound is moved.
pub fn worked_unmoved()
    ensures { IsRight (LoosenMeans 5 four) (Prints Done (codes "loosen\t0\npanel\ta\tc\n")) }
{
    alike_make_classes();
    cheapest_is_least();
    least_loosening_is_least();
}

/// Two pools without a team: in one, a volunteer is needed and there is none; in the other, two are needed, and the only two volunteers
/// are of one household.
pub fn worked_no_team()
    ensures nobody { IsRight (LoosenMeans 1 nobody) (Prints NoPanel (codes "no panel\n")) }
    ensures couple { IsRight (LoosenMeans 2 couple) (Prints NoPanel (codes "no panel\n")) }
{
    least_loosening_is_least();
}
