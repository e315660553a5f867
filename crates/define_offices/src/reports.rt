//! The report of a round of an office: the assembly's title, the round's phase, its quotas, its lottery with each volunteer's chance, the
//! seal and the draw. The definitions are in `specs/`.
//!
//! The functions have no body: their contracts are laws over the definitions, and worked examples.
ghost use Rattle.std.specs.Prelude.{◌≡◌, ◌∷◌, [], ℕ, Err, IsOk, Ok, codes};
ghost use Rattle.define_pools.specs.Pool.{Pool};
ghost use Rattle.define_offices.specs.Commands.{Incomplete, NoRound, Refusal};
ghost use Rattle.define_offices.specs.declared.Part.TheVariants as part;
ghost use Rattle.define_offices.specs.Pools.{pool_of};
ghost use Rattle.define_offices.specs.Tables.{Tables, first_tables};
ghost use Rattle.define_offices.specs.WorkedOffice.{with_rows};
ghost use Rattle.define_offices.specs.Report.{report_of};
ghost use Rattle.define_offices.specs.WorkedReports.{drawn_report, drawn_tables, open_report, open_tables, tickets_report, tickets_tables};

/// A round has a report if it has a pool. If it has no pool, the report is refused with the same refusal as the pool.
pub fn reports_need_pools()
    ensures report { (tables : Tables) (number : ℕ) (pool : Pool) → pool_of tables number ≡ Ok pool → IsOk (report_of tables number) }
    ensures refused { (tables : Tables) (number : ℕ) (refusal : Refusal) → pool_of tables number ≡ Err refusal → report_of tables number ≡ Err refusal }
{}

/// The reports of a round in which the digits `0` drew a panel, of one in which the digit 7 drew a panel in 10 tickets, and of an open
/// round with two volunteers, of whom one has withdrawn.
pub fn worked_reports()
    ensures drawn { report_of drawn_tables 1 ≡ Ok drawn_report }
    ensures tickets { report_of tickets_tables 1 ≡ Ok tickets_report }
    ensures open { report_of open_tables 1 ≡ Ok open_report }
{}

/// There is no report of a round that doesn't exist, and none if there is no charter.
pub fn worked_refusals()
    ensures no_round { report_of drawn_tables 2 ≡ Err (NoRound 1) }
    ensures round_zero { report_of first_tables 0 ≡ Err (NoRound 1) }
    ensures no_charter { report_of with_rows 1 ≡ Err (Incomplete part.Charter) }
{}
