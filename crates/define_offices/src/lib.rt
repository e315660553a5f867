//! The office as a small machine, in definitions: its tables and the facts that hold of them, its commands, what each command answers and
//! changes, and the tables that a list of commands leaves. The definitions are in `specs/`. The module `laws` has the laws: what every step
//! keeps, what is true of all tables that a list of commands leaves, and what a command does when it is given again. The module `reports`
//! has the report of a round.
//!
//! The functions have no body: their contracts are the laws, which are promises, and worked examples.
#![tactic(auto)]

pub mod laws;
pub mod reports;

ghost use Rattle.std.specs.Prelude.{◌≡◌, ◌++◌, [], ◌∷◌, codes, Ok, Err, Some, None};
ghost use Rattle.define_lines.specs.Lines.{line_of, text_of};
ghost use Rattle.define_pools.specs.WorkedExamples.{four, after_dropout};
ghost use Rattle.define_bundles.specs.BundleText.{bundle_spelling};
ghost use Rattle.define_runs.specs.Run.{Limits};
ghost use Rattle.define_runs.specs.WorkedRuns.{limits, pairs};
ghost use Rattle.define_proofs.specs.TreeLines.{OfLeaf};
ghost use Rattle.define_proofs.specs.WorkedTrees.{couple_lines, couple_proof, double_leaf, four_proof, four_trees, men_leaf};
ghost use Rattle.define_offices.specs.Commands.{SetCharter, SetRules, Register, Solve, Keep, Seal, Draw, Drop, NextRound, Show, Withdraw, SetBounds, TryDraw, Undrop, Reopen, WithdrawId, CharterSet, RulesSet, Added, SolvedWith, SealTold, DrawnWith, DroppedOut, Begun, Withdrawn, BoundsSet, TakenBack, Reopened, Lines, Replies, Refuses, Unproved, NoPanel, Incomplete, RowDiffers, KeyTaken, DrawDiffers, NoRound, NotSeated, OtherPool, RoundClosed, TooLate, UnknownKey, TicketsDiffer, NotDropped, UnknownId, RegisterFull, WrongPhase};
ghost use Rattle.define_offices.specs.declared.Part.TheVariants as part;
ghost use Rattle.define_offices.specs.declared.Phase.TheVariants as phase;
ghost use Rattle.define_offices.specs.Deciding.{IsDecided, NeedsRun, Finds, answered, asked, changes, tells};
ghost use Rattle.define_offices.specs.Lines.{register_line};
ghost use Rattle.define_draws.specs.Lines.{bundle_seal, seal_line};
ghost use Rattle.define_offices.specs.Pools.{pool_of};
ghost use Rattle.define_offices.specs.Steps.{apply};
ghost use Rattle.define_offices.specs.Tables.{Open, Solved, Sealed, first_tables};
ghost use Rattle.define_offices.specs.WorkedOffice.{rules, river, rows, given, a, b, d, with_rules, with_rows, ready, in_rounds, couple_tables, first_bundle, second_bundle, drawn, the_draw, drawn_in_ten, draw_in_ten, second_open, wider, other_values, second_wider};

/// How far a round has come.
#[derive(Clone, Copy, Debug, PartialEq, Eq)]
pub enum Phase {
    /// It has no bundle yet.
    Open,
    /// It has a bundle.
    Solved,
    /// The bundle's seal was told.
    Sealed,
    /// A panel was drawn.
    Drawn,
}

/// A part of an office's tables that is missing.
#[derive(Clone, Copy, Debug, PartialEq, Eq)]
pub enum Part {
    /// The charter: title and size.
    Charter,
    /// The rules: categories with bounds.
    Rules,
    /// A dropout: nobody of the drawn panel has dropped out yet.
    Drops,
}

/// Rules are set, and set again. Four rows are refused before the rules are set, and then imported. They are imported again, then with
/// another value in one row, then with a fifth row that has the key of another row.
pub fn worked_imports()
    ensures rules { asked first_tables (SetRules rules) ≡ IsDecided (changes (RulesSet rules) (line_of (codes "rules" ∷ codes "set" ∷ []))) }
    ensures again { asked with_rules (SetRules rules) ≡ IsDecided (tells (line_of (codes "rules" ∷ codes "same" ∷ []))) }
    ensures no_rules { asked first_tables (Register rows) ≡ IsDecided (Refuses (Incomplete part.Rules)) }
    ensures rows { asked with_rules (Register rows) ≡ IsDecided (changes (Added with_rows.register) (register_line 4 0 4)) }
    ensures repeated { asked with_rows (Register rows) ≡ IsDecided (tells (register_line 0 4 4)) }
    ensures differs { asked with_rows (Register (a ∷ b ∷ given (codes "c") (codes "k3") (codes "female") ∷ d ∷ [])) ≡ IsDecided (Refuses (RowDiffers (codes "c"))) }
    ensures taken { asked with_rows (Register (rows ++ given (codes "e") (codes "abc") (codes "male") ∷ [])) ≡ IsDecided (Refuses (KeyTaken (codes "a"))) }
{}

/// The four rows and a charter make the pool of two women and two men. Its answer is kept and sealed, and a panel is drawn. Each of these
/// commands changes nothing if it is given again. A solve without a charter, a draw with other digits, and a solve of a round that
/// doesn't exist are refused.
pub fn worked_first_round()
    ensures no_charter { asked with_rows (Solve 1 (limits 127 100 100)) ≡ IsDecided (Refuses (Incomplete part.Charter)) }
    ensures charter { asked with_rows (SetCharter river) ≡ IsDecided (changes (CharterSet river) (line_of (codes "charter" ∷ codes "set" ∷ []))) }
    ensures again { asked ready (SetCharter river) ≡ IsDecided (tells (line_of (codes "charter" ∷ codes "same" ∷ []))) }
    ensures pool { (all : Limits) → asked ready (Solve 1 all) ≡ NeedsRun four }
    ensures solved { answered 1 four (Finds pairs) ≡ changes (SolvedWith 1 first_bundle) (line_of (codes "solved" ∷ codes "1" ∷ codes "2" ∷ codes "2" ∷ [])) }
    ensures kept { apply ready (SolvedWith 1 first_bundle) ≡ in_rounds (Solved first_bundle ∷ []) }
    ensures solved_again { (all : Limits) → asked (in_rounds (Solved first_bundle ∷ [])) (Solve 1 all) ≡ IsDecided (tells (line_of (codes "solved" ∷ codes "1" ∷ codes "2" ∷ codes "2" ∷ []))) }
    ensures seal { asked (in_rounds (Solved first_bundle ∷ [])) (Seal 1 None) ≡ IsDecided (changes (SealTold 1 None) (seal_line first_bundle)) }
    ensures sealed_again { asked (in_rounds (Sealed first_bundle None ∷ [])) (Seal 1 None) ≡ IsDecided (tells (seal_line first_bundle)) }
    ensures drawn { asked (in_rounds (Sealed first_bundle None ∷ [])) (Draw 1 (bundle_seal first_bundle) (codes "0")) ≡ IsDecided (Replies (Some (DrawnWith 1 (codes "0"))) (Lines (text_of the_draw))) }
    ensures drawn_again { asked (in_rounds (drawn [] ∷ [])) (Draw 1 (bundle_seal first_bundle) (codes "0")) ≡ IsDecided (Replies None (Lines (text_of the_draw))) }
    ensures other_digits { asked (in_rounds (drawn [] ∷ [])) (Draw 1 (bundle_seal first_bundle) (codes "7")) ≡ IsDecided (Refuses (DrawDiffers (codes "0"))) }
    ensures no_such_round { asked (in_rounds (drawn [] ∷ [])) (Solve 9 (limits 127 100 100)) ≡ IsDecided (Refuses (NoRound 1)) }
{}

/// A member of the drawn panel drops out. In the pool of the second round the other member is seated, and the answer of that pool is kept.
/// Round 1 is shown. A volunteer withdraws. Refused are a dropout of somebody who was not drawn, a second round before a dropout, a dropout
/// once the second round has begun, and a withdrawal with the key of the volunteer who is seated or with an unknown key.
pub fn worked_second_round()
    ensures not_seated { asked (in_rounds (drawn [] ∷ [])) (Drop 1 (codes "b")) ≡ IsDecided (Refuses (NotSeated (codes "b"))) }
    ensures no_drops { asked (in_rounds (drawn [] ∷ [])) (NextRound 1) ≡ IsDecided (Refuses (Incomplete part.Drops)) }
    ensures dropped { asked (in_rounds (drawn [] ∷ [])) (Drop 1 (codes "a")) ≡ IsDecided (changes (DroppedOut 1 (codes "a")) (line_of (codes "dropped" ∷ codes "1" ∷ codes "a" ∷ []))) }
    ensures dropped_again { asked (in_rounds (drawn (codes "a" ∷ []) ∷ [])) (Drop 1 (codes "a")) ≡ IsDecided (tells (line_of (codes "dropped" ∷ codes "1" ∷ codes "a" ∷ []))) }
    ensures next { asked (in_rounds (drawn (codes "a" ∷ []) ∷ [])) (NextRound 1) ≡ IsDecided (changes Begun (line_of (codes "round" ∷ codes "2" ∷ []))) }
    ensures next_again { asked (in_rounds (drawn (codes "a" ∷ []) ∷ Open ∷ [])) (NextRound 1) ≡ IsDecided (tells (line_of (codes "round" ∷ codes "2" ∷ []))) }
    ensures closed { asked (in_rounds (drawn (codes "a" ∷ []) ∷ Open ∷ [])) (Drop 1 (codes "c")) ≡ IsDecided (Refuses (RoundClosed 2)) }
    ensures pool { (all : Limits) → asked (in_rounds (drawn (codes "a" ∷ []) ∷ Open ∷ [])) (Solve 2 all) ≡ NeedsRun after_dropout }
    ensures solved { answered 2 after_dropout (Finds second_bundle.answer) ≡ changes (SolvedWith 2 second_bundle) (line_of (codes "solved" ∷ codes "2" ∷ codes "1" ∷ codes "1" ∷ [])) }
    ensures show { asked (in_rounds (drawn (codes "a" ∷ []) ∷ Open ∷ [])) (Show 1) ≡ IsDecided (Replies None (Lines (bundle_spelling first_bundle))) }
    ensures withdrawn { asked (in_rounds (drawn (codes "a" ∷ []) ∷ Open ∷ [])) (Withdraw (codes "k2")) ≡ IsDecided (Replies (Some (Withdrawn 1)) (Lines [])) }
    ensures seated { asked (in_rounds (drawn (codes "a" ∷ []) ∷ Open ∷ [])) (Withdraw (codes "k3")) ≡ IsDecided (Refuses TooLate) }
    ensures unknown { asked (in_rounds (drawn (codes "a" ∷ []) ∷ Open ∷ [])) (Withdraw (codes "k5")) ≡ IsDecided (Refuses UnknownKey) }
{}

/// Proofs that are given for the first round, whoever made them. A valid proof of the round's pool is kept. The tables don't change if
/// there is no charter, for a refused proof, for a proof of another pool, or for a valid proof that there is no quota panel. A round that
/// has an answer already keeps it.
pub fn worked_proofs()
    ensures no_charter { asked with_rows (Keep 1 (four_proof four_trees)) ≡ IsDecided (Refuses (Incomplete part.Charter)) }
    ensures kept { asked ready (Keep 1 (four_proof four_trees)) ≡ IsDecided (changes (SolvedWith 1 first_bundle) (line_of (codes "solved" ∷ codes "1" ∷ codes "2" ∷ codes "2" ∷ []))) }
    ensures refused { asked ready (Keep 1 (four_proof ((OfLeaf double_leaf ∷ []) ∷ (OfLeaf men_leaf ∷ []) ∷ []))) ≡ IsDecided (Unproved (record { stage = 1; reason = 12; who = 20 ∷ [] })) }
    ensures other_pool { asked ready (Keep 1 (couple_proof couple_lines)) ≡ IsDecided (Refuses (OtherPool 1)) }
    ensures no_panel { asked couple_tables (Keep 1 (couple_proof couple_lines)) ≡ IsDecided (Replies None NoPanel) }
    ensures again { asked (in_rounds (Solved first_bundle ∷ [])) (Keep 1 (couple_proof couple_lines)) ≡ IsDecided (tells (line_of (codes "solved" ∷ codes "1" ∷ codes "2" ∷ codes "2" ∷ []))) }
{}

/// The first round is sealed with a round number of tickets, 10, and drawn by the digit 7; a try of these digits tells the same, and so do
/// both when they are given again. Another number of tickets is refused, also if the round was sealed without one, and so are a try of
/// other digits after the draw, and a dropout of somebody whom the sealed lottery would have drawn.
pub fn worked_tickets()
    ensures sealed { asked (in_rounds (Solved first_bundle ∷ [])) (Seal 1 (Some 10)) ≡ IsDecided (changes (SealTold 1 (Some 10)) (seal_line first_bundle)) }
    ensures kept { apply (in_rounds (Solved first_bundle ∷ [])) (SealTold 1 (Some 10)) ≡ in_rounds (Sealed first_bundle (Some 10) ∷ []) }
    ensures again { asked (in_rounds (Sealed first_bundle (Some 10) ∷ [])) (Seal 1 (Some 10)) ≡ IsDecided (tells (seal_line first_bundle)) }
    ensures without { asked (in_rounds (Sealed first_bundle (Some 10) ∷ [])) (Seal 1 None) ≡ IsDecided (tells (seal_line first_bundle)) }
    ensures other { asked (in_rounds (Sealed first_bundle (Some 10) ∷ [])) (Seal 1 (Some 100)) ≡ IsDecided (Refuses (TicketsDiffer 10)) }
    ensures late { asked (in_rounds (Sealed first_bundle None ∷ [])) (Seal 1 (Some 10)) ≡ IsDecided (Refuses (TicketsDiffer 0)) }
    ensures tried { asked (in_rounds (Sealed first_bundle (Some 10) ∷ [])) (TryDraw 1 (bundle_seal first_bundle) (codes "7")) ≡ IsDecided (Replies None (Lines (text_of draw_in_ten))) }
    ensures drawn { asked (in_rounds (Sealed first_bundle (Some 10) ∷ [])) (Draw 1 (bundle_seal first_bundle) (codes "7")) ≡ IsDecided (Replies (Some (DrawnWith 1 (codes "7"))) (Lines (text_of draw_in_ten))) }
    ensures drawn_again { asked (in_rounds (drawn_in_ten [] ∷ [])) (Draw 1 (bundle_seal first_bundle) (codes "7")) ≡ IsDecided (Replies None (Lines (text_of draw_in_ten))) }
    ensures tried_again { asked (in_rounds (drawn_in_ten [] ∷ [])) (TryDraw 1 (bundle_seal first_bundle) (codes "7")) ≡ IsDecided (Replies None (Lines (text_of draw_in_ten))) }
    ensures tried_other { asked (in_rounds (drawn_in_ten [] ∷ [])) (TryDraw 1 (bundle_seal first_bundle) (codes "0")) ≡ IsDecided (Refuses (DrawDiffers (codes "7"))) }
    ensures not_seated { asked (in_rounds (drawn_in_ten [] ∷ [])) (Drop 1 (codes "a")) ≡ IsDecided (Refuses (NotSeated (codes "a"))) }
{}

/// Wider bounds are set for the open second round, and its pool has them. The bounds that it has are no change. Refused are bounds with
/// other values, bounds of a round that has an answer, and bounds of a round that doesn't exist.
pub fn worked_bounds()
    ensures set { asked second_open (SetBounds 2 wider) ≡ IsDecided (changes (BoundsSet wider) (line_of (codes "rules" ∷ codes "set" ∷ []))) }
    ensures pool { pool_of second_wider 2 ≡ Ok (record after_dropout { categories = wider }) }
    ensures again { asked second_wider (SetBounds 2 wider) ≡ IsDecided (tells (line_of (codes "rules" ∷ codes "same" ∷ []))) }
    ensures as_before { asked second_open (SetBounds 2 rules) ≡ IsDecided (tells (line_of (codes "rules" ∷ codes "same" ∷ []))) }
    ensures back { asked second_wider (SetBounds 2 rules) ≡ IsDecided (changes (BoundsSet rules) (line_of (codes "rules" ∷ codes "set" ∷ []))) }
    ensures other { asked second_open (SetBounds 2 other_values) ≡ IsDecided (Refuses (RowDiffers (codes "rules"))) }
    ensures late { asked (in_rounds (drawn (codes "a" ∷ []) ∷ Solved second_bundle ∷ [])) (SetBounds 2 wider) ≡ IsDecided (Refuses (WrongPhase phase.Solved)) }
    ensures no_round { asked second_open (SetBounds 3 wider) ≡ IsDecided (Refuses (NoRound 2)) }
{}

/// The open second round is taken away with its bounds, and the dropout is taken back. Both are refused when they are given again, and so is
/// a round that is taken away once it has an answer, a dropout that is taken back while there is a next round, and the dropout of somebody
/// who withdrew.
pub fn worked_returns()
    ensures reopened { asked second_wider (Reopen 2) ≡ IsDecided (changes (Reopened 2) (line_of (codes "reopened" ∷ codes "2" ∷ []))) }
    ensures gone { apply second_wider (Reopened 2) ≡ in_rounds (drawn (codes "a" ∷ []) ∷ []) }
    ensures reopened_again { asked (in_rounds (drawn (codes "a" ∷ []) ∷ [])) (Reopen 2) ≡ IsDecided (Refuses (NoRound 1)) }
    ensures answered { asked (in_rounds (drawn (codes "a" ∷ []) ∷ Solved second_bundle ∷ [])) (Reopen 2) ≡ IsDecided (Refuses (WrongPhase phase.Solved)) }
    ensures closed { asked (in_rounds (drawn (codes "a" ∷ []) ∷ drawn (codes "c" ∷ []) ∷ Open ∷ [])) (Reopen 2) ≡ IsDecided (Refuses (RoundClosed 3)) }
    ensures undropped { asked (in_rounds (drawn (codes "a" ∷ []) ∷ [])) (Undrop 1 (codes "a")) ≡ IsDecided (changes (TakenBack 1 (codes "a")) (line_of (codes "undropped" ∷ codes "1" ∷ codes "a" ∷ []))) }
    ensures as_before { apply (in_rounds (drawn (codes "a" ∷ []) ∷ [])) (TakenBack 1 (codes "a")) ≡ in_rounds (drawn [] ∷ []) }
    ensures undropped_again { asked (in_rounds (drawn [] ∷ [])) (Undrop 1 (codes "a")) ≡ IsDecided (Refuses (NotDropped (codes "a"))) }
    ensures undrop_closed { asked second_open (Undrop 1 (codes "a")) ≡ IsDecided (Refuses (RoundClosed 2)) }
    ensures undrop_late { asked (apply second_open (Withdrawn 0)) (Undrop 1 (codes "a")) ≡ IsDecided (Refuses TooLate) }
    ensures undrop_late_still { asked (apply (apply second_open (Withdrawn 0)) (Reopened 2)) (Undrop 1 (codes "a")) ≡ IsDecided (Refuses TooLate) }
{}

/// The office enters a withdrawal by the volunteer's id. Refused are an unknown id, and the volunteer who is seated.
pub fn worked_withdrawals()
    ensures withdrawn { asked second_open (WithdrawId (codes "b")) ≡ IsDecided (changes (Withdrawn 1) (line_of (codes "withdrawn" ∷ codes "b" ∷ []))) }
    ensures again { asked (apply second_open (Withdrawn 1)) (WithdrawId (codes "b")) ≡ IsDecided (tells (line_of (codes "withdrawn" ∷ codes "b" ∷ []))) }
    ensures seated { asked second_open (WithdrawId (codes "c")) ≡ IsDecided (Refuses TooLate) }
    ensures unknown { asked second_open (WithdrawId (codes "e")) ≡ IsDecided (Refuses (UnknownId (codes "e"))) }
{}

/// A charter says how many rows the register takes. With four, a fifth row is refused, and a charter with three is refused while there are
/// four rows.
pub fn worked_rows()
    ensures full { asked (record ready { charter = Some (record river { volunteers = 4 }) }) (Register (given (codes "e") (codes "k5") (codes "male") ∷ [])) ≡ IsDecided (Refuses (RegisterFull 4)) }
    ensures too_few { asked ready (SetCharter (record river { volunteers = 3 })) ≡ IsDecided (Refuses (RowDiffers (codes "d"))) }
    ensures enough { asked ready (SetCharter (record river { volunteers = 4 })) ≡ IsDecided (changes (CharterSet (record river { volunteers = 4 })) (line_of (codes "charter" ∷ codes "set" ∷ []))) }
{}
