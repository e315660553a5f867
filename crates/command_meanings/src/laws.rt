//! Laws of what commands mean: at most one answer is right. The functions have no body; their contracts are the laws. `prove` has no such
//! law, since of several proofs each is right. `lottery --share` has one of its own: it answers as `lottery`, unless a pricing spends its
//! budget.

ghost use Rattle.std.specs.Prelude.{ℕ, List};
ghost use Rattle.define_proofs.specs.ProofVerdict.{Proof};
ghost use Rattle.define_bundles.specs.BundleText.{Bundle};
ghost use Rattle.command_shell.specs.Answers.{HasOneAnswer};
ghost use Rattle.command_meanings.specs.Check.{CheckMeans};
ghost use Rattle.command_meanings.specs.Draw.{DrawMeans};
ghost use Rattle.command_meanings.specs.ItsBundle.{BundleMeans};
ghost use Rattle.command_meanings.specs.Legs.{LegsMeans};
ghost use Rattle.command_meanings.specs.Lottery.{LotteryMeans};
ghost use Rattle.command_meanings.specs.Make.{MakeMeans};
ghost use Rattle.command_meanings.specs.Panel.{PanelMeans};
ghost use Rattle.command_meanings.specs.Seal.{SealMeans};
ghost use Rattle.command_meanings.specs.Sharing.{SharingAnswersAsLottery};
ghost use Rattle.command_meanings.specs.Verify.{VerifyMeans};
ghost use Rattle.define_pools.specs.Pool.{Pool};
ghost use Rattle.define_runs.specs.Run.{Limits};

/// `panel` has at most one right answer about a pool.
pub fn panel_has_one_answer()
    ensures { (nodes : ℕ) (pool : Pool) → HasOneAnswer (PanelMeans nodes pool) }
{}

/// `lottery` has at most one right answer about a pool.
pub fn lottery_has_one_answer()
    ensures { (limits : Limits) (pool : Pool) → HasOneAnswer (LotteryMeans limits pool) }
{}

/// If no pricing of the run spends its budget, `lottery --share` answers as `lottery` does. Else more than one answer may be right.
pub fn sharing_answers_as_lottery()
    ensures { SharingAnswersAsLottery }
{}

/// `legs` has at most one right answer about a pool.
pub fn legs_has_one_answer()
    ensures { (limits : Limits) (pool : Pool) → HasOneAnswer (LegsMeans limits pool) }
{}

/// `make` has at most one right answer, for a seed, a number of volunteers and the limits of a run.
pub fn make_has_one_answer()
    ensures { (seed volunteers : ℕ) (limits : Limits) → HasOneAnswer (MakeMeans seed volunteers limits) }
{}

/// `seal` has at most one right answer about a bundle.
pub fn seal_has_one_answer()
    ensures { (bundle : Bundle) → HasOneAnswer (SealMeans bundle) }
{}

/// `draw` has at most one right answer about a bundle, for a given seal and the digits of dice.
pub fn draw_has_one_answer()
    ensures { (given digits : List ℕ) (bundle : Bundle) → HasOneAnswer (DrawMeans given digits bundle) }
{}

/// `check` has at most one right answer about a bundle, for searches of at most `nodes` visits.
pub fn check_has_one_answer()
    ensures { (nodes : ℕ) (bundle : Bundle) → HasOneAnswer (CheckMeans nodes bundle) }
{}

/// `verify` has at most one right answer about a proof.
pub fn verify_has_one_answer()
    ensures { (proof : Proof) → HasOneAnswer (VerifyMeans proof) }
{}

/// `bundle` has at most one right answer about a proof.
pub fn bundle_has_one_answer()
    ensures { (proof : Proof) → HasOneAnswer (BundleMeans proof) }
{}
