//! Proofs by additions: the constraints of a stage's problem, leaves and trees that show its cap, the lines of a tree, the verdict on a
//! proof, its text, and the first fault of bytes that are no proof's text. The definitions are in `specs/`.
//!
//! The functions have no body: their contracts are laws over the definitions, and worked examples. The promises that matter most are
//! `valid_is_greatest` and `valid_no_panel`.
#![tactic(auto)]

ghost use Rattle.std.specs.Prelude.{map, drop, length, slice_set, ◌≡◌, ◌↔◌, ◌⊎◌, ◌<◌, ◌≤◌, ◌+◌, ◌-◌, ◌^◌, ◌*ℤ◌, ◌+ℤ◌, [], ◌∷◌, ℕ, pos, negsuc, unsigned_abs, List, IsTrue, None, Some, ◌≢◌, ◌++◌, codes, Ok, Err, MatchResult};
ghost use Rattle.std.specs.List.{AllByRecursion, list_all};
ghost use Rattle.define_bundles.specs.Ranges.{IsInRanges};
ghost use Rattle.define_pools.specs.declared.Standing.{Standing};
ghost use Rattle.define_pools.specs.declared.Standing.TheVariants.{Open};
ghost use Rattle.define_pools.specs.Certificate.{Answer, Certifies, Stage, is_capped};
ghost use Rattle.define_pools.specs.Lottery.{LeximinGreatest};
ghost use Rattle.define_pools.specs.Pool.{IsPool, Pool, is_quota_panel, panels};
ghost use Rattle.define_pools.specs.WorkedExamples.{after_dropout, family, four, stage};
ghost use Rattle.define_checks.specs.Reasons.{Refusal, Refused, Valid};
ghost use Rattle.define_checks.specs.WorkedChecks.{below_zero, one_stage, refused, two_women};
ghost use Rattle.define_proofs.specs.CapsHold.{CapsHold, EarlierCapsHold};
ghost use Rattle.define_proofs.specs.Constraints.{constraints};
ghost use Rattle.define_proofs.specs.LeafSums.{charges_and_rests, first_charges, first_multipliers, is_in_reach, is_problem_in_reach, is_stage_in_reach};
ghost use Rattle.define_proofs.specs.Leaves.{Leaf, Problem, charge, multiplied, no_panel, no_panel_problem, rest, stage_problem, standings};
ghost use Rattle.define_proofs.specs.ProofVerdict.{OfLottery, OfNoPanel, Proof, TreesShow, verdict};
ghost use Rattle.define_proofs.specs.Refusals.{HasTrees, NamesLine, RefusalMeans, lines_before, tree_of};
ghost use Rattle.define_proofs.specs.TreeRanges.{is_leaf};
ghost use Rattle.define_proofs.specs.ProofSteps.{BeginsWithLottery, GoesOnByStages};
ghost use Rattle.define_proofs.specs.Trees.{Tree, is_undecided, tree_shows};
ghost use Rattle.define_proofs.specs.WorkedTrees.{constraint, couple_lines, couple_proof, double_leaf, four_proof, four_trees, leaf, men_leaf, one_stage_proof, size_leaf, split_lines, split_tree, times, unknown_leaf, women_leaf};
ghost use Rattle.define_proofs.specs.TreeLines.{AreOfTree, OfLeaf, OfSplit, TreeFault, TreeLine, fault, lines_of, tree_fault};
ghost use Rattle.define_lines.specs.Lines.{line_of, text_of};
ghost use Rattle.define_pools.specs.Lists.{is_increasing};
ghost use Rattle.define_proofs.specs.LinesInText.{HasTree, NamesTextLine, lines_behind, proof_lines};
ghost use Rattle.define_proofs.specs.ProofText.{IsProof, close_line, lines_before_close, node_line, proof_spelling};
ghost use Rattle.define_proofs.specs.ProofReading.{NextTree, OfNode, Progress, TheClose, Unknown, line_in_tree, line_kinds, read_proof};
ghost use Rattle.define_proofs.specs.WorkedProofs.{faulty, one_tree, read_text, second_version, three_trees, whole, without_done, without_end, without_pool, without_size, without_tree};

/// If the earlier caps hold, a tree that shows a stage's cap proves that this cap holds: no quota panel that attains the earlier caps
/// weighs more.
pub fn tree_shows_cap()
    ensures { (pool : Pool) (earlier : List Stage) (stage : Stage) (tree : Tree) → EarlierCapsHold pool earlier →
        IsTrue (tree_shows (stage_problem pool earlier stage) (standings pool) tree) → IsTrue (is_capped pool earlier stage) }
{}

/// In a stage in which everybody weighs 0, a tree that shows that no panel weighs more than -1 proves that the pool has no quota panel.
pub fn tree_shows_no_panel()
    ensures none { (pool : Pool) (tree : Tree) → IsTrue (tree_shows (no_panel_problem pool) (standings pool) tree) → panels pool ≡ [] }
    ensures no_list { (pool : Pool) (tree : Tree) (panel : List ℕ) → IsTrue (tree_shows (no_panel_problem pool) (standings pool) tree) → ¬ IsTrue (is_quota_panel pool panel) }
{}

/// A list of lines has no fault exactly if it is the lines of a tree that shows the cap.
pub fn lines_are_of_tree()
    ensures { (problem : Problem) (all : List Standing) (number : ℕ) (lines : List TreeLine) → tree_fault problem all number lines ≡ None ↔ AreOfTree problem all lines }
{}

/// The first fault is in one of the lines, or after them if they end early, and its reason is 11 or 12.
pub fn fault_is_within_lines()
    ensures { (problem : Problem) (all : List Standing) (number : ℕ) (lines : List TreeLine) (found : TreeFault) → tree_fault problem all number lines ≡ Some found →
        (number ≤ found.line) × (found.line ≤ number + length lines) × ((found.reason ≡ 11) ⊎ (found.reason ≡ 12)) }
{}

/// If an undecided volunteer's standing is set, and then set to open again, the standings are as before. So a path that goes back can undo
/// its decisions.
pub fn decision_is_undone()
    ensures { (all : List Standing) (i : ℕ) (standing : Standing) → IsTrue (is_undecided all i) → slice_set (slice_set all i standing) i Open ≡ all }
{}

/// A check tries the reasons in their order: those of the lottery, then stage by stage those before the cap, those of the tree, and
/// those of the listed panels.
pub fn check_goes_by_stages()
    ensures begins { BeginsWithLottery }
    ensures goes_on { GoesOnByStages }
{}

/// If each stage's lines are those of a tree that shows its cap, all caps hold.
pub fn trees_show_caps()
    ensures { (pool : Pool) (stages : List Stage) (trees : List (List TreeLine)) → TreesShow pool [] stages trees → CapsHold pool [] stages }
{}

/// For the answer of each bundle, a proof of a lottery is valid exactly if its stages certify the lottery, are within reach, and have
/// trees that show their caps.
pub fn valid_where_shown()
    ensures { (pool : Pool) (answer : Answer) (trees : List (List TreeLine)) → IsInRanges pool answer →
        verdict (OfLottery pool answer trees) ≡ Valid ↔ (Certifies pool answer.lottery answer.stages × TreesShow pool [] answer.stages trees) }
{}

/// A lottery with a valid proof is leximin greatest.
pub fn valid_is_greatest()
    ensures { (pool : Pool) (answer : Answer) (trees : List (List TreeLine)) → IsInRanges pool answer →
        verdict (OfLottery pool answer trees) ≡ Valid → LeximinGreatest pool answer.lottery }
{}

/// A proof that there is no quota panel is valid exactly if its lines are those of a tree that shows it. If it is valid, there is no quota
/// panel.
pub fn valid_no_panel()
    ensures where_shown { (pool : Pool) (lines : List TreeLine) → verdict (OfNoPanel pool lines) ≡ Valid ↔ AreOfTree (no_panel_problem pool) (standings pool) lines }
    ensures none { (pool : Pool) (lines : List TreeLine) → verdict (OfNoPanel pool lines) ≡ Valid → panels pool ≡ [] }
{}

/// A lottery's proof is refused for a reason below 11 only if its certificate doesn't hold. A proof that there is no quota panel is refused
/// only for reasons from 11 on.
pub fn refused_is_not_certified()
    ensures { (proof : Proof) (refusal : Refusal) → verdict proof ≡ Refused refusal → RefusalMeans proof refusal }
{}

/// If a proof with a tree for each stage is refused for a line of a tree, the refusal names the tree's first fault, by the number of this
/// line in the text.
pub fn refused_line_is_named()
    ensures { (proof : Proof) (refusal : Refusal) → HasTrees proof → verdict proof ≡ Refused refusal → (refusal.reason ≡ 11) ⊎ (refusal.reason ≡ 12) →
        NamesLine proof refusal }
{}

/// If the earlier stages are within reach, the constraints of a stage are. The stage for a pool without a quota panel is within reach.
pub fn constraints_are_in_reach()
    ensures constraints { (pool : Pool) (earlier : List Stage) → IsPool pool → IsTrue (list_all is_stage_in_reach earlier) → IsTrue (list_all is_in_reach (constraints pool earlier)) }
    ensures no_panel { (pool : Pool) → IsTrue (is_stage_in_reach (no_panel pool)) }
{}

/// If the problem is within reach and the leaf is in its ranges, each of these numbers of a check of the leaf fits 128 bits: a volunteer's
/// rest after the first `many` multipliers; the sum of the charges of the first `many` multipliers; the sum of the charges of all
/// multipliers and of the rests of the first `many` volunteers; each product; and the number with which the total charge is compared.
pub fn leaf_sums_are_narrow()
    ensures rest { (problem : Problem) (leaf : Leaf) (many i : ℕ) → IsTrue (is_problem_in_reach problem) → IsTrue (is_leaf leaf) →
        unsigned_abs (rest problem (first_multipliers many leaf) i) < 2 ^ 127 }
    ensures charges { (problem : Problem) (leaf : Leaf) (many : ℕ) → IsTrue (is_problem_in_reach problem) → IsTrue (is_leaf leaf) →
        unsigned_abs (first_charges problem many leaf) < 2 ^ 127 }
    ensures total { (problem : Problem) (leaf : Leaf) (all : List Standing) (many : ℕ) → IsTrue (is_problem_in_reach problem) → IsTrue (is_leaf leaf) →
        unsigned_abs (charges_and_rests problem all many leaf) < 2 ^ 127 }
    ensures products { (problem : Problem) (leaf : Leaf) (i : ℕ) → IsTrue (is_problem_in_reach problem) → IsTrue (is_leaf leaf) →
        AllByRecursion (λ it. (unsigned_abs (multiplied problem.constraints i it) < 2 ^ 127) × (unsigned_abs (charge problem.constraints it) < 2 ^ 127)) leaf.multipliers }
    ensures bound { (problem : Problem) (leaf : Leaf) → IsTrue (is_problem_in_reach problem) → IsTrue (is_leaf leaf) →
        unsigned_abs (pos leaf.scale *ℤ (problem.stage.cap +ℤ pos 1)) < 2 ^ 127 }
{}

/// The constraints of two women and two men in the second stage: the size, the women, the men, and the first stage. If a woman and a
/// man are of one household, the household's constraint is the last one.
pub fn worked_constraints()
    ensures second_stage { constraints four (stage (pos 1) (pos 1 ∷ pos 1 ∷ pos 0 ∷ pos 0 ∷ []) ∷ []) ≡
        constraint (pos 1 ∷ pos 1 ∷ pos 1 ∷ pos 1 ∷ []) (pos 2) (pos 2) ∷
        constraint (pos 1 ∷ pos 1 ∷ pos 0 ∷ pos 0 ∷ []) (pos 1) (pos 1) ∷
        constraint (pos 0 ∷ pos 0 ∷ pos 1 ∷ pos 1 ∷ []) (pos 1) (pos 1) ∷
        constraint (pos 1 ∷ pos 1 ∷ pos 0 ∷ pos 0 ∷ []) (pos 1) (pos 1) ∷ [] }
    ensures household { drop 3 (constraints family []) ≡ constraint (pos 1 ∷ pos 0 ∷ pos 1 ∷ pos 0 ∷ []) (pos 0) (pos 1) ∷ [] }
    ensures earlier_in_order { map (λ it. it.upper) (drop 3 (constraints four (stage (pos 8) [] ∷ stage (pos 7) [] ∷ []))) ≡ pos 7 ∷ pos 8 ∷ [] }
{}

/// Valid proofs: with a leaf for each stage, with a split, and of a pool without a quota panel.
pub fn valid_proofs()
    ensures four { verdict (four_proof four_trees) ≡ Valid }
    ensures split { verdict (four_proof (split_lines ∷ (OfLeaf men_leaf ∷ []) ∷ [])) ≡ Valid }
    ensures split_lines { lines_of split_tree ≡ split_lines }
    ensures no_panel { verdict (couple_proof couple_lines) ≡ Valid }
{}

/// Leaves that don't show the cap: with a wrong multiplier, in the first stage and in the second; with a constraint that the stage doesn't
/// have; without multipliers, in the subtree with a volunteer; and for a pool that has quota panels. The first tree begins with line 20 of
/// the text, or in the last example with line 14.
pub fn leaves_refused()
    ensures multiplier { verdict (four_proof ((OfLeaf double_leaf ∷ []) ∷ (OfLeaf men_leaf ∷ []) ∷ [])) ≡ refused 1 12 (20 ∷ []) }
    ensures second_stage { verdict (four_proof ((OfLeaf women_leaf ∷ []) ∷ (OfLeaf double_leaf ∷ []) ∷ [])) ≡ refused 2 12 (22 ∷ []) }
    ensures unknown { verdict (four_proof ((OfLeaf unknown_leaf ∷ []) ∷ (OfLeaf men_leaf ∷ []) ∷ [])) ≡ refused 1 12 (20 ∷ []) }
    ensures with_one { verdict (four_proof ((OfSplit 0 ∷ OfLeaf (leaf 1 []) ∷ OfLeaf (leaf 1 []) ∷ []) ∷ (OfLeaf men_leaf ∷ []) ∷ [])) ≡ refused 1 12 (22 ∷ []) }
    ensures panels { verdict (OfNoPanel four (OfLeaf (leaf 0 (times 0 (negsuc 0) ∷ times 1 (pos 1) ∷ times 2 (pos 1) ∷ [])) ∷ [])) ≡ refused 0 12 (14 ∷ []) }
{}

/// Lines that are not those of a tree: with a split on a volunteer who is decided, or on nobody; with an end before the tree is complete;
/// with a line after the tree's end.
pub fn lines_refused()
    ensures twice { verdict (four_proof ((OfSplit 0 ∷ split_lines) ∷ (OfLeaf men_leaf ∷ []) ∷ [])) ≡ refused 1 11 (21 ∷ []) }
    ensures nobody { verdict (four_proof ((OfSplit 4 ∷ OfLeaf women_leaf ∷ OfLeaf women_leaf ∷ []) ∷ (OfLeaf men_leaf ∷ []) ∷ [])) ≡ refused 1 11 (20 ∷ []) }
    ensures no_line { verdict (four_proof ([] ∷ (OfLeaf men_leaf ∷ []) ∷ [])) ≡ refused 1 11 (20 ∷ []) }
    ensures early { verdict (four_proof ((OfSplit 0 ∷ OfLeaf women_leaf ∷ []) ∷ (OfLeaf men_leaf ∷ []) ∷ [])) ≡ refused 1 11 (22 ∷ []) }
    ensures late { verdict (four_proof ((OfLeaf women_leaf ∷ OfLeaf women_leaf ∷ []) ∷ (OfLeaf men_leaf ∷ []) ∷ [])) ≡ refused 1 11 (21 ∷ []) }
    ensures seated { tree_fault (stage_problem after_dropout [] (stage (pos 9) (pos 1 ∷ pos 1 ∷ pos 1 ∷ pos 1 ∷ []))) (standings after_dropout) 1
        (OfSplit 1 ∷ OfLeaf size_leaf ∷ OfSplit 2 ∷ OfLeaf size_leaf ∷ OfLeaf size_leaf ∷ []) ≡ fault 3 11 }
{}

/// Proofs refused for other reasons: a listed panel that is no quota panel, a weight below 0, a stage out of reach, a listed panel that
/// doesn't weigh the cap, and a volunteer who is unsettled at the end.
pub fn other_reasons()
    ensures lottery { verdict (OfLottery four two_women []) ≡ refused 0 1 (0 ∷ 1 ∷ []) }
    ensures negative { verdict (OfLottery four below_zero []) ≡ refused 1 4 (2 ∷ []) }
    ensures too_far { verdict (one_stage_proof (pos (2 ^ 56 - 3)) double_leaf) ≡ refused 1 13 [] }
    ensures farthest { verdict (one_stage_proof (pos (2 ^ 56 - 4)) size_leaf) ≡ refused 1 9 (0 ∷ 2 ∷ []) }
    ensures left { verdict (OfLottery four one_stage ((OfLeaf women_leaf ∷ []) ∷ [])) ≡ refused 1 10 (2 ∷ []) }
{}

/// Bytes are the text of a proof and are read as this proof, or they have a first fault and are the text of no proof.
pub fn proof_or_fault()
    ensures { (bytes : List ℕ) → MatchResult (read_proof bytes)
        (λ proof. IsProof proof × (bytes ≡ proof_spelling proof))
        (λ fault. (proof : Proof) → IsProof proof → bytes ≢ proof_spelling proof) }
{}

/// The text of a proof is read as this proof.
pub fn proof_is_read()
    ensures { (proof : Proof) → IsProof proof → read_proof (proof_spelling proof) ≡ Ok proof }
{}

/// Proofs with the same text are the same proof.
pub fn one_proof_per_text()
    ensures { (first second : Proof) → IsProof first → IsProof second → proof_spelling first ≡ proof_spelling second → first ≡ second }
{}

/// The kinds of fault that a line may have are listed in rising order, so the first that applies is the lowest.
pub fn kinds_rise()
    ensures { (progress : Progress) (line : List ℕ) → IsTrue (is_increasing (map (λ one. one.0) (line_kinds progress line))) }
{}

/// In the text, exactly `lines_before` lines come before those of tree `stage`. The tree's lines follow, then the next tree or the last
/// line. So the line at `place` in the tree is line `lines_before + place + 1` of the text. If the tree has only `place` lines, line
/// `lines_before + place + 1` is the first line after the tree.
pub fn tree_lines_in_text()
    ensures { (proof : Proof) (stage place : ℕ) → HasTree proof stage → place ≤ length (tree_of proof stage) →
        drop (lines_before proof stage + place) (proof_lines proof) ≡ map node_line (drop place (tree_of proof stage)) ++ lines_behind proof stage }
{}

/// If a proof is refused for a line of a tree, the refusal names the number of this line in the text.
pub fn refused_line_in_text()
    ensures { (proof : Proof) (refusal : Refusal) → IsProof proof → verdict proof ≡ Refused refusal → (refusal.reason ≡ 11) ⊎ (refusal.reason ≡ 12) →
        NamesTextLine proof refusal }
{}

/// The spelled trees of two women and two men, and of a woman and a man of one household.
pub fn worked_texts()
    ensures four { drop 18 (whole four_trees) ≡
        line_of (codes "tree" ∷ codes "1" ∷ []) ∷
        line_of (codes "bound" ∷ codes "1" ∷ codes "1" ∷ codes "1" ∷ []) ∷
        line_of (codes "tree" ∷ codes "2" ∷ []) ∷
        line_of (codes "bound" ∷ codes "1" ∷ codes "2" ∷ codes "1" ∷ codes "3" ∷ codes "-1" ∷ []) ∷
        codes "close" ∷ [] }
    ensures split { drop 18 (whole (split_lines ∷ [])) ≡
        line_of (codes "tree" ∷ codes "1" ∷ []) ∷
        line_of (codes "split" ∷ codes "0" ∷ []) ∷
        line_of (codes "bound" ∷ codes "1" ∷ []) ∷
        line_of (codes "bound" ∷ codes "1" ∷ codes "1" ∷ codes "1" ∷ []) ∷
        codes "close" ∷ [] }
    ensures couple { drop 10 (lines_before_close (couple_proof couple_lines)) ≡
        codes "end" ∷
        codes "none" ∷
        line_of (codes "tree" ∷ codes "0" ∷ []) ∷
        line_of (codes "bound" ∷ codes "0" ∷ codes "0" ∷ codes "-1" ∷ codes "3" ∷ codes "1" ∷ []) ∷ [] }
{}

/// What lines are read as inside tree 1 of 2, for four volunteers. `close` isn't allowed before the last tree; the line that begins the
/// next tree must be that of tree 2; a split must be on a volunteer with a number below 4; the constraints of a leaf must be in rising
/// order, each with a factor that isn't 0; and a leaf's numbers must be in their ranges.
pub fn worked_lines()
    ensures marks { map (line_in_tree 4 1 2) (codes "close" ∷ line_of (codes "tree" ∷ codes "2" ∷ []) ∷ line_of (codes "tree" ∷ codes "3" ∷ []) ∷ codes "none" ∷ [])
        ≡ Unknown ∷ NextTree ∷ Unknown ∷ Unknown ∷ [] }
    ensures last { map (line_in_tree 4 2 2) (codes "close" ∷ line_of (codes "tree" ∷ codes "3" ∷ []) ∷ []) ≡ TheClose ∷ Unknown ∷ [] }
    ensures splits { map (λ fields. line_in_tree 4 1 2 (line_of (codes "split" ∷ fields))) ((codes "3" ∷ []) ∷ (codes "4" ∷ []) ∷ (codes "03" ∷ []) ∷ [] ∷ (codes "1" ∷ codes "2" ∷ []) ∷ [])
        ≡ OfNode (OfSplit 3) ∷ Unknown ∷ Unknown ∷ Unknown ∷ Unknown ∷ [] }
    ensures leaves { map (λ fields. line_in_tree 4 1 2 (line_of (codes "bound" ∷ fields)))
        ((codes "72057594037927936" ∷ []) ∷ (codes "0" ∷ codes "0" ∷ codes "72057594037927936" ∷ codes "1800" ∷ codes "-72057594037927936" ∷ []) ∷ [])
        ≡ OfNode (OfLeaf (leaf (2 ^ 56) [])) ∷ OfNode (OfLeaf (leaf 0 (times 0 (pos (2 ^ 56)) ∷ times 1800 (negsuc (2 ^ 56 - 1)) ∷ []))) ∷ [] }
    ensures large { map (λ volunteers. line_in_tree volunteers 1 2 (line_of (codes "bound" ∷ codes "0" ∷ codes "9000" ∷ codes "1" ∷ []))) (4 ∷ 400 ∷ 401 ∷ [])
        ≡ Unknown ∷ Unknown ∷ OfNode (OfLeaf (leaf 0 (times 9000 (pos 1) ∷ []))) ∷ [] }
    ensures no_leaves { map (λ fields. line_in_tree 4 1 2 (line_of (codes "bound" ∷ fields)))
        ([] ∷ (codes "72057594037927937" ∷ []) ∷ (codes "-1" ∷ []) ∷ (codes "1" ∷ codes "0" ∷ []) ∷ (codes "1" ∷ codes "0" ∷ codes "0" ∷ []) ∷ (codes "1" ∷ codes "1801" ∷ codes "1" ∷ [])
        ∷ (codes "1" ∷ codes "0" ∷ codes "72057594037927937" ∷ []) ∷ (codes "1" ∷ codes "0" ∷ codes "-72057594037927937" ∷ [])
        ∷ (codes "1" ∷ codes "2" ∷ codes "1" ∷ codes "2" ∷ codes "1" ∷ []) ∷ (codes "1" ∷ codes "2" ∷ codes "1" ∷ codes "1" ∷ codes "1" ∷ []) ∷ [])
        ≡ Unknown ∷ Unknown ∷ Unknown ∷ Unknown ∷ Unknown ∷ Unknown ∷ Unknown ∷ Unknown ∷ Unknown ∷ Unknown ∷ [] }
{}

/// A text that is read as a proof, and texts with a first fault: in the first or second line, in the pool, after the bundle, in the trees,
/// after the last line, or because the end of the pool, the bundle or the proof is missing.
pub fn worked_faults()
    ensures read { read_text (whole four_trees) ≡ Ok (four_proof four_trees) }
    ensures empty { read_proof [] ≡ faulty 1 23 }
    ensures second_version { read_text second_version ≡ faulty 1 21 }
    ensures without_pool { read_text without_pool ≡ faulty 2 22 }
    ensures without_size { read_text without_size ≡ faulty 3 2 }
    ensures without_end { read_text without_end ≡ faulty 3 12 }
    ensures without_done { read_text without_done ≡ faulty 18 17 }
    ensures without_tree { read_text without_tree ≡ faulty 19 22 }
    ensures one_tree { read_text one_tree ≡ faulty 21 22 }
    ensures three_trees { read_text three_trees ≡ faulty 23 22 }
    ensures without_close { read_text (lines_before_close (four_proof four_trees)) ≡ faulty 23 23 }
    ensures line_behind { read_text (whole four_trees ++ close_line ∷ []) ≡ faulty 24 23 }
    ensures bytes_behind { read_proof (text_of (whole four_trees) ++ codes "x") ≡ faulty 24 23 }
{}
