//! Texts byte for byte, each kind of fault of a pool's text and of a bundle's, and answers that no bundle has.

ghost use Rattle.std.specs.Prelude.{◌≡◌, [], ◌∷◌, ◌++◌, ◌+◌, ◌-◌, ◌^◌, codes, length, Ok, Err, pos, negsuc};
ghost use Rattle.define_pools.specs.Building.{empty_pool};
ghost use Rattle.define_pools.specs.WorkedExamples.{four, after_dropout, row, stage};
ghost use Rattle.define_bundles.specs.PoolText.{spelling};
ghost use Rattle.define_bundles.specs.PoolReading.{read};
ghost use Rattle.define_bundles.specs.Ranges.{IsInRanges};
ghost use Rattle.define_bundles.specs.WorkedPoolTexts.{housed};
ghost use Rattle.define_bundles.specs.BundleText.{bundle_text};
ghost use Rattle.define_bundles.specs.BundleReading.{read_bundle};
ghost use Rattle.laws_worked.specs.Bundles.{answer_of, four_text, head, head_with_value, housed_answer, housed_bundle_text, housed_text, lines_of_four, printed_answer, printed_text, single};

/// The text of two women and two men, and the bundle that the program prints for them, byte for byte.
pub fn spelled_texts()
    ensures pool { spelling four ≡ four_text }
    ensures pool_is_read { read four_text ≡ Ok four }
    ensures bundle { bundle_text four printed_answer ≡ printed_text }
    ensures bundle_is_read { read_bundle printed_text ≡ Ok (record { pool = four; answer = printed_answer }) }
{}

/// The text of two women and two men, of whom a and c share a household, and a bundle of them, byte for byte.
pub fn housed_texts()
    ensures pool { spelling housed ≡ housed_text }
    ensures pool_is_read { read housed_text ≡ Ok housed }
    ensures pool_length { length housed_text ≡ 166 }
    ensures bundle { bundle_text housed housed_answer ≡ housed_bundle_text }
    ensures bundle_is_read { read_bundle housed_bundle_text ≡ Ok (record { pool = housed; answer = housed_answer }) }
    ensures bundle_length { length housed_bundle_text ≡ 263 }
{}

/// Each kind of fault of a pool's text, from 1 to 12.
pub fn faulty_texts()
    ensures form { read (codes "pool\t4\n") ≡ Err (record { line = 1; kind = 1 }) }
    ensures size { read (codes "pool\t1\nsize\t0\n") ≡ Err (record { line = 2; kind = 2 }) }
    ensures category_repeated { read (head_with_value ++ codes "category\tg\n") ≡ Err (record { line = 5; kind = 3 }) }
    ensures value_repeated { read (head_with_value ++ codes "value\tx\t0\t1\n") ≡ Err (record { line = 5; kind = 4 }) }
    ensures bounds { read (head_with_value ++ codes "value\ty\t2\t1\n") ≡ Err (record { line = 5; kind = 5 }) }
    ensures unknown_value { read (head_with_value ++ codes "volunteer\ta\ty\n") ≡ Err (record { line = 5; kind = 6 }) }
    ensures missing_value { read (head_with_value ++ codes "volunteer\ta\n") ≡ Err (record { line = 5; kind = 7 }) }
    ensures id_repeated { read (head_with_value ++ codes "volunteer\ta\tx\nvolunteer\ta\tx\n") ≡ Err (record { line = 6; kind = 8 }) }
    ensures unknown_id { read (head_with_value ++ codes "volunteer\ta\tx\ngone\tb\n") ≡ Err (record { line = 6; kind = 9 }) }
    ensures limit { read (head ++ codes "category\t\n") ≡ Err (record { line = 3; kind = 10 }) }
    ensures not_utf8 { read (head ++ codes "category\t" ++ 255 ∷ 10 ∷ []) ≡ Err (record { line = 3; kind = 11 }) }
    ensures missing_end { read head ≡ Err (record { line = 3; kind = 12 }) }
{}

/// Faults of household lines. In version 1: there is one. In version 2: there is none before the end, or before a standing line; two are
/// out of order; one has no name; one follows a standing line.
pub fn faulty_households()
    ensures first_version { read (lines_of_four 1 ++ codes "household\ta\th\nhousehold\tc\th\nend\n") ≡ Err (record { line = 10; kind = 1 }) }
    ensures none_before_end { read (lines_of_four 2 ++ codes "end\n") ≡ Err (record { line = 10; kind = 1 }) }
    ensures none_before_standing { read (lines_of_four 2 ++ codes "gone\ta\n") ≡ Err (record { line = 10; kind = 1 }) }
    ensures out_of_order { read (lines_of_four 2 ++ codes "household\tc\th\nhousehold\ta\th\nend\n") ≡ Err (record { line = 11; kind = 9 }) }
    ensures no_name { read (lines_of_four 2 ++ codes "household\ta\t\n") ≡ Err (record { line = 10; kind = 10 }) }
    ensures behind_a_standing { read (lines_of_four 2 ++ codes "household\ta\th\ngone\ta\nhousehold\tc\th\n") ≡ Err (record { line = 12; kind = 1 }) }
{}

/// Faults of texts of version 3. A pool within the usual limits has kind 1 at the first line after its volunteers. The greatest size is 1,000,
/// and 200 in the other versions. A bundle has a pool of its own version.
pub fn faulty_large_texts()
    ensures small { read (lines_of_four 3 ++ codes "end\n") ≡ Err (record { line = 10; kind = 1 }) }
    ensures small_with_household { read (lines_of_four 3 ++ codes "household\ta\th\nend\n") ≡ Err (record { line = 10; kind = 1 }) }
    ensures small_with_standing { read (lines_of_four 3 ++ codes "gone\ta\nend\n") ≡ Err (record { line = 10; kind = 1 }) }
    ensures small_and_cut { read (lines_of_four 3) ≡ Err (record { line = 10; kind = 12 }) }
    ensures greatest_size { read (codes "pool\t3\nsize\t1000\nend\n") ≡ Ok (empty_pool 1000) }
    ensures beyond_greatest_size { read (codes "pool\t3\nsize\t1001\n") ≡ Err (record { line = 2; kind = 2 }) }
    ensures large_in_second { read (codes "pool\t2\nsize\t201\n") ≡ Err (record { line = 2; kind = 2 }) }
    ensures other_pool { read_bundle (codes "bundle\t3\npool\t2\n") ≡ Err (record { line = 2; kind = 1 }) }
    ensures small_in_bundle { read_bundle (codes "bundle\t3\n" ++ lines_of_four 3 ++ codes "end\n") ≡ Err (record { line = 11; kind = 1 }) }
{}

/// Faults of a bundle's text: another version; a pool of another version; a fault in the pool; a total of 0. In place of the first panel:
/// the end, a panel with a member that the pool doesn't have, a stage. After a panel: a faulty stage. After a stage: a faulty stage, a
/// panel. Texts that end within the pool, after the total, and before the first line. Bytes after the last line.
pub fn faulty_bundles()
    ensures version { read_bundle (codes "bundle\t4\n") ≡ Err (record { line = 1; kind = 13 }) }
    ensures other_version { read_bundle (codes "bundle\t2\npool\t1\n") ≡ Err (record { line = 2; kind = 1 }) }
    ensures in_the_pool { read_bundle (codes "bundle\t1\n" ++ head ++ codes "category\t\n") ≡ Err (record { line = 4; kind = 10 }) }
    ensures total { read_bundle (single ++ codes "total\t0\n") ≡ Err (record { line = 6; kind = 14 }) }
    ensures no_panel { read_bundle (single ++ codes "total\t1\ndone\n") ≡ Err (record { line = 7; kind = 15 }) }
    ensures no_member { read_bundle (single ++ codes "total\t1\npanel\t1\t1\n") ≡ Err (record { line = 7; kind = 15 }) }
    ensures stage_first { read_bundle (single ++ codes "total\t1\nstage\t0\t0\n") ≡ Err (record { line = 7; kind = 15 }) }
    ensures first_stage { read_bundle (single ++ codes "total\t1\npanel\t1\t0\nstage\t-0\t0\n") ≡ Err (record { line = 8; kind = 16 }) }
    ensures later_stage { read_bundle (single ++ codes "total\t1\npanel\t1\t0\nstage\t0\t0\nstage\t0\n") ≡ Err (record { line = 9; kind = 16 }) }
    ensures panel_last { read_bundle (single ++ codes "total\t1\npanel\t1\t0\nstage\t0\t0\npanel\t1\t0\n") ≡ Err (record { line = 9; kind = 16 }) }
    ensures pool_cut { read_bundle (codes "bundle\t1\n" ++ head) ≡ Err (record { line = 4; kind = 12 }) }
    ensures cut { read_bundle (single ++ codes "total\t1\n") ≡ Err (record { line = 7; kind = 17 }) }
    ensures empty { read_bundle [] ≡ Err (record { line = 1; kind = 17 }) }
    ensures behind_done { read_bundle (printed_text ++ 48 ∷ []) ≡ Err (record { line = 18; kind = 17 }) }
{}

/// The fault of a text is that of its first faulty line, and of the lowest kind that applies to this line. No bytes are allowed after the
/// end line.
pub fn first_faults()
    ensures first_line { read (codes "pool\t1\nsize\t0\ncategory\t\n") ≡ Err (record { line = 2; kind = 2 }) }
    ensures lowest_kind { read (head_with_value ++ codes "value\tx\t2\t1\n") ≡ Err (record { line = 5; kind = 4 }) }
    ensures behind_the_end { read (four_text ++ 10 ∷ []) ≡ Err (record { line = 11; kind = 1 }) }
    ensures unended_line { read (four_text ++ 48 ∷ []) ≡ Err (record { line = 11; kind = 1 }) }
    ensures behind_a_standing { read (head_with_value ++ codes "volunteer\ta\tx\ngone\ta\nvolunteer\tb\tx\n") ≡ Err (record { line = 7; kind = 1 }) }
{}

/// Answers that no bundle of the pool `four` can have: with a total of 0 or above 10^38; with no panel, a weight of 0, a panel of
/// nobody, a member twice, or a number that no volunteer has; with no stage, too few weights, or a reach of 2^127.
pub fn ranges_that_refuse()
    ensures no_total { ¬ IsInRanges four (answer_of 0 (row (0 ∷ 2 ∷ []) 1 ∷ []) (stage (pos 1) (pos 1 ∷ pos 1 ∷ pos 0 ∷ pos 0 ∷ []) ∷ [])) }
    ensures great_total { ¬ IsInRanges four (answer_of (10 ^ 38 + 1) (row (0 ∷ 2 ∷ []) 1 ∷ []) (stage (pos 1) (pos 1 ∷ pos 1 ∷ pos 0 ∷ pos 0 ∷ []) ∷ [])) }
    ensures no_row { ¬ IsInRanges four (answer_of 1 [] (stage (pos 1) (pos 1 ∷ pos 1 ∷ pos 0 ∷ pos 0 ∷ []) ∷ [])) }
    ensures no_weight { ¬ IsInRanges four (answer_of 1 (row (0 ∷ 2 ∷ []) 0 ∷ []) (stage (pos 1) (pos 1 ∷ pos 1 ∷ pos 0 ∷ pos 0 ∷ []) ∷ [])) }
    ensures of_nobody { ¬ IsInRanges four (answer_of 1 (row [] 1 ∷ []) (stage (pos 1) (pos 1 ∷ pos 1 ∷ pos 0 ∷ pos 0 ∷ []) ∷ [])) }
    ensures member_twice { ¬ IsInRanges four (answer_of 1 (row (0 ∷ 0 ∷ []) 1 ∷ []) (stage (pos 1) (pos 1 ∷ pos 1 ∷ pos 0 ∷ pos 0 ∷ []) ∷ [])) }
    ensures no_volunteer { ¬ IsInRanges four (answer_of 1 (row (0 ∷ 4 ∷ []) 1 ∷ []) (stage (pos 1) (pos 1 ∷ pos 1 ∷ pos 0 ∷ pos 0 ∷ []) ∷ [])) }
    ensures no_stage { ¬ IsInRanges four (answer_of 1 (row (0 ∷ 2 ∷ []) 1 ∷ []) []) }
    ensures too_few_weights { ¬ IsInRanges four (answer_of 1 (row (0 ∷ 2 ∷ []) 1 ∷ []) (stage (pos 1) (pos 1 ∷ pos 1 ∷ pos 0 ∷ []) ∷ [])) }
    ensures great_reach { ¬ IsInRanges four (answer_of 1 (row (0 ∷ 2 ∷ []) 1 ∷ []) (stage (pos 1) (pos (2 ^ 127 - 1) ∷ pos 0 ∷ pos 0 ∷ pos 0 ∷ []) ∷ [])) }
{}
