//! A lottery in a round number of tickets, so that fewer dice are needed for a draw: how many tickets each panel gets, and how far its
//! chance moves. The definitions are in `specs/`.
//!
//! The functions have no body: their contracts are laws over the definitions, and worked examples. That a shortened lottery is leximin
//! greatest is not promised: `no_list_is_nearer` says how near it is, and `chances_move_little` how far a volunteer's chance may move.
ghost use Rattle.std.specs.Prelude.{◌≡◌, ◌<◌, ◌≤◌, ◌+◌, ◌*◌, ◌⊎◌, ℕ, List, [], ◌∷◌, Ok, Err, codes, length, map, slice_index, sum, IsTrue, IsFalse};
ghost use Rattle.define_draws.specs.Draw.{Refused, draw};
ghost use Rattle.define_draws.specs.Tickets.{weights_of};
ghost use Rattle.define_pools.specs.Lottery.{Lottery, IsLottery, TotalAgrees, count};
ghost use Rattle.define_pools.specs.Pool.{Pool};
ghost use Rattle.define_pools.specs.WorkedExamples.{row};
ghost use Rattle.define_draws.specs.Shares.{distance, distance_from_share, distance_from_shares, panels_with};
ghost use Rattle.define_draws.specs.Short.{is_among_first, shortened, tickets_at, tickets_by_weight};
ghost use Rattle.define_draws.specs.WorkedShort.{two_by_three};

/// The tickets of all rows sum to the number of tickets. Each row's tickets are its share, rounded down or up.
pub fn tickets_sum()
    ensures all { (lottery : Lottery) (tickets : ℕ) → TotalAgrees lottery → 1 ≤ lottery.total →
        sum (tickets_by_weight lottery.total tickets (weights_of lottery)) ≡ tickets }
    ensures near { (lottery : Lottery) (tickets place : ℕ) → TotalAgrees lottery → 1 ≤ lottery.total → place < length lottery.rows →
        distance_from_share lottery.total tickets (slice_index (weights_of lottery) place) (tickets_at lottery.total tickets (weights_of lottery) place) < lottery.total }
{}

/// A row that gets one of the tickets that are left has a greater remainder than each row that gets none, or the same remainder and an
/// earlier place.
pub fn greatest_remainders_first()
    ensures { (left : ℕ) (remainders : List ℕ) (first second : ℕ) → first < length remainders → second < length remainders →
        IsTrue (is_among_first left remainders first) → IsFalse (is_among_first left remainders second) →
        (slice_index remainders second < slice_index remainders first) ⊎ ((slice_index remainders second ≡ slice_index remainders first) × (first < second)) }
{}

/// Take any list of numbers of at least 0, one for each row, that sum to the number of tickets. It isn't nearer to the rows' shares than
/// the rows' tickets are, measured by the sum of the distances.
pub fn no_list_is_nearer()
    ensures { (lottery : Lottery) (tickets : ℕ) (counts : List ℕ) → TotalAgrees lottery → 1 ≤ lottery.total → length counts ≡ length lottery.rows → sum counts ≡ tickets →
        distance_from_shares lottery.total tickets (weights_of lottery) (tickets_by_weight lottery.total tickets (weights_of lottery))
        ≤ distance_from_shares lottery.total tickets (weights_of lottery) counts }
{}

/// A shortened lottery's weights are at least 1 and sum to its total. If the lottery is over the quota panels of a pool, and there is at
/// least one ticket, the shortened lottery is over them too.
pub fn shortened_is_a_lottery()
    ensures agrees { (lottery : Lottery) (tickets : ℕ) → TotalAgrees lottery → 1 ≤ lottery.total → TotalAgrees (shortened lottery tickets) }
    ensures is_lottery { (pool : Pool) (lottery : Lottery) (tickets : ℕ) → IsLottery pool lottery → 1 ≤ tickets → IsLottery pool (shortened lottery tickets) }
{}

/// A volunteer's chance moves by at most the number of panels with the volunteer, divided by the number of tickets. In the contract both
/// chances and this bound are multiplied by the total and by the number of tickets.
pub fn chances_move_little()
    ensures { (lottery : Lottery) (tickets i : ℕ) → TotalAgrees lottery → 1 ≤ lottery.total →
        distance (count (shortened lottery tickets) i * lottery.total) (count lottery i * tickets) ≤ panels_with lottery i * lottery.total }
{}

/// Worked examples: weights 2, 1, 1 and 2 in 1000 tickets and in one, and three equal weights in two tickets.
pub fn worked_tickets()
    ensures thousand { tickets_by_weight 6 1000 (2 ∷ 1 ∷ 1 ∷ 2 ∷ []) ≡ 333 ∷ 167 ∷ 167 ∷ 333 ∷ [] }
    ensures one { tickets_by_weight 6 1 (2 ∷ 1 ∷ 1 ∷ 2 ∷ []) ≡ 1 ∷ 0 ∷ 0 ∷ 0 ∷ [] }
    ensures two { tickets_by_weight 3 2 (1 ∷ 1 ∷ 1 ∷ []) ≡ 1 ∷ 1 ∷ 0 ∷ [] }
{}

/// Worked examples: a draw from a lottery of weights 2, 1, 1 and 2 in 1000 tickets. With a seal other than the kept one, nothing is drawn.
/// In one ticket, the lottery has one row.
pub fn worked_draws()
    ensures ticket { draw (shortened two_by_three 1000) (codes "5ea1") (codes "5EA1") (codes "500") ≡ Ok (record { ticket = 500; used = 3; panel = 1 ∷ 4 ∷ [] }) }
    ensures seal { draw (shortened two_by_three 1000) (codes "5ea1") (codes "0000") (codes "500") ≡ Err Refused.SealDiffers }
    ensures first { (shortened two_by_three 1).rows ≡ row (0 ∷ 3 ∷ []) 1 ∷ [] }
{}
