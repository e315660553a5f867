//! Pseudo-random numbers, by a linear congruential generator. They break ties in goals here, in `prove_stages` and in `prove_peeling`; vary
//! the wishes of `prove_peeling`; and disturb the choice of variables in `prove_mixes`. The contracts promise the range of each number.

ghost use Rattle.std.specs.Prelude.{◌<◌, ◌≤◌, ◌≤ℤ◌, pos, neg_ℤ};

const MULTIPLIER: u64 = 6364136223846793005;

const INCREMENT: u64 = 1442695040888963407;

/// A stream of pseudo-random numbers. One seed gives the same numbers in every run, so that a run can be repeated. No proof rests on their
/// values.
#[derive(Drop)]
pub struct PseudoRandom {
    state: u64,
}

impl PseudoRandom {
    /// Returns the stream of a seed.
    pub fn new(seed: u64) -> PseudoRandom {
        PseudoRandom { state: seed }
    }

    /// Returns the next number, from 1 to `most`.
    pub fn next_up_to(&mut self, most: u64) -> u64
        requires { 0 < most }
        ensures least { 0 < result }
        ensures greatest { result ≤ most }
    {
        self.state = self.state.wrapping_mul(MULTIPLIER).wrapping_add(INCREMENT);
        (self.state >> 33) % most + 1
    }

    /// Returns the next number, from `-bound` to `bound`.
    pub fn next_within(&mut self, bound: u32) -> i64
        ensures least { neg_ℤ (pos bound) ≤ℤ result }
        ensures greatest { result ≤ℤ pos bound }
    {
        let number = self.next_up_to(u64::from(bound) * 2 + 1) as i64;
        number - 1 - i64::from(bound)
    }
}
