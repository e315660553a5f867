//! The generator of numbers from a seed. A helper of `made_pools`.

ghost use Rattle.std.specs.Prelude.{◌≡◌};
ghost use Rattle.define_made_pools.specs.Generator.{next_state, upper_bits};
ghost use Rattle.office_reports.specs.Making.{values_behind};

const MULTIPLIER: u64 = 6_364_136_223_846_793_005;

const INCREMENT: u64 = 1_442_695_040_888_963_407;

/// The state of a generator, which begins as the seed.
#[derive(Drop)]
pub(crate) struct Generator {
    pub(crate) state: u64,
}

impl Generator {
    /// Returns the next number, of 31 bits.
    pub(crate) fn number(&mut self) -> u64
        ensures state { self.new.state ≡ next_state self.old.state }
        ensures value { result ≡ upper_bits (next_state self.old.state) }
    {
        self.state = self.state.wrapping_mul(MULTIPLIER).wrapping_add(INCREMENT);
        self.state >> 33
    }

    /// Returns the next volunteer's values, made of the next three numbers.
    pub(crate) fn values(&mut self) -> [usize; 3]
        ensures state { self.new.state ≡ next_state (next_state (next_state self.old.state)) }
        ensures value { result ≡ values_behind self.old.state }
    {
        let gender = self.number() % 2;
        let age = self.number() % 3;
        let area = self.number() % 2;
        [gender as usize, age as usize, area as usize]
    }
}
