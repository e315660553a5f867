//! The definitions that the program is measured against: pools and quota panels, lotteries and their order, certificates, and how a pool is
//! built. They are in `specs/`.
//!
//! The base of all proofs is here too: laws on lists, sums, whole numbers and tests that std lacks and several crates need, each proved
//! once, in `proofs/`: Each, Found, Integers, Lists, Sums and Tests. Look there before you state a lemma.
//!
//! The functions have no body: their contracts are laws over the definitions, and each is a promise. The one that matters most is
//! `certified_is_greatest`; `leximin` says the order part by part. Worked examples are in `laws_worked`.
#![tactic(auto)]

pub mod leximin;

ghost use Rattle.std.specs.Prelude.{◌≡◌, ◌↔◌, ◌*◌, [], ◌∷◌, List, ℕ, Contains, IsTrue, sum};
ghost use Rattle.std.specs.List.{list_all};
ghost use Rattle.define_pools.specs.Pool.{allows, is_of_size, is_quota_panel, Pool, IsPool, panels, limits_for, most_members, most_volunteers};
ghost use Rattle.define_pools.specs.Lottery.{Lottery, IsLottery, TotalAgrees, LeximinGreatest, counts};
ghost use Rattle.define_pools.specs.Certificate.{Stage, Certifies};

/// A volunteer's standing: whether a panel may, must or can't have them.
#[derive(Clone, Copy, Debug, PartialEq, Eq)]
pub enum Standing {
    /// May be chosen.
    Open,
    /// Is on each panel.
    Seated,
    /// Can't be chosen any more.
    Gone,
}

impl Standing {
    /// True if a panel may have a volunteer of this standing as a member, or, where `is_in` is false, may be without them.
    pub fn permits(self, is_in: bool) -> bool
        ensures { result ≡ allows self is_in }
    {
        match self {
            Standing::Open => true,
            Standing::Seated => is_in,
            Standing::Gone => !is_in,
        }
    }
}

/// The limits of a pool's size.
#[derive(Clone, Copy)]
pub enum Limits {
    /// Those of most pools: panels of at most 200 members, and at most 400 volunteers.
    Usual,
    /// Those of every pool: panels of at most 1,000 members, and at most 4,000 volunteers.
    Large,
}

impl Limits {
    /// Returns the limits that a pool with this many volunteers needs.
    pub fn of(volunteers: usize) -> Limits
        ensures { result ≡ limits_for volunteers }
    {
        if volunteers <= Limits::Usual.volunteers() {
            Limits::Usual
        } else {
            Limits::Large
        }
    }

    /// Returns the greatest number of a panel's members.
    pub fn members(self) -> usize
        ensures { result ≡ most_members self }
    {
        match self {
            Limits::Usual => 200,
            Limits::Large => 1000,
        }
    }

    /// Returns the greatest number of volunteers.
    pub fn volunteers(self) -> usize
        ensures { result ≡ most_volunteers self }
    {
        match self {
            Limits::Usual => 400,
            Limits::Large => 4000,
        }
    }
}

/// A lottery that stages certify is leximin greatest: no lottery over the pool's quota panels is above it.
pub fn certified_is_greatest()
    ensures { (pool : Pool) (lottery : Lottery) (stages : List Stage) → Certifies pool lottery stages → LeximinGreatest pool lottery }
{}

/// The list `panels pool` contains all quota panels of the pool, and nothing else.
pub fn all_are_listed()
    ensures { (pool : Pool) (panel : List ℕ) → Contains (panels pool) panel ↔ IsTrue (is_quota_panel pool panel) }
{}

/// If the weights sum to the total and each panel has the pool's size, the volunteers' counts sum to the size times the total.
pub fn counts_sum()
    ensures { (pool : Pool) (lottery : Lottery) → TotalAgrees lottery → IsTrue (list_all (λ row. is_of_size pool row.panel) lottery.rows) →
        sum (counts pool lottery) ≡ pool.size * lottery.total }
{}
