//! A path of decisions in a tree, with the standings of all volunteers where it leads. Decisions set standings, and going back resets them.
//! `trees` walks through a tree along such a path.

ghost use Rattle.std.specs.Prelude.{◌≡◌, [], IfOk, IsTrue, OnOk, map};
ghost use Rattle.define_proofs.specs.Trees.{is_open as is_open_one, is_undecided as is_undecided_of};
ghost use Rattle.define_proofs.specs.TreeLines.{decided_standing as decided, path_behind};
ghost use Rattle.check_proofs.specs.Paths.{Undoes, reached, with_decision};
ghost use Rattle.check_proofs.specs.Steps.{place};

use pool_model::{Pool, Standing, Volunteer};
use std::alloc::{AllocError, Global};
use std::marker::Model;

/// The volunteer on whom a split decides, and whether the next line is in the subtree with this volunteer or in the one without.
#[derive(Drop)]
pub(crate) struct Decision {
    volunteer: usize,
    is_in: bool,
}

impl Model for Decision {
    ghost use Rattle.define_proofs.specs.TreeLines.{Decision as Seen};

    ghost Value = { Seen };

    ghost view = { λ d. record { volunteer = d.volunteer; is_in = d.is_in } };
}

impl Decision {
    /// Returns a decision.
    fn new(volunteer: usize, is_in: bool) -> Decision
        ensures { result ≡ record { volunteer = volunteer; is_in = is_in } }
    {
        Decision { volunteer, is_in }
    }

    /// Returns the volunteer.
    fn volunteer(&self) -> usize
        ensures { result ≡ self.now.volunteer }
    {
        self.volunteer
    }

    /// True if the next line is in the subtree with the volunteer.
    fn is_in(&self) -> bool
        ensures { result ≡ self.now.is_in }
    {
        self.is_in
    }
}

/// Decisions over a pool, with the standings where they lead.
#[derive(Drop)]
pub(crate) struct Path<'a> {
    pool: &'a Pool,
    decisions: Vec<Decision>,
    standings: Vec<Standing>,
}

impl<'a> Model for Path<'a> {
    ghost use Rattle.std.specs.Prelude.{reverse};
    ghost use Rattle.check_proofs.specs.Paths.{KeepsStandings, Path as Seen};

    ghost Value = { Seen };

    ghost view = { λ p. record { pool = p.pool.now; decisions = reverse p.decisions.items } };

    ghost invariant = { λ p. KeepsStandings (record { pool = p.pool.now; decisions = reverse p.decisions.items }) p.standings.items };
}

impl<'a> Path<'a> {
    /// Returns the path to a tree's first line, which has no decision.
    pub(crate) fn begin(alloc: Global, pool: &'a Pool) -> Result<Path<'a>, AllocError>
        ensures { IfOk result (λ path. path ≡ record { pool = pool.now; decisions = [] }) }
    {
        Ok(Path {
            pool,
            decisions: Vec::new(alloc),
            standings: first_standings(alloc, pool.volunteers())?,
        })
    }

    /// Returns the standings where the path leads.
    pub(crate) fn standings(&self) -> &[Standing]
        ensures { result.now ≡ reached self.now }
    {
        &self.standings
    }

    /// True if the standing of a volunteer is still open where the path leads.
    pub(crate) fn is_undecided(&self, i: usize) -> bool
        ensures { result ≡ is_undecided_of (reached self.now) i }
    {
        match self.standings.get(i) {
            Some(standing) => is_open(*standing),
            None => false,
        }
    }

    /// Decides on a volunteer: in or out.
    pub(crate) fn decide(&mut self, i: usize, is_in: bool) -> Result<(), AllocError>
        requires { IsTrue (is_undecided_of (reached self.old) i) }
        ensures { OnOk result (self.new ≡ with_decision self.old (record { volunteer = i; is_in = is_in })) }
    {
        self.decisions.push(Decision::new(i, is_in))?;
        self.standings[i] = decided_standing(is_in);
        Ok(())
    }

    /// Undoes the latest decision, and returns it, if there is one.
    fn undo(&mut self) -> Option<Decision>
        ensures { Undoes result self.old self.new }
    {
        let latest = self.decisions.pop()?;
        self.standings[latest.volunteer()] = Standing::Open;
        Some(latest)
    }

    /// Goes on after a leaf: back to the latest decision that put a volunteer out, which now puts the volunteer in. Returns false if there
    /// is none, so that the tree ends.
    pub(crate) fn go_behind(&mut self) -> Result<bool, AllocError>
        ensures path { IfOk result (λ goes_on. path_behind self.old.decisions ≡ place goes_on self.new.decisions) }
        ensures pool { OnOk result (self.new.pool ≡ self.old.pool) }
    {
        while let Some(latest) = self.undo() {
            if !latest.is_in() {
                self.decide(latest.volunteer(), true)?;
                return Ok(true);
            }
        }
        Ok(false)
    }
}

/// Returns the standings of the pool.
fn first_standings(alloc: Global, volunteers: &[Volunteer]) -> Result<Vec<Standing>, AllocError>
    ensures { IfOk result (λ first. first.items ≡ map (λ volunteer. volunteer.standing) volunteers.now) }
{
    volunteers
        .iter()
        .map(|volunteer| volunteer.standing())
        .collect(alloc)
}

/// True if a standing is open.
fn is_open(standing: Standing) -> bool
    ensures { result ≡ is_open_one standing }
{
    match standing {
        Standing::Open => true,
        Standing::Seated | Standing::Gone => false,
    }
}

/// Returns the standing of a volunteer whom a decision puts in or out.
fn decided_standing(is_in: bool) -> Standing
    ensures { result ≡ decided is_in }
{
    if is_in {
        Standing::Seated
    } else {
        Standing::Gone
    }
}
