//! Panels: increasing lists of the numbers of volunteers.

ghost use Rattle.std.specs.Prelude.{◌≡◌, IsTrue, Some, None, if◌then◌else◌, IfOk};
ghost use Rattle.define_pools.specs.Lists.{is_increasing};

use std::alloc::AllocError;
use std::marker::Model;

/// An increasing list of volunteers' numbers, which count from 0.
#[derive(Debug, Drop)]
pub struct Panel {
    members: Vec<usize>,
}

impl Model for Panel {
    ghost use Rattle.std.specs.Prelude.{List, ℕ, IsTrue};
    ghost use Rattle.define_pools.specs.Lists.{is_increasing};

    ghost Value = { List ℕ };

    ghost view = { λ p. p.members.items };

    ghost invariant = { λ p. IsTrue (is_increasing p.members.items) };
}

impl Panel {
    /// Returns the panel of `members`, or None if they are not increasing.
    pub fn new(members: Vec<usize>) -> Option<Panel>
        ensures { result ≡ (if is_increasing members.items then Some members.items else None) }
    {
        if are_increasing(&members) {
            Some(Panel { members })
        } else {
            None
        }
    }

    /// Returns the numbers of the members, increasing.
    pub fn members(&self) -> &[usize]
        ensures value { result.now ≡ self.now }
        ensures increasing { IsTrue (is_increasing self.now) }
    {
        &self.members
    }

    /// Returns an equal panel.
    pub fn copy(&self) -> Result<Panel, AllocError>
        ensures { IfOk result (λ copied. copied ≡ self.now) }
    {
        Ok(Panel {
            members: self.members.clone()?,
        })
    }
}

fn are_increasing(members: &[usize]) -> bool
    ensures { result ≡ is_increasing members.now }
{
    for i in 1..members.len() {
        if members[i] <= members[i - 1] {
            return false;
        }
    }
    true
}
