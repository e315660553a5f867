//! A door in memory, for tests.
ghost use Rattle.std.specs.Prelude.{◌≡◌, ◌≤◌, length, drop, is_err, None, Some, IfOk, OnErr, OnOk};
ghost use Rattle.outside.specs.Faults.{Rose};
ghost use Rattle.outside.specs.Memory.{next_fails, no_calls};
ghost use Rattle.outside.specs.Links.{IsOneOut, after_back, after_next, door_after_back, door_after_listen, door_after_next, first_of, none_given};

use crate::calls::CallPlan;
use crate::{Door, Failed, MemLink};
use std::alloc::{AllocError, Global};
use std::collections::VecDeque;
use std::marker::Model;

/// Links in memory, with a list of the calls that are to fail. Contracts speak of the links that are still to come, of how many were given,
/// of those that were given back, and of the port. The memory for those that are given back is allocated when the door is made.
#[derive(Drop)]
pub struct MemDoor {
    coming: VecDeque<MemLink>,
    total: usize,
    back: Vec<MemLink>,
    port: Option<u16>,
    calls: CallPlan,
}

impl Model for MemDoor {
    ghost use Rattle.std.specs.Prelude.{◌-◌, ◌≤◌, length, vec_capacity};
    ghost use Rattle.outside.specs.Links.{DoorState};

    ghost Value = { DoorState };

    ghost view = { λ d. record {
      links = record {
        coming = d.coming.items;
        given = d.total - length d.coming.items;
        back = d.back.items;
      };
      port = d.port;
      calls = d.calls;
    } };

    ghost invariant = { λ d. (length d.coming.items ≤ d.total) × (d.total ≤ vec_capacity d.back) };
}

impl MemDoor {
    /// Returns a door through which `links` will come. The calls of `listen` and `next` whose numbers are in `failing` will fail. They are
    /// counted together, from 1; calls of `back` aren't counted.
    pub fn new(alloc: Global, links: Vec<MemLink>, failing: &[u64]) -> Result<MemDoor, AllocError>
        ensures links { IfOk result (λ door. door.links ≡ none_given links.items) }
        ensures calls { IfOk result (λ door. door.calls ≡ no_calls failing.now) }
        ensures shut { IfOk result (λ door. door.port ≡ None) }
    {
        let total = links.len();
        let back = Vec::with_capacity(alloc, total)?;
        let calls = CallPlan::new(alloc, failing)?;
        Ok(MemDoor {
            coming: VecDeque::from(links),
            total,
            back,
            port: None,
            calls,
        })
    }

    /// Returns how many links are still to come.
    pub fn coming(&self) -> usize
        ensures { result ≡ length self.now.links.coming }
    {
        self.coming.len()
    }

    /// Returns the links that were given back, in the order of their return.
    pub fn given_back(&self) -> &[MemLink]
        ensures { result.now ≡ self.now.links.back }
    {
        self.back.as_slice()
    }

    /// Returns the port at which the door listens, if it does.
    pub fn port(&self) -> Option<u16>
        ensures { result ≡ self.now.port }
    {
        self.port
    }

    /// Returns how many calls have failed.
    pub fn faults(&self) -> u64
        ensures { result ≡ self.now.calls.faults }
    {
        self.calls.faults()
    }
}

impl Door for MemDoor {
    type Link = MemLink;

    ghost links = { λ d. Some d.links };

    ghost opened_at = { λ d. d.port };

    ghost calls = { λ _. None };

    ghost faults = { λ d. d.calls.faults };

    fn listen(&mut self, port: u16) -> Result<(), Failed>
        ensures port { OnOk result (self.new.port ≡ Some port) }
        ensures shut { OnErr result (self.new.port ≡ self.old.port) }
        ensures same { Some self.new.links ≡ Some self.old.links }
        ensures never_falls { self.old.calls.faults ≤ self.new.calls.faults }
        ensures cause { OnErr result (Rose self.old.calls.faults self.new.calls.faults) }
        ensures none { OnOk result (self.new.calls.faults ≡ self.old.calls.faults) }

        // What a call does, exactly.
        ensures failed { is_err result ≡ next_fails self.old.calls }
        ensures state { self.new ≡ door_after_listen self.old port }
    {
        let is_fault = self.calls.next_fails();
        self.calls.count(is_fault);
        if is_fault {
            return Err(Failed);
        }
        self.port = Some(port);
        Ok(())
    }

    fn next(&mut self) -> Result<Option<MemLink>, Failed>
        ensures first { IfOk result (λ link. link ≡ first_of self.old.links.coming) }
        ensures given { OnOk result (Some self.new.links ≡ Some (after_next self.old.links)) }
        ensures same { OnErr result (Some self.new.links ≡ Some self.old.links) }
        ensures stays { self.new.port ≡ self.old.port }
        ensures never_falls { self.old.calls.faults ≤ self.new.calls.faults }
        ensures cause { OnErr result (Rose self.old.calls.faults self.new.calls.faults) }
        ensures none { OnOk result (self.new.calls.faults ≡ self.old.calls.faults) }

        // What a call does, exactly.
        ensures failed { is_err result ≡ next_fails self.old.calls }
        ensures state { self.new ≡ door_after_next self.old }
    {
        let is_fault = self.calls.next_fails();
        self.calls.count(is_fault);
        if is_fault {
            return Err(Failed);
        }
        Ok(take_first(&mut self.coming))
    }

    fn back(&mut self, link: MemLink)
        requires { IsOneOut (Some self.old.links) }
        ensures last { Some self.new.links ≡ Some (after_back self.old.links link) }
        ensures stays { self.new.port ≡ self.old.port }
        ensures none { self.new.calls.faults ≡ self.old.calls.faults }

        // What the call does, exactly.
        ensures state { self.new ≡ door_after_back self.old link }
    {
        self.back.push(link).unwrap();
    }
}

// Takes the first link off the queue, if there is one.
fn take_first(coming: &mut VecDeque<MemLink>) -> Option<MemLink>
    ensures first { result ≡ first_of coming.old.items }
    ensures rest { coming.new.items ≡ drop 1 coming.old.items }
{
    coming.pop_front()
}
