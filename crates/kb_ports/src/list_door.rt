//! A door in memory.
ghost use Rattle.std.specs.Prelude.{◌≡◌, ◌≤◌, ◌<◌, ◌+◌, [], ◌∷◌, ◌++◌, length, take, ◌↔◌};
ghost use Rattle.std.specs.Prelude.{Some, IsErr, IsTrue, IfOk, OnErr, OnOk};
ghost use Rattle.kb_base.specs.Faults.{next_count, HasCause};
ghost use Rattle.kb_ports.specs.Memory.{fails_next};
ghost use Rattle.kb_ports.specs.Doors.{Gets, Stays, HandsOut, count_after, new_door};

use crate::calls::Calls;
use crate::door::Door;
use crate::pair_link::PairLink;
use kb_base::{Failed, NoMemory};
use std::alloc::Global;
use std::collections::VecDeque;
use std::marker::Model;

/// Links in memory, handed out one after another, with the numbers of the calls that are to fail. A call for
/// a link fails too once none is left, and where memory runs out for its notes.
#[derive(Drop)]
pub struct ListDoor {
    alloc: Global,
    waiting: VecDeque<PairLink>,
    handed_out: Vec<PairLink>,
    /// It has room for each link that was handed out.
    given_back: Vec<PairLink>,
    calls: Calls,
}

impl Model for ListDoor {
    ghost use Rattle.std.specs.Prelude.{◌≤◌, vec_len, vec_capacity};
    ghost use Rattle.std.specs.VecDeque.{deque_items};
    ghost use Rattle.kb_ports.specs.Pairs.{PairValue};
    ghost use Rattle.kb_ports.specs.Doors.{DoorValue};

    ghost Value = { DoorValue PairValue };

    ghost view = { λ door. record {
      waiting = deque_items door.waiting;
      handed_out = door.handed_out.items;
      given_back = door.given_back.items;
      failing = door.calls.failing.items;
      calls = door.calls.made;
      faults = door.calls.faults;
    } };

    ghost invariant = { λ door. vec_len door.handed_out ≤ vec_capacity door.given_back };
}

impl ListDoor {
    /// A door where these links wait. The calls of the numbers `failing`, counted from 1, fail.
    pub fn new(alloc: Global, links: Vec<PairLink>, failing: Vec<u64>) -> ListDoor
        ensures { result ≡ new_door links.items failing.items }
    {
        ListDoor {
            alloc,
            waiting: VecDeque::from(links),
            handed_out: Vec::new(alloc),
            given_back: Vec::new(alloc),
            calls: Calls::new(failing),
        }
    }

    /// The links that were handed out, each as it was then.
    pub fn handed_out(&self) -> &[PairLink]
        ensures { result.now ≡ self.now.handed_out }
    {
        &self.handed_out
    }

    /// The links that were given back, each as it was then.
    pub fn given_back(&self) -> &[PairLink]
        ensures { result.now ≡ self.now.given_back }
    {
        &self.given_back
    }

    /// How many calls have failed.
    pub fn faults(&self) -> u64
        ensures { result ≡ self.now.faults }
    {
        self.calls.faults.number()
    }

    /// Notes that a link is handed out, and takes the room to note that it comes back.
    fn note(&mut self, link: PairLink) -> Result<(), NoMemory>
        ensures ok { OnOk result (self.new ≡ record self.old {
          handed_out = self.old.handed_out ++ link ∷ [];
        }) }
        ensures err { OnErr result (self.new ≡ self.old) }
    {
        let room = (self.handed_out.len() + 1).saturating_sub(self.given_back.len());
        self.given_back.reserve(room)?;
        self.handed_out.push(link)?;
        Ok(())
    }

    /// Notes that the next link is handed out.
    fn note_next(&mut self) -> Result<(), NoMemory>
        ensures ok { OnOk result (self.new ≡ record self.old { handed_out = self.new.handed_out }) }
        ensures next { OnOk result (self.new.handed_out ≡ self.old.handed_out ++ take 1 self.old.waiting) }
        ensures err { OnErr result (self.new ≡ self.old) }
    {
        match self.waiting.front() {
            None => Ok(()),
            Some(link) => {
                let copy = link.copy(self.alloc)?;
                self.note(copy)
            }
        }
    }
}

impl Door for ListDoor {
    type Link = PairLink;

    ghost count_out = { λ door. length door.handed_out };

    ghost count_back = { λ door. length door.given_back };

    ghost handed_out = { λ door. Some door.handed_out };

    ghost given_back = { λ door. Some door.given_back };

    ghost faults = { λ door. door.faults };

    /// Only counts the call.
    fn listen(&mut self, port: u16) -> Result<(), Failed>
        ensures cause { HasCause self.old.faults self.new.faults result }
        ensures calm { OnOk result (self.new.faults ≡ self.old.faults) }
        ensures rising { self.old.faults ≤ self.new.faults }
        ensures out { length self.new.handed_out ≡ length self.old.handed_out }
        ensures returned { length self.new.given_back ≡ length self.old.given_back }
        ensures same_out { Stays (Some self.old.handed_out) (Some self.new.handed_out) }
        ensures same_back { Stays (Some self.old.given_back) (Some self.new.given_back) }
        ensures fails { IsErr result ↔ IsTrue (fails_next self.old.failing self.old.calls) }
        ensures waiting { self.new.waiting ≡ self.old.waiting }
    {
        self.calls.begin()
    }

    /// Hands out the next link that waits.
    fn accept(&mut self) -> Result<PairLink, Failed>
        ensures cause { HasCause self.old.faults self.new.faults result }
        ensures calm { OnOk result (self.new.faults ≡ self.old.faults) }
        ensures rising { self.old.faults ≤ self.new.faults }
        ensures out { length self.new.handed_out ≡ count_after (length self.old.handed_out) result }
        ensures returned { length self.new.given_back ≡ length self.old.given_back }
        ensures noted { HandsOut (Some self.old.handed_out) (Some self.new.handed_out) result }
        ensures same_back { Stays (Some self.old.given_back) (Some self.new.given_back) }
        ensures fails { IsTrue (fails_next self.old.failing self.old.calls) → IsErr result }
        ensures next { IfOk result (λ link. self.old.waiting ≡ link ∷ self.new.waiting) }
        ensures kept { OnErr result (self.new.waiting ≡ self.old.waiting) }
        ensures counted { self.new.calls ≡ next_count self.old.calls }
    {
        self.calls.begin()?;
        if self.waiting.is_empty() || self.note_next().is_err() {
            return Err(self.calls.fault());
        }
        match self.waiting.pop_front() {
            Some(link) => Ok(link),
            None => unreachable!(),
        }
    }

    fn back(&mut self, link: PairLink)
        requires { length self.old.given_back < length self.old.handed_out }
        ensures calm { self.new.faults ≡ self.old.faults }
        ensures out { length self.new.handed_out ≡ length self.old.handed_out }
        ensures returned { length self.new.given_back ≡ length self.old.given_back + 1 }
        ensures same_out { Stays (Some self.old.handed_out) (Some self.new.handed_out) }
        ensures noted { Gets (Some self.old.given_back) (Some self.new.given_back) link }
        ensures waiting { self.new.waiting ≡ self.old.waiting }
    {
        let Ok(()) = self.given_back.push(link) else {
            unreachable!();
        };
    }
}
