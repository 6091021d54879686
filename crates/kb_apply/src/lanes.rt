//! Lanes, beside the clock by which they answer.
ghost use Rattle.std.specs.Prelude.{◌≡◌, ◌≤◌, ◌<◌, true, false, length};
ghost use Rattle.kb_codec.specs.Senders.{is_callers};
ghost use Rattle.kb_apply.specs.LaneRuns.{outside_of, PerformsAt};

use kb_book::LaneReply;
use kb_codec::Command;
use kb_days::Day;
use kb_desk::{is_full_reply, perform_in};
use kb_disk::Disk;
use kb_gateway::Gateway;
use kb_lane::Lane;
use kb_ports::Clock;
use std::alloc::Global;
use std::marker::Model;

/// Lanes, numbered from 0, with the clock that gives the day of a line that names none. There is at least
/// one lane, and there are at most 64.
#[derive(Drop)]
pub struct Lanes<D: Disk, G: Gateway + Drop, C: Clock + Drop> {
    pub(crate) lanes: Vec<Lane<D, G>>,
    pub(crate) clock: C,
    /// Whether a lane had no room for a command.
    pub(crate) full: bool,
}

impl<D: Disk, G: Gateway + Drop, C: Clock + Drop> Model for Lanes<D, G, C> {
    ghost use Rattle.std.specs.Prelude.{◌≤◌, length};
    ghost use Rattle.kb_apply.specs.LaneRuns.{LanesValue};

    ghost Value = { LanesValue D G C };

    ghost view = { λ lanes. record {
      lanes = lanes.lanes.items;
      clock = lanes.clock;
      full = lanes.full;
    } };

    ghost invariant = { λ lanes. (1 ≤ length lanes.lanes.items) × (length lanes.lanes.items ≤ 64) };
}

impl<D: Disk, G: Gateway + Drop, C: Clock + Drop> Lanes<D, G, C> {
    /// These lanes, with this clock. None of them was full yet.
    pub fn new(lanes: Vec<Lane<D, G>>, clock: C) -> Lanes<D, G, C>
        requires some { 1 ≤ length lanes.items }
        requires few { length lanes.items ≤ 64 }
        ensures lanes { result.lanes ≡ lanes.items }
        ensures clock { result.clock ≡ clock }
        ensures full { result.full ≡ false }
    {
        Lanes {
            lanes,
            clock,
            full: false,
        }
    }

    /// The lanes.
    pub fn into_lanes(self) -> Vec<Lane<D, G>>
        ensures { result.items ≡ self.lanes }
    {
        self.lanes
    }

    /// How many lanes there are.
    pub(crate) fn count(&self) -> usize
        ensures count { result ≡ length self.now.lanes }
        ensures some { 1 ≤ result }
        ensures few { result ≤ 64 }
    {
        self.lanes.len()
    }

    /// The lane at a place performs a command.
    pub(crate) fn perform_at(
        &mut self,
        alloc: Global,
        today: Day,
        command: &Command,
        place: usize,
    ) -> LaneReply
        requires callers { is_callers command.now ≡ true }
        requires within { place < length self.old.lanes }
        ensures performed { PerformsAt (outside_of D.told G.told C.day) today command.now place self.old
            self.new result }
        ensures count { length self.new.lanes ≡ length self.old.lanes }
    {
        let reply = perform_in(&mut self.lanes, alloc, today, command, place);
        self.full |= is_full_reply(reply);
        reply
    }
}
