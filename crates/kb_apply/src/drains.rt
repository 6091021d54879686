//! What a line left to do, done.
ghost use Rattle.std.specs.Prelude.{◌≡◌, ◌≤◌, ◌<◌, ◌+◌, length, OnOk, OnErr};
ghost use Rattle.kb_apply.specs.LaneRuns.{outside_of, DrainFrom, DrainPart, DrainsAt};

use crate::lanes::Lanes;
use kb_base::NoMemory;
use kb_book::Step;
use kb_days::Day;
use kb_desk::{drain_in, is_full_step};
use kb_disk::Disk;
use kb_gateway::Gateway;
use kb_ports::Clock;
use std::alloc::Global;

impl<D: Disk, G: Gateway + Drop, C: Clock + Drop> Lanes<D, G, C> {
    /// Drains so many lanes from a place on, in order. Out of memory, some of them are drained.
    pub(crate) fn drain_from(
        &mut self,
        alloc: Global,
        today: Day,
        first: usize,
        count: usize,
    ) -> Result<(), NoMemory>
        requires within { first + count ≤ length self.old.lanes }
        ensures ok { OnOk result (DrainFrom (outside_of D.told G.told C.day) today first
            count self.old self.new) }
        ensures err { OnErr result (DrainPart (outside_of D.told G.told C.day) today first
            count self.old self.new) }
    {
        let _ = self.count();
        let last = first + count;
        for place in first..last {
            if let Step::NoMemory = self.drain_at(alloc, today, place) {
                return Err(NoMemory);
            }
        }
        Ok(())
    }

    /// Drains the lane at a place.
    fn drain_at(&mut self, alloc: Global, today: Day, place: usize) -> Step
        requires within { place < length self.old.lanes }
        ensures drained { DrainsAt (outside_of D.told G.told C.day) today place
            self.old self.new result }
        ensures count { length self.new.lanes ≡ length self.old.lanes }
    {
        let step = drain_in(&mut self.lanes, alloc, today, place);
        self.full |= is_full_step(step);
        step
    }
}
