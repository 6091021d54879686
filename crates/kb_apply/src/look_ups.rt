//! Payments whose outcome isn't known, looked up by all lanes.
ghost use Rattle.std.specs.Prelude.{◌≡◌, ◌<◌, length};
ghost use Rattle.kb_apply.specs.LaneRuns.{outside_of, LookUpFrom, LooksUpAt};

use crate::lanes::Lanes;
use kb_book::Step;
use kb_days::Day;
use kb_desk::{is_full_step, look_up_in};
use kb_disk::Disk;
use kb_gateway::Gateway;
use kb_ports::Clock;
use std::alloc::Global;

impl<D: Disk, G: Gateway + Drop, C: Clock + Drop> Lanes<D, G, C> {
    /// Has the lanes look their open payments up, in order, up to the first that isn't done with it, and
    /// gives the last step.
    pub(crate) fn look_up_all(&mut self, alloc: Global, today: Day) -> Step
        ensures looked { LookUpFrom (outside_of D.told G.told C.day) today 0
            (length self.old.lanes) self.old self.new result }
        ensures count { length self.new.lanes ≡ length self.old.lanes }
    {
        let count = self.count();
        for place in 0..count {
            match self.look_up_at(alloc, today, place) {
                Step::Done => {}
                step => return step,
            }
        }
        Step::Done
    }

    /// Has the lane at a place look its open payments up.
    fn look_up_at(&mut self, alloc: Global, today: Day, place: usize) -> Step
        requires within { place < length self.old.lanes }
        ensures looked { LooksUpAt (outside_of D.told G.told C.day) today place
            self.old self.new result }
        ensures count { length self.new.lanes ≡ length self.old.lanes }
    {
        let step = look_up_in(&mut self.lanes, alloc, today, place);
        self.full |= is_full_step(step);
        step
    }
}
