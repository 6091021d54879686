//! Texts, which go to all lanes.
ghost use Rattle.std.specs.Prelude.{◌≡◌, ◌-◌, true, length};
ghost use Rattle.kb_codec.specs.Senders.{is_callers};
ghost use Rattle.kb_apply.specs.LaneRuns.{outside_of, TextFrom};

use crate::lanes::Lanes;
use kb_book::LaneReply;
use kb_codec::Command;
use kb_days::Day;
use kb_desk::is_taken_text;
use kb_disk::Disk;
use kb_gateway::Gateway;
use kb_ports::Clock;
use std::alloc::Global;

impl<D: Disk, G: Gateway + Drop, C: Clock + Drop> Lanes<D, G, C> {
    /// Gives a text to the lanes, in order, up to the first that doesn't take it, and gives the last reply.
    /// A text that reached some lanes alone is finished by sending it again with its key.
    pub(crate) fn perform_on_all(
        &mut self,
        alloc: Global,
        today: Day,
        command: &Command,
    ) -> LaneReply
        requires callers { is_callers command.now ≡ true }
        ensures performed { TextFrom (outside_of D.told G.told C.day) today
            command.now 0 (length self.old.lanes - 1) self.old self.new result }
        ensures count { length self.new.lanes ≡ length self.old.lanes }
    {
        let last = self.count() - 1;
        for place in 0..last {
            let reply = self.perform_at(alloc, today, command, place);
            if !is_taken_text(reply) {
                return reply;
            }
        }
        self.perform_at(alloc, today, command, last)
    }
}
