//! Lines, answered one after another.
ghost use Rattle.std.specs.Prelude.{◌≡◌, ◌++◌, ◌+◌, List, ℕ, OnOk, OnErr, Ok, true, length};
ghost use Rattle.kb_codec.specs.Senders.{is_callers, is_text};
ghost use Rattle.kb_desk.specs.Lanes.{lane_of};
ghost use Rattle.kb_lane.specs.Reading.{asked_account};
ghost use Rattle.kb_apply.specs.LaneRuns.{outside_of, Answers, AnswersPart, IsShownAt, Serves, ServesCommand};
ghost use Rattle.kb_json.specs.Callers.{IsCallers};

use crate::addressed::{account_of, lanes_of, place_of};
use crate::lanes::Lanes;
use kb_base::NoMemory;
use kb_book::{LaneReply, Query, Unprepared};
use kb_codec::Command;
use kb_days::Day;
use kb_disk::Disk;
use kb_gateway::Gateway;
use kb_json::{Request, RequestFault, Said, What, read_request, tell};
use kb_lane::account_asked;
use kb_ports::{Clock, day_or_today};
use kb_runs::LineMachine;
use std::alloc::Global;

impl<D: Disk, G: Gateway + Drop, C: Clock + Drop> LineMachine for Lanes<D, G, C> {
    ghost use Rattle.kb_apply.specs.LaneRuns.{lanes_machine, outside_of};

    ghost machine = { lanes_machine (outside_of D.told G.told C.day) };

    fn answer(&mut self, alloc: Global, line: &[u8], said: &mut Vec<u8>) -> Result<(), NoMemory> {
        match read_request(alloc, line, true) {
            Ok(request) => self.serve(alloc, &request, said),
            Err(fault) => tell(alloc, Said::Fault(fault), said),
        }
    }
}

impl<D: Disk, G: Gateway + Drop, C: Clock + Drop> Lanes<D, G, C> {
    /// Does what a request asks for, says what came of it, and drains the lanes that it is on.
    fn serve(
        &mut self,
        alloc: Global,
        request: &Request,
        said: &mut Vec<u8>,
    ) -> Result<(), NoMemory>
        requires callers { IsCallers request.now.what }
        ensures ok { OnOk result ((text : List ℕ) × (said.new.items ≡ said.old.items ++ text)
            × Answers (outside_of D.told G.told C.day)
            self.old (Ok request.now) text self.new) }
        ensures err { OnErr result ((part : List ℕ) × (said.new.items ≡ said.old.items ++ part)
            × AnswersPart (outside_of D.told G.told
            C.day) self.old (Ok request.now) part self.new) }
    {
        let today = day_or_today(&self.clock, request.today);
        let count = self.count();
        let (first, some) = lanes_of(&request.what, count);
        let spoken = self.reply_to(alloc, today, &request.what);
        match tell(alloc, spoken, said) {
            Ok(()) => self.drain_from(alloc, today, first, some),
            Err(fault) => Err(fault),
        }
    }

    /// Does what is asked for, and gives what is to be said.
    fn reply_to(&mut self, alloc: Global, today: Day, what: &What) -> Said
        requires callers { IsCallers what.now }
        ensures served { Serves (outside_of D.told G.told C.day) today what.now self.old
            self.new result }
        ensures count { length self.new.lanes ≡ length self.old.lanes }
    {
        match what {
            What::Command(command) => Said::Reply(self.perform(alloc, today, command)),
            What::Query(query) => self.show(alloc, today, query),
            What::Janitor => Said::Janitor(self.look_up_all(alloc, today)),
        }
    }

    /// Performs a command: on the lane of its account, or, if it is a text, on all lanes.
    fn perform(&mut self, alloc: Global, today: Day, command: &Command) -> LaneReply
        requires callers { is_callers command.now ≡ true }
        ensures served { ServesCommand (outside_of D.told G.told C.day) today
            command.now (is_text command.now) self.old self.new result }
        ensures count { length self.new.lanes ≡ length self.old.lanes }
    {
        match account_of(command) {
            Some(account) => {
                let count = self.count();
                let place = place_of(account, count);
                self.perform_at(alloc, today, command, place)
            }
            None => self.perform_on_all(alloc, today, command),
        }
    }

    /// What a query is answered by the lane of its account.
    fn show(&self, alloc: Global, today: Day, query: &Query) -> Said
        ensures { IsShownAt today query.now (lane_of (asked_account query.now) (length self.now.lanes))
            self.now.lanes result }
    {
        let count = self.count();
        let place = place_of(account_asked(query), count);
        match self.lanes[place].read(alloc, today, query) {
            Ok(view) => Said::View(view),
            Err(Unprepared::Refused(refusal)) => Said::Refused(refusal),
            Err(Unprepared::NoMemory) => Said::Fault(RequestFault::NoMemory),
        }
    }
}
