//! A gateway over a link.
//!
//! | State | A call |
//! |---|---|
//! | open | writes its line and reads the line that answers it; if it fails, the exchanges have ended |
//! | ended | writes and reads nothing, and fails |
//!
//! What always holds:
//!
//! 1. While the gateway is open, each line that was written was answered by one line, which was read whole.
//!    So what is read next was sent in answer to what is written next, by a peer that answers each line once.
//! 2. A call that fails leaves it open what the peer has yet to send. No later call reads that, so an answer
//!    that comes late is taken for that of no other order.
//!
//! The gateway doesn't connect anew, since it has its link from whoever made it. A program that is started
//! again connects anew, and asks what became of the orders that were left open.
ghost use Rattle.std.specs.Prelude.{◌≡◌, ◌≤◌, ◌⊎◌, IsErr, IsTrue, is_err, IfOk, OnOk, OnErr, None, true};
ghost use Rattle.std.specs.Io.KnownBytes.{Appends, Consumes};
ghost use Rattle.kb_base.specs.Faults.{HasCause, Rose, next_count};
ghost use Rattle.kb_ports.specs.Notes.{Notes};
ghost use Rattle.kb_gateway.specs.Answers.{said_of_ask, said_of_look_up};
ghost use Rattle.kb_gateway.specs.GatewayLines.{ask_line, look_line, told_line, seen_line};
ghost use Rattle.kb_gateway.specs.Exchanges.{line_told, new_value, orders_untold, WritesPart, ReadsFew, HasNoAnswer};

use crate::exchange::{ask_over, look_up_over};
use crate::gateway::Gateway;
use crate::order::Order;
use crate::told::{Seen, Told};
use kb_base::{Failed, FaultCount};
use kb_ports::Link;
use std::marker::Model;

/// A gateway that is asked over a link. A call makes at most ten reads, so a peer that sends byte by byte
/// keeps it waiting for no longer than ten times a link's patience.
#[derive(Drop)]
pub struct LineGateway<L: Link> {
    link: L,
    ended: bool,
    faults: FaultCount,
}

impl<L: Link> Model for LineGateway<L> {
    ghost use Rattle.kb_gateway.specs.Exchanges.{LineValue};

    ghost Value = { LineValue L };

    ghost view = { λ gateway. record {
      link = gateway.link;
      ended = gateway.ended;
      faults = gateway.faults;
    } };
}

impl<L: Link> LineGateway<L> {
    /// A gateway over this link, which nothing was asked yet.
    pub fn new(link: L) -> LineGateway<L>
        ensures { result ≡ new_value link }
    {
        LineGateway {
            link,
            ended: false,
            faults: FaultCount::new(),
        }
    }

    /// The link as it is.
    pub fn into_link(self) -> L
        ensures { result ≡ self.link }
    {
        self.link
    }

    /// How many calls have failed.
    pub fn faults(&self) -> u64
        ensures { result ≡ self.now.faults }
    {
        self.faults.number()
    }

    /// Ends the exchanges, and counts a call that failed.
    fn fail(&mut self) -> Failed
        ensures ended { self.new.ended ≡ true }
        ensures counted { self.new.faults ≡ next_count self.old.faults }
        ensures link { self.new.link ≡ self.old.link }
        ensures rose { Rose self.old.faults self.new.faults }
        ensures rising { self.old.faults ≤ self.new.faults }
    {
        self.ended = true;
        self.faults.fail()
    }
}

impl<L: Link> Gateway for LineGateway<L> {
    ghost told = { line_told };

    /// Asks for the order by a line, and reads the answer. It fails where an earlier call has failed, where
    /// the link fails, and where another line than an answer comes, or none.
    fn ask(&mut self, order: &Order) -> Result<Told, Failed>
        ensures asked { Notes orders_untold order.now orders_untold }
        ensures said { Notes None (said_of_ask order.now result) None }
        ensures cause { HasCause self.old.faults self.new.faults result }
        ensures calm { OnOk result (self.new.faults ≡ self.old.faults) }
        ensures rising { self.old.faults ≤ self.new.faults }
        ensures sent { OnOk result (Appends (L.written self.old.link) (L.written self.new.link)
            (ask_line order.now)) }
        ensures part { WritesPart (L.written self.old.link) (L.written self.new.link) (ask_line order.now) }
        ensures told { IfOk result (λ told.
            Consumes (L.left self.old.link) (L.left self.new.link) (told_line told)) }
        ensures few { ReadsFew (L.left self.old.link) (L.left self.new.link) }
        ensures failed { OnErr result (IsTrue self.old.ended
            ⊎ Rose (L.output_faults self.old.link) (L.output_faults self.new.link)
            ⊎ Rose (L.input_faults self.old.link) (L.input_faults self.new.link)
            ⊎ HasNoAnswer told_line (L.left self.old.link)) }
        ensures over { IsTrue self.old.ended → IsErr result × (self.new.link ≡ self.old.link) }
        ensures ended { self.new.ended ≡ is_err result }
        ensures counted { OnErr result (self.new.faults ≡ next_count self.old.faults) }
        ensures output_calm { OnOk result (L.output_faults self.new.link ≡ L.output_faults self.old.link) }
        ensures input_calm { OnOk result (L.input_faults self.new.link ≡ L.input_faults self.old.link) }
    {
        if self.ended {
            return Err(self.fail());
        }
        match ask_over(&mut self.link, order) {
            Ok(told) => Ok(told),
            Err(_) => Err(self.fail()),
        }
    }

    /// Asks by a line what became of the order, and reads the answer. It fails where an earlier call has
    /// failed, where the link fails, and where another line than an answer comes, or none.
    fn look_up(&mut self, order: &Order) -> Result<Seen, Failed>
        ensures asked { orders_untold ≡ orders_untold }
        ensures said { Notes None (said_of_look_up order.now result) None }
        ensures cause { HasCause self.old.faults self.new.faults result }
        ensures calm { OnOk result (self.new.faults ≡ self.old.faults) }
        ensures rising { self.old.faults ≤ self.new.faults }
        ensures sent { OnOk result (Appends (L.written self.old.link) (L.written self.new.link)
            (look_line order.now)) }
        ensures part { WritesPart (L.written self.old.link) (L.written self.new.link) (look_line order.now) }
        ensures seen { IfOk result (λ seen.
            Consumes (L.left self.old.link) (L.left self.new.link) (seen_line seen)) }
        ensures few { ReadsFew (L.left self.old.link) (L.left self.new.link) }
        ensures failed { OnErr result (IsTrue self.old.ended
            ⊎ Rose (L.output_faults self.old.link) (L.output_faults self.new.link)
            ⊎ Rose (L.input_faults self.old.link) (L.input_faults self.new.link)
            ⊎ HasNoAnswer seen_line (L.left self.old.link)) }
        ensures over { IsTrue self.old.ended → IsErr result × (self.new.link ≡ self.old.link) }
        ensures ended { self.new.ended ≡ is_err result }
        ensures counted { OnErr result (self.new.faults ≡ next_count self.old.faults) }
        ensures output_calm { OnOk result (L.output_faults self.new.link ≡ L.output_faults self.old.link) }
        ensures input_calm { OnOk result (L.input_faults self.new.link ≡ L.input_faults self.old.link) }
    {
        if self.ended {
            return Err(self.fail());
        }
        match look_up_over(&mut self.link, order) {
            Ok(seen) => Ok(seen),
            Err(_) => Err(self.fail()),
        }
    }
}
