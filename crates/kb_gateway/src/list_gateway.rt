//! A gateway in memory.
ghost use Rattle.std.specs.Prelude.{◌≡◌, ◌≤◌, ◌↔◌, drop, option_map, [], None, IsErr, IsOk, IsSome};
ghost use Rattle.std.specs.Prelude.{IsTrue, IfOk};
ghost use Rattle.std.specs.Prelude.{◌⊎◌, OnErr, OnOk};
ghost use Rattle.kb_base.specs.Faults.{next_count, HasCause};
ghost use Rattle.kb_ports.specs.Memory.{fails_next};
ghost use Rattle.kb_ports.specs.Notes.{Notes};
ghost use Rattle.kb_gateway.specs.Answers.{said_of_ask, said_of_look_up};
ghost use Rattle.kb_gateway.specs.ListGateways.{begun, list_told, new_gateway, next_told, next_seen};

use crate::gateway::Gateway;
use crate::order::Order;
use crate::told::{Call, Heard, Saying, Seen, Told};
use kb_base::Failed;
use kb_ports::Calls;
use std::alloc::Global;
use std::marker::Model;

/// A gateway in memory: the answers that it gives, with the numbers of the calls that are to fail, and all
/// that it was asked and said. Once memory runs out for a note, it fails from then on, and doesn't tell that
/// list any more.
pub struct ListGateway {
    told: Vec<Told>,
    /// How many of the answers to orders were given.
    asks: usize,
    seen: Vec<Seen>,
    /// How many of the answers to look-ups were given.
    looks: usize,
    calls: Calls,
    asked: Option<Vec<Order>>,
    said: Option<Vec<Saying>>,
}

impl Model for ListGateway {
    ghost use Rattle.std.specs.Prelude.{◌≤◌, length, drop, option_map};
    ghost use Rattle.kb_gateway.specs.ListGateways.{GatewayValue};

    ghost Value = { GatewayValue };

    ghost view = { λ gateway. record {
      told = drop gateway.asks gateway.told.items;
      seen = drop gateway.looks gateway.seen.items;
      failing = gateway.calls.failing.items;
      calls = gateway.calls.made;
      faults = gateway.calls.faults;
      asked = option_map (λ notes. notes.items) gateway.asked;
      said = option_map (λ notes. notes.items) gateway.said;
    } };

    ghost invariant = { λ gateway. (gateway.asks ≤ length gateway.told.items)
        × (gateway.looks ≤ length gateway.seen.items) };
}

impl Drop for ListGateway {
    /// Drops its lists. No crate above has to show again how that is dropped.
    fn drop(self) {
        let ListGateway {
            told: _told,
            asks: _asks,
            seen: _seen,
            looks: _looks,
            calls: _calls,
            asked: _asked,
            said: _said,
        } = self;
    }
}

impl ListGateway {
    /// A gateway that answers orders with `told`, one after another, and then that it can't say; and look-ups
    /// with `seen`, and then that it never saw the order. The calls of the numbers `failing`, counted from 1,
    /// fail.
    pub fn new(alloc: Global, told: Vec<Told>, seen: Vec<Seen>, failing: Vec<u64>) -> ListGateway
        ensures { result ≡ new_gateway told.items seen.items failing.items }
    {
        ListGateway {
            told,
            asks: 0,
            seen,
            looks: 0,
            calls: Calls::new(failing),
            asked: Some(Vec::new(alloc)),
            said: Some(Vec::new(alloc)),
        }
    }

    /// The orders that were asked, failed ones too; none once a note found no memory.
    pub fn asked(&self) -> Option<&[Order]>
        ensures { option_map (λ asked. asked.now) result ≡ self.now.asked }
    {
        match &self.asked {
            Some(asked) => Some(asked.as_slice()),
            None => None,
        }
    }

    /// What was said at each call, failed ones too; none once a note found no memory.
    pub fn said(&self) -> Option<&[Saying]>
        ensures { option_map (λ said. said.now) result ≡ self.now.said }
    {
        match &self.said {
            Some(said) => Some(said.as_slice()),
            None => None,
        }
    }

    /// How many calls have failed.
    pub fn faults(&self) -> u64
        ensures { result ≡ self.now.faults }
    {
        self.calls.faults.number()
    }

    /// Notes that an order is asked.
    fn note_asked(&mut self, order: &Order)
        ensures noted { Notes self.old.asked order.now self.new.asked }
        ensures others { self.new ≡ record self.old { asked = self.new.asked } }
    {
        note(&mut self.asked, *order);
    }

    /// Tells no more what was asked and said so far.
    pub(crate) fn begin(&mut self)
        ensures { self.new ≡ begun self.old }
    {
        clear(&mut self.asked);
        clear(&mut self.said);
    }

    /// Notes what was heard at a call.
    fn note_said(&mut self, order: &Order, call: Call, heard: Heard)
        ensures noted { Notes self.old.said
            (record { account = order.now.account; key = order.now.key; call = call; heard = heard })
            self.new.said }
        ensures others { self.new ≡ record self.old { said = self.new.said } }
    {
        let saying = Saying {
            account: order.account,
            key: order.key,
            call,
            heard,
        };
        note(&mut self.said, saying);
    }

    /// The next answer to an order, unless this call is to fail.
    fn next_told(&mut self) -> Result<Told, Failed>
        ensures fails { IsErr result ↔ IsTrue (fails_next self.old.failing self.old.calls) }
        ensures told { IfOk result (λ told. told ≡ next_told self.old.told) }
        ensures ok { OnOk result (self.new ≡ record self.old {
          told = drop 1 self.old.told;
          calls = next_count self.old.calls;
        }) }
        ensures err { OnErr result (self.new ≡ record self.old {
          calls = next_count self.old.calls;
          faults = next_count self.old.faults;
        }) }
        ensures rising { self.old.faults ≤ self.new.faults }
    {
        self.calls.begin()?;
        match self.told.get(self.asks) {
            Some(told) => {
                self.asks += 1;
                Ok(*told)
            }
            None => Ok(Told::Undefined),
        }
    }

    /// The next answer to a look-up, unless this call is to fail.
    fn next_seen(&mut self) -> Result<Seen, Failed>
        ensures fails { IsErr result ↔ IsTrue (fails_next self.old.failing self.old.calls) }
        ensures seen { IfOk result (λ seen. seen ≡ next_seen self.old.seen) }
        ensures ok { OnOk result (self.new ≡ record self.old {
          seen = drop 1 self.old.seen;
          calls = next_count self.old.calls;
        }) }
        ensures err { OnErr result (self.new ≡ record self.old {
          calls = next_count self.old.calls;
          faults = next_count self.old.faults;
        }) }
        ensures rising { self.old.faults ≤ self.new.faults }
    {
        self.calls.begin()?;
        match self.seen.get(self.looks) {
            Some(seen) => {
                self.looks += 1;
                Ok(*seen)
            }
            None => Ok(Seen::NotSeen),
        }
    }

    /// A fault, once a note found no memory: what was said is told no more.
    fn check_noted(&mut self) -> Result<(), Failed>
        ensures lost { IsOk result ↔ (IsSome self.old.asked × IsSome self.old.said) }
        ensures ok { OnOk result (self.new ≡ self.old) }
        ensures err { OnErr result (self.new ≡ record self.old {
          said = None;
          faults = next_count self.old.faults;
        }) }
        ensures rising { self.old.faults ≤ self.new.faults }
    {
        if self.asked.is_some() && self.said.is_some() {
            return Ok(());
        }
        self.said = None;
        Err(self.calls.fault())
    }
}

/// Adds a note to some, which are told no more once there is no memory for it.
fn note<T>(notes: &mut Option<Vec<T>>, note: T)
where
    T: Drop,
    ensures { Notes (option_map (λ all. all.items) notes.old) note (option_map (λ all. all.items) notes.new) }
{
    let is_lost = match notes {
        Some(all) => all.push(note).is_err(),
        None => false,
    };
    if is_lost {
        *notes = None;
    }
}

/// Takes all notes away, if there are any.
fn clear<T>(notes: &mut Option<Vec<T>>)
where
    T: Drop,
    ensures { option_map (λ all. all.items) notes.new ≡ option_map (λ all. []) notes.old }
{
    match notes {
        Some(all) => all.clear(),
        None => {}
    }
}

impl Gateway for ListGateway {
    ghost told = { list_told };

    /// Gives the next answer to an order. It fails too from the call on for whose note memory ran out.
    fn ask(&mut self, order: &Order) -> Result<Told, Failed>
        ensures asked { Notes self.old.asked order.now self.new.asked }
        ensures kept { OnOk result (IsSome self.new.asked × IsSome self.new.said) }
        ensures said { Notes self.old.said (said_of_ask order.now result) self.new.said }
        ensures cause { HasCause self.old.faults self.new.faults result }
        ensures calm { OnOk result (self.new.faults ≡ self.old.faults) }
        ensures rising { self.old.faults ≤ self.new.faults }
        ensures fails { IsTrue (fails_next self.old.failing self.old.calls) → IsErr result }
        ensures failed { OnErr result (IsTrue (fails_next self.old.failing self.old.calls)
            ⊎ (self.new.said ≡ None)) }
        ensures told { IfOk result (λ told. told ≡ next_told self.old.told) }
        ensures left { OnOk result (self.new ≡ record self.old {
          told = drop 1 self.old.told;
          calls = next_count self.old.calls;
          asked = self.new.asked;
          said = self.new.said;
        }) }
    {
        self.note_asked(order);
        let answer = self.next_told();
        let heard = match answer {
            Ok(told) => Heard::Told(told),
            Err(_) => Heard::Failed,
        };
        self.note_said(order, Call::Ask, heard);
        self.check_noted()?;
        answer
    }

    /// Gives the next answer to a look-up. It fails too from the call on for whose note memory ran out.
    fn look_up(&mut self, order: &Order) -> Result<Seen, Failed>
        ensures asked { self.new.asked ≡ self.old.asked }
        ensures kept { OnOk result (IsSome self.new.asked × IsSome self.new.said) }
        ensures said { Notes self.old.said (said_of_look_up order.now result) self.new.said }
        ensures cause { HasCause self.old.faults self.new.faults result }
        ensures calm { OnOk result (self.new.faults ≡ self.old.faults) }
        ensures rising { self.old.faults ≤ self.new.faults }
        ensures fails { IsTrue (fails_next self.old.failing self.old.calls) → IsErr result }
        ensures failed { OnErr result (IsTrue (fails_next self.old.failing self.old.calls)
            ⊎ (self.new.said ≡ None)) }
        ensures seen { IfOk result (λ seen. seen ≡ next_seen self.old.seen) }
        ensures left { OnOk result (self.new ≡ record self.old {
          seen = drop 1 self.old.seen;
          calls = next_count self.old.calls;
          said = self.new.said;
        }) }
    {
        let answer = self.next_seen();
        let heard = match answer {
            Ok(Seen::Told(told)) => Heard::Told(told),
            Ok(Seen::NotSeen) => Heard::NotSeen,
            Err(_) => Heard::Failed,
        };
        self.note_said(order, Call::LookUp, heard);
        self.check_noted()?;
        answer
    }
}
