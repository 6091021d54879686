//! A gateway that takes each payment.
ghost use Rattle.std.specs.Prelude.{◌≡◌, ◌++◌, ◌∷◌, []};
ghost use Rattle.kb_gateway.specs.Answers.{asked_of};
ghost use Rattle.kb_make.specs.Private.Sayings.{paid_told};

use kb_base::{Failed, History};
use kb_gateway::{Asked, Call, Gateway, Order, Seen, Told};
use std::marker::Model;

/// A gateway that takes each payment at once, and never fails. Contracts see it as the calls that it heard,
/// and code sees nothing of them.
#[derive(Drop)]
pub(crate) struct PaidAtOnce {
    heard: History<Asked, Call>,
}

impl Model for PaidAtOnce {
    ghost use Rattle.std.specs.Prelude.{List};
    ghost use Rattle.kb_gateway.specs.declared.order.Asked.{Asked as AnyAsked};
    ghost use Rattle.kb_gateway.specs.declared.told.Call.{Call as AnyCall};

    ghost Value = { List (AnyAsked × AnyCall) };

    ghost view = { λ gateway. gateway.heard };
}

impl PaidAtOnce {
    /// A gateway that was asked for nothing yet.
    pub(crate) fn new() -> PaidAtOnce
        ensures { result ≡ [] }
    {
        PaidAtOnce {
            heard: History::new(),
        }
    }

    /// Notes a call on an order.
    fn note(&mut self, order: &Order, call: Call)
        ensures { self.new ≡ self.old ++ (asked_of order.now, call) ∷ [] }
    {
        let asked = Asked {
            account: order.account,
            key: order.key,
        };
        self.heard.note(&asked, &call);
    }
}

impl Gateway for PaidAtOnce {
    ghost told = { paid_told };

    fn ask(&mut self, order: &Order) -> Result<Told, Failed> {
        self.note(order, Call::Ask);
        Ok(Told::Processed)
    }

    fn look_up(&mut self, order: &Order) -> Result<Seen, Failed> {
        self.note(order, Call::LookUp);
        Ok(Seen::Told(Told::Processed))
    }
}
