//! All that an account is.
ghost use Rattle.std.specs.Prelude.{◌≡◌, IfOk};
ghost use Rattle.kb_book.specs.Dues.{facts_of};
ghost use Rattle.kb_account.specs.Private.States.{value_of};
ghost use Rattle.kb_account.specs.Private.Begins.{begun_of, IsBegun};

use crate::begun::{Begun, Move};
use crate::kept::Kept;
use crate::world::World;
use kb_base::NoMemory;
use kb_blocking::Blocks;
use kb_credit::Invoices;
use kb_days::{Bcd, Day, Name};
use kb_due::Facts;
use kb_money::Currency;
use kb_payment::Payments;
use kb_sharing::SharedMap;
use kb_timeline::Timeline;
use kb_tree::SubscriptionCharges;
use std::sync::Arc;

/// All that an account is. What is charged stands for each subscription, in order of creation.
#[derive(Drop)]
pub(crate) struct State {
    pub account: Name,
    pub currency: Currency,
    pub bcd: Bcd,
    pub autopay: bool,
    pub timeline: Arc<Timeline>,
    pub blocks: Arc<Blocks>,
    pub billed: Option<Day>,
    /// What was charged and credited beside subscriptions, in minor units.
    pub beside: i128,
    pub payments: Arc<Payments>,
    pub invoices: Invoices,
    pub charges: Arc<Vec<SubscriptionCharges>>,
    /// The name of the present overdue state. None is CLEAR.
    pub overdue: Option<Name>,
    /// The day of the last overdue transition.
    pub transition: Option<Day>,
    /// How many commands were accepted.
    pub commands: u64,
    /// What is kept of the commands of callers, by their keys.
    pub kept: SharedMap<Name, Kept>,
}

impl State {
    /// What billing looks at.
    pub fn facts<'a>(&'a self, world: &'a World) -> Facts<'a>
        ensures { result ≡ facts_of world.now (value_of self.now) }
    {
        Facts {
            catalog: &world.catalog,
            timeline: &self.timeline,
            blocks: &self.blocks,
            currency: self.currency,
            bcd: self.bcd,
        }
    }

    /// An edit that leaves all as it is.
    pub fn unedited(&self) -> Result<Begun, NoMemory>
        ensures same { IfOk result (λ begun. begun_of (value_of self.now) begun ≡ value_of self.now) }
        ensures sound { IfOk result (λ begun. IsBegun (value_of self.now) begun) }
    {
        Ok(Begun {
            autopay: self.autopay,
            timeline: Arc::try_clone(&self.timeline)?,
            started: false,
            blocks: Arc::try_clone(&self.blocks)?,
            billed: self.billed,
            beside: self.beside,
            payments: Arc::try_clone(&self.payments)?,
            moved: Move {
                invoice: 0,
                amount: 0,
            },
            overdue: self.overdue,
            transition: self.transition,
        })
    }
}
