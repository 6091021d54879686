//! What an account tells of itself.
ghost use Rattle.std.specs.Prelude.{◌≡◌, Ok, IfOk, IfErr};
ghost use Rattle.kb_book.specs.Rows.{IsUnprepared};
ghost use Rattle.kb_account.specs.Prepares.{refusal_by};
ghost use Rattle.kb_account.specs.Views.{answer_to};

mod account;
mod invoice;
mod payment;
mod states;
mod subscription;
mod sums;

use crate::book::Book;
use crate::world::World;
use kb_book::{Query, Refusal, Unprepared, View, asked_day};
use kb_days::Day;
pub use states::StateRow;
use std::alloc::Global;
pub use sums::Sums;

impl Book {
    /// The answer to a query on a day. Refused if there is no such invoice (`NoInvoice`), no such payment
    /// (`NoPayment`), or no such subscription (`NoSubscription`).
    pub fn view(
        &self,
        alloc: Global,
        world: &World,
        today: Day,
        query: &Query,
    ) -> Result<View, Unprepared>
        ensures shown { IfOk result (λ view. answer_to world.now self.now today query.now ≡ Ok view) }
        ensures refused { IfErr result (IsUnprepared (refusal_by
            (answer_to world.now self.now today query.now))) }
    {
        let state = &self.state;
        match *query {
            Query::Account(_) => Ok(View::Account(state.account_view())),
            Query::Invoice(_, invoice) => match state.invoice_view(alloc, invoice)? {
                Some(view) => Ok(View::Invoice(view)),
                None => Err(Unprepared::Refused(Refusal::NoInvoice)),
            },
            Query::Payment(_, payment) => match state.payment_view(payment) {
                Some(view) => Ok(View::Payment(view)),
                None => Err(Unprepared::Refused(Refusal::NoPayment)),
            },
            Query::Subscription(_, name, day) => {
                let day = asked_day(day, today);
                match state.subscription_view(alloc, world, day, name)? {
                    Some(view) => Ok(View::Subscription(view)),
                    None => Err(Unprepared::Refused(Refusal::NoSubscription)),
                }
            }
        }
    }
}
