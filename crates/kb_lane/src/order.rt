//! The order for a payment.
ghost use Rattle.std.specs.Prelude.{◌≡◌, Some, IsSome};
ghost use Rattle.kb_lane.specs.Orders.{order_of};

use kb_days::Name;
use kb_gateway::{Order, gateway_id};
use kb_machine::Machine;

/// The order for an attempt of an account, which is there: of its kind and amount, in minor units of the
/// account's currency, under the id that is made of account and key.
pub fn order_of(machine: &Machine, account: Name, key: Name) -> Order
    requires there { IsSome (order_of machine.now account key) }
    ensures { order_of machine.now account key ≡ Some result }
{
    let Some(book) = machine.books().get(&account) else {
        unreachable!()
    };
    let Some(attempt) = book.payments().attempt(key) else {
        unreachable!()
    };
    Order {
        account,
        key,
        id: gateway_id(account, key),
        kind: attempt.kind,
        amount: attempt.amount,
        currency: book.currency(),
    }
}
