//! Gateways in memory: what they answer, and what they note.

use crate::compare::same;
use kb_days::Name;
use kb_gateway::{Gateway, Heard, ListGateway, ListMarket, Market, Order, Seen, Told, gateway_id};
use kb_money::Currency;
use kb_payment::Kind;
use std::alloc::Global;
use std::test::Fail;

#[test]
fn a_gateway_answers_and_notes(rt: HostRuntime) -> Result<(), Fail> {
    let alloc = rt.alloc();
    let told = [Told::Pending, Told::Processed].to_vec(alloc)?;
    let seen = [Seen::Told(Told::Error)].to_vec(alloc)?;
    let gateway = ListGateway::new(alloc, told, seen, [2].to_vec(alloc)?);
    let mut gateways = Vec::new(alloc);
    gateways.push(gateway)?;
    let mut market = ListMarket::new(gateways, Vec::new(alloc));
    let mut gateway = market.gateway("shop", 0)?;
    let order = order_of("p1")?;
    same(
        &rt,
        &(
            gateway.ask(&order).ok(),
            gateway.ask(&order).ok(),
            gateway.ask(&order).ok(),
            gateway.ask(&order).ok(),
        ),
        &(
            Some(Told::Pending),
            None,
            Some(Told::Processed),
            Some(Told::Undefined),
        ),
        &"",
    );
    same(
        &rt,
        &(gateway.look_up(&order).ok(), gateway.look_up(&order).ok()),
        &(Some(Seen::Told(Told::Error)), Some(Seen::NotSeen)),
        &"",
    );
    let asked = gateway.asked().ok_or("what was asked")?;
    let said = gateway.said().ok_or("what was said")?;
    let failed = said.get(1).ok_or("the second call")?;
    let unseen = said.get(5).ok_or("the last call")?;
    same(
        &rt,
        &(
            gateway.faults(),
            asked.len(),
            said.len(),
            failed.heard,
            unseen.heard,
        ),
        &(1, 4, 6, Heard::Failed, Heard::NotSeen),
        &"",
    );
    same(
        &rt,
        &(market.gateway("shop", 1).is_err(), market.faults()),
        &(true, 1),
        &"",
    );
    Ok(())
}

/// Kinds, amounts and currencies of orders on one payment.
const ORDERS: [(Kind, u64, &str); 4] = [
    (Kind::Purchase, 5, "USD"),
    (Kind::Purchase, 7, "USD"),
    (Kind::Purchase, 7, "EUR"),
    (Kind::Refund, 7, "EUR"),
];

#[test]
fn whole_orders_are_noted(rt: HostRuntime) -> Result<(), Fail> {
    let mut gateway = silent(rt.alloc());
    let first = order_of("p1")?;
    for (kind, amount, currency) in ORDERS {
        let currency = Currency::new(currency.as_bytes()).ok_or("a currency")?;
        let order = Order {
            kind,
            amount,
            currency,
            ..first
        };
        gateway.ask(&order)?;
        let asked = gateway.asked().ok_or("what was asked")?;
        same(&rt, &asked.last(), &Some(&order), &amount);
    }
    Ok(())
}

#[test]
fn a_market_hands_out_gateways_with_nothing_told(rt: HostRuntime) -> Result<(), Fail> {
    let alloc = rt.alloc();
    let mut gateway = silent(alloc);
    let order = order_of("p1")?;
    gateway.ask(&order)?;
    gateway.look_up(&order)?;
    let mut market = ListMarket::new(vec![in alloc; gateway]?, Vec::new(alloc));
    let gateway = market.gateway("shop", 0)?;
    let asked = gateway.asked().ok_or("what was asked")?.len();
    let said = gateway.said().ok_or("what was said")?.len();
    market.back(0, gateway);
    same(
        &rt,
        &(
            asked,
            said,
            market.gateway("shop", 0).is_err(),
            market.faults(),
        ),
        &(0, 0, true, 1),
        &"",
    );
    Ok(())
}

/// A gateway that has nothing to say.
fn silent(alloc: Global) -> ListGateway {
    ListGateway::new(alloc, Vec::new(alloc), Vec::new(alloc), Vec::new(alloc))
}

/// An order of 5 on a payment of the account a1.
fn order_of(key: &str) -> Result<Order, Fail> {
    let account = Name::new(b"a1").ok_or("an account")?;
    let key = Name::new(key.as_bytes()).ok_or("a key")?;
    Ok(Order {
        account,
        key,
        id: gateway_id(account, key),
        kind: Kind::Purchase,
        amount: 5,
        currency: Currency::new(b"USD").ok_or("a currency")?,
    })
}
