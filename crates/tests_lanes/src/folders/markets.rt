//! Folders whose lanes are made, and a market that has no gateway.

use crate::folders::passing::{make, passed};
use kb_base::Failed;
use kb_days::Name;
use kb_disk::MemoryVault;
use kb_folder::Unopened;
use kb_gateway::{Gateway, NoGateway, NoMarket, Order, Seen, Told, gateway_id};
use kb_money::Currency;
use kb_payment::Kind;
use std::alloc::Global;
use std::test::Fail;

#[test]
fn two_lanes_are_made_and_opened(rt: HostRuntime) -> Result<(), Fail> {
    let found = made(rt.alloc())?;
    assert_eq!(rt; found, (Ok(2), Ok(2)));
    Ok(())
}

/// Makes two lanes, and opens them twice.
fn made(alloc: Global) -> Result<(Result<usize, Unopened>, Result<usize, Unopened>), Fail> {
    let mut vault = MemoryVault::new(Vec::new(alloc), Vec::new(alloc), Vec::new(alloc));
    make(alloc, &mut vault, 0)?;
    make(alloc, &mut vault, 1)?;
    let first = passed(alloc, &mut vault, &mut NoMarket);
    let again = passed(alloc, &mut vault, &mut NoMarket);
    Ok((first, again))
}

#[test]
fn no_order_reaches_a_gateway(rt: HostRuntime) -> Result<(), Fail> {
    let found = said(&mut NoGateway, &order()?);
    assert_eq!(rt; found, (Ok(Told::Canceled), Ok(Seen::NotSeen)));
    Ok(())
}

/// What a gateway says of an order.
fn said(gateway: &mut impl Gateway, order: &Order) -> (Result<Told, Failed>, Result<Seen, Failed>) {
    (gateway.ask(order), gateway.look_up(order))
}

/// An order of 5 on a payment of the account a1.
fn order() -> Result<Order, Fail> {
    let account = Name::new(b"a1").ok_or("an account")?;
    let key = Name::new(b"p1").ok_or("a key")?;
    Ok(Order {
        account,
        key,
        id: gateway_id(account, key),
        kind: Kind::Purchase,
        amount: 5,
        currency: Currency::new(b"USD").ok_or("a currency")?,
    })
}
