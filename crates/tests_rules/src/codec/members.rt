//! What is read is what the bytes say, member by member.

use crate::codec::bytes::read;
use kb_codec::{Action, BlockScope, Command};
use kb_days::Period;
use std::test::Fail;

#[test]
fn a_creation(rt: HostRuntime) -> Result<(), Fail> {
    let bytes = b"\x04\x02a1\x02k1\x02b1\x02s1\x05Basic\x04\x07DEFAULT\x01\x00\x00\x4d\x50";
    let command = read(rt.alloc(), bytes)?.ok_or("a command")?;
    assert!(rt; is_creation(&command));
    Ok(())
}

fn is_creation(command: &Command) -> bool {
    match command {
        Command::Act {
            account,
            key,
            action: Action::Create(create),
        } => {
            account.as_str() == "a1"
                && key.as_str() == "k1"
                && create.bundle.as_str() == "b1"
                && create.subscription.as_str() == "s1"
                && create.product.as_str() == "Basic"
                && create.period == Period::Monthly
                && create.list.as_str() == "DEFAULT"
                && create.day.map_or(0, |day| day.number()) == 19792
        }
        _ => false,
    }
}

#[test]
fn a_block(rt: HostRuntime) -> Result<(), Fail> {
    let bytes = b"\x0a\x02a1\x02k1\x02\x02s1\x03svc\x03OFF\x00\x05";
    let command = read(rt.alloc(), bytes)?.ok_or("a command")?;
    assert!(rt; is_block(&command));
    Ok(())
}

fn is_block(command: &Command) -> bool {
    match command {
        Command::Act {
            action: Action::Block(block),
            ..
        } => {
            matches!(block.scope, BlockScope::Subscription)
                && block.target.as_str() == "s1"
                && block.service.as_str() == "svc"
                && block.state.as_str() == "OFF"
                && block.day.is_none()
                && block.flags.change
                && !block.flags.entitlement
                && block.flags.billing
        }
        _ => false,
    }
}

#[test]
fn a_payment(rt: HostRuntime) -> Result<(), Fail> {
    let bytes = b"\x0e\x02a1\x02k1\x02p1\xff\xff\xff\xff\x01\x00\x00\x00\x00\x00\x00\x03\xe8";
    let command = read(rt.alloc(), bytes)?.ok_or("a command")?;
    assert!(rt; is_payment(&command));
    Ok(())
}

fn is_payment(command: &Command) -> bool {
    match command {
        Command::Act {
            action: Action::Pay(pay),
            ..
        } => {
            pay.payment.as_str() == "p1"
                && pay.invoice.number() == 4_294_967_295
                && pay.amount.map_or(0, |amount| amount.units()) == 1000
        }
        _ => false,
    }
}
