//! The kinds of commands, written at the end of some bytes: the kind, and then its members.
ghost use Rattle.std.specs.Prelude.{◌≡◌, ◌++◌, OnOk};
ghost use Rattle.kb_codec.specs.CommandBytes.{spelling, kind_of, members_of};
ghost use Rattle.kb_codec.specs.declared.action.Action.TheVariants as actions;
ghost use Rattle.kb_codec.specs.declared.command.Command.TheVariants as kinds;

use crate::action::{
    Action, Autopay, Bill, Block, Cancel, Change, Charge, Chargeback, Create, Credit, OpenAccount,
    Pause, Pay, Refund, Resume, Uncancel,
};
use crate::command::{Auto, Catalog, Command, Overdue, OverdueRules, Settle};
use crate::member::{
    put_amount, put_bcd, put_currency, put_flags, put_invoice, put_name, put_optional_amount,
    put_optional_day, put_period, put_scope, put_status, put_text, put_truth,
};
use kb_base::NoMemory;
use kb_days::Name;

/// A command of any kind.
pub(crate) fn put_command(out: &mut Vec<u8>, command: &Command) -> Result<(), NoMemory>
    ensures { OnOk result (out.new.items ≡ out.old.items ++ spelling command.now) }
{
    match command {
        Command::Catalog(members) => put_catalog_text(out, members),
        Command::OverdueRules(members) => put_overdue_rules(out, members),
        Command::Act {
            account,
            key,
            action,
        } => put_act(out, account, key, action),
        Command::Auto(members) => put_auto_pay(out, members),
        Command::Settle(members) => put_settle(out, members),
        Command::Overdue(members) => put_overdue_state(out, members),
    }
}

/// An action on an account.
fn put_act(out: &mut Vec<u8>, account: &Name, key: &Name, action: &Action) -> Result<(), NoMemory>
    ensures { OnOk result (out.new.items ≡ out.old.items
        ++ spelling (kinds.Act account.now key.now action.now)) }
{
    out.push(kind_of(action))?;
    put_name(out, account)?;
    put_name(out, key)?;
    put_members(out, action)
}

/// The kind of an action.
fn kind_of(action: &Action) -> u8
    ensures { result ≡ kind_of action.now }
{
    match action {
        Action::OpenAccount(_) => 3,
        Action::Create(_) => 4,
        Action::Change(_) => 5,
        Action::Cancel(_) => 6,
        Action::Uncancel(_) => 7,
        Action::Pause(_) => 8,
        Action::Resume(_) => 9,
        Action::Block(_) => 10,
        Action::Bill(_) => 11,
        Action::Charge(_) => 12,
        Action::Credit(_) => 13,
        Action::Pay(_) => 14,
        Action::Refund(_) => 15,
        Action::Chargeback(_) => 16,
        Action::Autopay(_) => 17,
    }
}

/// The members of an action.
fn put_members(out: &mut Vec<u8>, action: &Action) -> Result<(), NoMemory>
    ensures { OnOk result (out.new.items ≡ out.old.items ++ members_of action.now) }
{
    match action {
        Action::OpenAccount(members) => put_open_account(out, members),
        Action::Create(members) => put_create(out, members),
        Action::Change(members) => put_change(out, members),
        Action::Cancel(members) => put_cancel(out, members),
        Action::Uncancel(members) => put_uncancel(out, members),
        Action::Pause(members) => put_pause(out, members),
        Action::Resume(members) => put_resume(out, members),
        Action::Block(members) => put_block(out, members),
        Action::Bill(members) => put_bill(out, members),
        Action::Charge(members) => put_charge(out, members),
        Action::Credit(members) => put_credit(out, members),
        Action::Pay(members) => put_pay(out, members),
        Action::Refund(members) => put_refund(out, members),
        Action::Chargeback(members) => put_chargeback(out, members),
        Action::Autopay(members) => put_autopay(out, members),
    }
}

#[tactic(auto, using(crate::proofs::ShortTexts::catalog_short))]
fn put_catalog_text(out: &mut Vec<u8>, members: &Catalog) -> Result<(), NoMemory>
    ensures { OnOk result (out.new.items ≡ out.old.items ++ spelling (kinds.Catalog members.now)) }
{
    // a text that was read is short
    let _version = members.text.version();
    out.push(1)?;
    put_name(out, &members.key)?;
    put_text(out, members.text.text())
}

#[tactic(auto, using(crate::proofs::ShortTexts::overdue_short))]
fn put_overdue_rules(out: &mut Vec<u8>, members: &OverdueRules) -> Result<(), NoMemory>
    ensures { OnOk result (out.new.items ≡ out.old.items ++ spelling (kinds.OverdueRules members.now)) }
{
    // a text that was read is short
    let _states = members.text.config();
    out.push(2)?;
    put_name(out, &members.key)?;
    put_text(out, members.text.text())
}

fn put_open_account(out: &mut Vec<u8>, members: &OpenAccount) -> Result<(), NoMemory>
    ensures { OnOk result (out.new.items ≡ out.old.items ++ members_of (actions.OpenAccount members.now)) }
{
    put_currency(out, &members.currency)?;
    put_bcd(out, members.bcd)?;
    put_truth(out, members.autopay)
}

fn put_create(out: &mut Vec<u8>, members: &Create) -> Result<(), NoMemory>
    ensures { OnOk result (out.new.items ≡ out.old.items ++ members_of (actions.Create members.now)) }
{
    put_name(out, &members.bundle)?;
    put_name(out, &members.subscription)?;
    put_name(out, &members.product)?;
    put_period(out, members.period)?;
    put_name(out, &members.list)?;
    put_optional_day(out, &members.day)
}

fn put_change(out: &mut Vec<u8>, members: &Change) -> Result<(), NoMemory>
    ensures { OnOk result (out.new.items ≡ out.old.items ++ members_of (actions.Change members.now)) }
{
    put_name(out, &members.subscription)?;
    put_name(out, &members.product)?;
    put_period(out, members.period)?;
    put_name(out, &members.list)?;
    put_optional_day(out, &members.day)
}

fn put_cancel(out: &mut Vec<u8>, members: &Cancel) -> Result<(), NoMemory>
    ensures { OnOk result (out.new.items ≡ out.old.items ++ members_of (actions.Cancel members.now)) }
{
    put_name(out, &members.subscription)?;
    put_optional_day(out, &members.day)
}

fn put_uncancel(out: &mut Vec<u8>, members: &Uncancel) -> Result<(), NoMemory>
    ensures { OnOk result (out.new.items ≡ out.old.items ++ members_of (actions.Uncancel members.now)) }
{
    put_name(out, &members.subscription)
}

fn put_pause(out: &mut Vec<u8>, members: &Pause) -> Result<(), NoMemory>
    ensures { OnOk result (out.new.items ≡ out.old.items ++ members_of (actions.Pause members.now)) }
{
    put_name(out, &members.bundle)?;
    put_optional_day(out, &members.day)
}

fn put_resume(out: &mut Vec<u8>, members: &Resume) -> Result<(), NoMemory>
    ensures { OnOk result (out.new.items ≡ out.old.items ++ members_of (actions.Resume members.now)) }
{
    put_name(out, &members.bundle)?;
    put_optional_day(out, &members.day)
}

fn put_block(out: &mut Vec<u8>, members: &Block) -> Result<(), NoMemory>
    ensures { OnOk result (out.new.items ≡ out.old.items ++ members_of (actions.Block members.now)) }
{
    put_scope(out, members.scope)?;
    put_name(out, &members.target)?;
    put_name(out, &members.service)?;
    put_name(out, &members.state)?;
    put_optional_day(out, &members.day)?;
    put_flags(out, &members.flags)
}

fn put_bill(out: &mut Vec<u8>, members: &Bill) -> Result<(), NoMemory>
    ensures { OnOk result (out.new.items ≡ out.old.items ++ members_of (actions.Bill members.now)) }
{
    put_optional_day(out, &members.day)
}

fn put_charge(out: &mut Vec<u8>, members: &Charge) -> Result<(), NoMemory>
    ensures { OnOk result (out.new.items ≡ out.old.items ++ members_of (actions.Charge members.now)) }
{
    put_amount(out, members.amount)
}

fn put_credit(out: &mut Vec<u8>, members: &Credit) -> Result<(), NoMemory>
    ensures { OnOk result (out.new.items ≡ out.old.items ++ members_of (actions.Credit members.now)) }
{
    put_amount(out, members.amount)
}

fn put_pay(out: &mut Vec<u8>, members: &Pay) -> Result<(), NoMemory>
    ensures { OnOk result (out.new.items ≡ out.old.items ++ members_of (actions.Pay members.now)) }
{
    put_name(out, &members.payment)?;
    put_invoice(out, members.invoice)?;
    put_optional_amount(out, &members.amount)
}

fn put_refund(out: &mut Vec<u8>, members: &Refund) -> Result<(), NoMemory>
    ensures { OnOk result (out.new.items ≡ out.old.items ++ members_of (actions.Refund members.now)) }
{
    put_name(out, &members.payment)?;
    put_name(out, &members.of)?;
    put_amount(out, members.amount)
}

fn put_chargeback(out: &mut Vec<u8>, members: &Chargeback) -> Result<(), NoMemory>
    ensures { OnOk result (out.new.items ≡ out.old.items ++ members_of (actions.Chargeback members.now)) }
{
    put_name(out, &members.payment)?;
    put_name(out, &members.of)?;
    put_amount(out, members.amount)
}

fn put_autopay(out: &mut Vec<u8>, members: &Autopay) -> Result<(), NoMemory>
    ensures { OnOk result (out.new.items ≡ out.old.items ++ members_of (actions.Autopay members.now)) }
{
    put_truth(out, members.on)
}

fn put_auto_pay(out: &mut Vec<u8>, members: &Auto) -> Result<(), NoMemory>
    ensures { OnOk result (out.new.items ≡ out.old.items ++ spelling (kinds.Auto members.now)) }
{
    out.push(18)?;
    put_name(out, &members.account)?;
    put_invoice(out, members.invoice)
}

fn put_settle(out: &mut Vec<u8>, members: &Settle) -> Result<(), NoMemory>
    ensures { OnOk result (out.new.items ≡ out.old.items ++ spelling (kinds.Settle members.now)) }
{
    out.push(19)?;
    put_name(out, &members.account)?;
    put_name(out, &members.payment)?;
    put_status(out, members.status)
}

fn put_overdue_state(out: &mut Vec<u8>, members: &Overdue) -> Result<(), NoMemory>
    ensures { OnOk result (out.new.items ≡ out.old.items ++ spelling (kinds.Overdue members.now)) }
{
    out.push(20)?;
    put_name(out, &members.account)
}
