//! The kinds of commands without a text, read from what is left of some bytes.
ghost use Rattle.std.specs.Prelude.{◌≤◌, slice_get};
ghost use Rattle.std.specs.Option.{option_and_then};
ghost use Rattle.kb_codec.specs.Reading.{Reads, into};
ghost use Rattle.kb_codec.specs.Private.Parts.{readers, acts};
ghost use Rattle.kb_codec.specs.Private.Parts.{open_account, create, change, cancel, uncancel, pause};
ghost use Rattle.kb_codec.specs.Private.Parts.{resume, block, bill, charge, credit, pay, refund};
ghost use Rattle.kb_codec.specs.Private.Parts.{chargeback, autopay, auto_pay, settle, overdue_state};
ghost use Rattle.kb_codec.specs.Private.Parts.{open_account_of, create_of, change_of, cancel_of};
ghost use Rattle.kb_codec.specs.Private.Parts.{uncancel_of, pause_of, resume_of, block_of, bill_of};
ghost use Rattle.kb_codec.specs.Private.Parts.{charge_of, credit_of, pay_of, refund_of, chargeback_of};
ghost use Rattle.kb_codec.specs.Private.Parts.{autopay_of, auto_pay_of, settle_of, overdue_state_of};

use crate::action::{
    Action, Autopay, Bill, Block, Cancel, Change, Charge, Chargeback, Create, Credit, OpenAccount,
    Pause, Pay, Refund, Resume, Uncancel,
};
use crate::command::{Auto, Command, Overdue, Settle};
use crate::rest::Rest;

/// The members of a command of a kind without a text.
pub(crate) fn read_plain(kind: u8, rest: &mut Rest<'_>) -> Option<Command>
    requires { 3 ≤ kind }
    ensures { Reads (λ bytes. option_and_then (λ read. read bytes) (slice_get readers kind)) rest.old result
        rest.new }
{
    match kind {
        3 => read_open_account(rest),
        4 => read_create(rest),
        5 => read_change(rest),
        6 => read_cancel(rest),
        7 => read_uncancel(rest),
        8 => read_pause(rest),
        9 => read_resume(rest),
        10 => read_block(rest),
        11 => read_bill(rest),
        12 => read_charge(rest),
        13 => read_credit(rest),
        14 => read_pay(rest),
        15 => read_refund(rest),
        16 => read_chargeback(rest),
        17 => read_autopay(rest),
        18 => read_auto_pay(rest),
        19 => read_settle(rest),
        20 => read_overdue_state(rest),
        _ => None,
    }
}

fn read_open_account(rest: &mut Rest<'_>) -> Option<Command>
    ensures { Reads (acts open_account_of open_account) rest.old result rest.new }
{
    Some(Command::Act {
        account: rest.name()?,
        key: rest.name()?,
        action: Action::OpenAccount(OpenAccount {
            currency: rest.currency()?,
            bcd: rest.bcd()?,
            autopay: rest.truth()?,
        }),
    })
}

fn read_create(rest: &mut Rest<'_>) -> Option<Command>
    ensures { Reads (acts create_of create) rest.old result rest.new }
{
    Some(Command::Act {
        account: rest.name()?,
        key: rest.name()?,
        action: Action::Create(Create {
            bundle: rest.name()?,
            subscription: rest.name()?,
            product: rest.name()?,
            period: rest.period()?,
            list: rest.name()?,
            day: rest.optional_day()?,
        }),
    })
}

fn read_change(rest: &mut Rest<'_>) -> Option<Command>
    ensures { Reads (acts change_of change) rest.old result rest.new }
{
    Some(Command::Act {
        account: rest.name()?,
        key: rest.name()?,
        action: Action::Change(Change {
            subscription: rest.name()?,
            product: rest.name()?,
            period: rest.period()?,
            list: rest.name()?,
            day: rest.optional_day()?,
        }),
    })
}

fn read_cancel(rest: &mut Rest<'_>) -> Option<Command>
    ensures { Reads (acts cancel_of cancel) rest.old result rest.new }
{
    Some(Command::Act {
        account: rest.name()?,
        key: rest.name()?,
        action: Action::Cancel(Cancel {
            subscription: rest.name()?,
            day: rest.optional_day()?,
        }),
    })
}

fn read_uncancel(rest: &mut Rest<'_>) -> Option<Command>
    ensures { Reads (acts uncancel_of uncancel) rest.old result rest.new }
{
    Some(Command::Act {
        account: rest.name()?,
        key: rest.name()?,
        action: Action::Uncancel(Uncancel {
            subscription: rest.name()?,
        }),
    })
}

fn read_pause(rest: &mut Rest<'_>) -> Option<Command>
    ensures { Reads (acts pause_of pause) rest.old result rest.new }
{
    Some(Command::Act {
        account: rest.name()?,
        key: rest.name()?,
        action: Action::Pause(Pause {
            bundle: rest.name()?,
            day: rest.optional_day()?,
        }),
    })
}

fn read_resume(rest: &mut Rest<'_>) -> Option<Command>
    ensures { Reads (acts resume_of resume) rest.old result rest.new }
{
    Some(Command::Act {
        account: rest.name()?,
        key: rest.name()?,
        action: Action::Resume(Resume {
            bundle: rest.name()?,
            day: rest.optional_day()?,
        }),
    })
}

fn read_block(rest: &mut Rest<'_>) -> Option<Command>
    ensures { Reads (acts block_of block) rest.old result rest.new }
{
    Some(Command::Act {
        account: rest.name()?,
        key: rest.name()?,
        action: Action::Block(Block {
            scope: rest.scope()?,
            target: rest.name()?,
            service: rest.name()?,
            state: rest.name()?,
            day: rest.optional_day()?,
            flags: rest.flags()?,
        }),
    })
}

fn read_bill(rest: &mut Rest<'_>) -> Option<Command>
    ensures { Reads (acts bill_of bill) rest.old result rest.new }
{
    Some(Command::Act {
        account: rest.name()?,
        key: rest.name()?,
        action: Action::Bill(Bill {
            day: rest.optional_day()?,
        }),
    })
}

fn read_charge(rest: &mut Rest<'_>) -> Option<Command>
    ensures { Reads (acts charge_of charge) rest.old result rest.new }
{
    Some(Command::Act {
        account: rest.name()?,
        key: rest.name()?,
        action: Action::Charge(Charge {
            amount: rest.amount()?,
        }),
    })
}

fn read_credit(rest: &mut Rest<'_>) -> Option<Command>
    ensures { Reads (acts credit_of credit) rest.old result rest.new }
{
    Some(Command::Act {
        account: rest.name()?,
        key: rest.name()?,
        action: Action::Credit(Credit {
            amount: rest.amount()?,
        }),
    })
}

fn read_pay(rest: &mut Rest<'_>) -> Option<Command>
    ensures { Reads (acts pay_of pay) rest.old result rest.new }
{
    Some(Command::Act {
        account: rest.name()?,
        key: rest.name()?,
        action: Action::Pay(Pay {
            payment: rest.name()?,
            invoice: rest.invoice()?,
            amount: rest.optional_amount()?,
        }),
    })
}

fn read_refund(rest: &mut Rest<'_>) -> Option<Command>
    ensures { Reads (acts refund_of refund) rest.old result rest.new }
{
    Some(Command::Act {
        account: rest.name()?,
        key: rest.name()?,
        action: Action::Refund(Refund {
            payment: rest.name()?,
            of: rest.name()?,
            amount: rest.amount()?,
        }),
    })
}

fn read_chargeback(rest: &mut Rest<'_>) -> Option<Command>
    ensures { Reads (acts chargeback_of chargeback) rest.old result rest.new }
{
    Some(Command::Act {
        account: rest.name()?,
        key: rest.name()?,
        action: Action::Chargeback(Chargeback {
            payment: rest.name()?,
            of: rest.name()?,
            amount: rest.amount()?,
        }),
    })
}

fn read_autopay(rest: &mut Rest<'_>) -> Option<Command>
    ensures { Reads (acts autopay_of autopay) rest.old result rest.new }
{
    Some(Command::Act {
        account: rest.name()?,
        key: rest.name()?,
        action: Action::Autopay(Autopay { on: rest.truth()? }),
    })
}

fn read_auto_pay(rest: &mut Rest<'_>) -> Option<Command>
    ensures { Reads (into auto_pay_of auto_pay.read) rest.old result rest.new }
{
    Some(Command::Auto(Auto {
        account: rest.name()?,
        invoice: rest.invoice()?,
    }))
}

fn read_settle(rest: &mut Rest<'_>) -> Option<Command>
    ensures { Reads (into settle_of settle.read) rest.old result rest.new }
{
    Some(Command::Settle(Settle {
        account: rest.name()?,
        payment: rest.name()?,
        status: rest.status()?,
    }))
}

fn read_overdue_state(rest: &mut Rest<'_>) -> Option<Command>
    ensures { Reads (into overdue_state_of overdue_state.read) rest.old result rest.new }
{
    Some(Command::Overdue(Overdue {
        account: rest.name()?,
    }))
}
