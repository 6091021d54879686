//! Settlements of payments, made ready before the gateway is asked.
ghost use Rattle.std.specs.Prelude.{◌≡◌, ◌<◌, ℕ, List, length, slice_index_or, IfSome, IfOk, OnOk};
ghost use Rattle.kb_machine.specs.Machines.{MachineValue};
ghost use Rattle.kb_machine.specs.Plans.{IsDueIn};
ghost use Rattle.kb_lane.specs.Orders.{settled_by};
ghost use Rattle.kb_lane.specs.Private.Settlements.{IsReady, AreReady, AddsReady, IsWhole};
ghost use Rattle.kb_lane.specs.Private.Settlements.{IsChosen, told_place};

use crate::payload::payload_of;
use kb_base::{Failed, NoMemory};
use kb_codec::{Command, Settle};
use kb_days::{Day, Name};
use kb_gateway::Told;
use kb_machine::{Change, DueBook, Machine};
use kb_payment::Status;
use std::alloc::Global;

/// A settlement that is ready to be written down: the command, what it changes, and its bytes.
#[derive(Drop)]
pub struct Settlement {
    pub command: Command,
    pub change: Change,
    pub bytes: Vec<u8>,
}

/// The settlements of a payment to each status that its gateway may tell: to success, to pending, to a
/// failure of the payment and to one of the gateway.
#[derive(Drop)]
pub struct Settlements {
    each: Vec<Settlement>,
}

impl Settlements {
    /// The settlements of a payment of an account, under its key, on a day. An `Err` comes if memory runs
    /// out, or if the machine wouldn't settle the payment so.
    pub fn all(
        machine: &Machine,
        alloc: Global,
        today: Day,
        account: Name,
        key: Name,
    ) -> Result<Settlements, NoMemory>
        ensures { IfOk result (AreReady machine.now today account key) }
    {
        let Some(due) = machine.due_book(alloc, &account) else {
            return Err(NoMemory);
        };
        let mut each = Vec::with_capacity(alloc, 4)?;
        add(
            &mut each,
            machine,
            alloc,
            today,
            account,
            key,
            &due,
            Status::Success,
        )?;
        add(
            &mut each,
            machine,
            alloc,
            today,
            account,
            key,
            &due,
            Status::Pending,
        )?;
        add(
            &mut each,
            machine,
            alloc,
            today,
            account,
            key,
            &due,
            Status::PaymentFailure,
        )?;
        add(
            &mut each,
            machine,
            alloc,
            today,
            account,
            key,
            &due,
            Status::PluginFailure,
        )?;
        Ok(Settlements { each })
    }

    /// The settlement by what a gateway answered; none if it failed or can't say. The others go.
    #[tactic(auto, using(crate::proofs::Choices::chosen_some, crate::proofs::Choices::chosen_none))]
    pub fn chosen(self, answer: Result<Told, Failed>) -> Option<Settlement>
        requires all { IsWhole self }
        ensures { (machine : MachineValue) (today : ℕ) (account key : List ℕ)
            → AreReady machine today account key self
            → IsChosen machine today (settled_by account key answer) result }
    {
        match place_of(answer) {
            Some(place) => Some(one_of(self.each, place)),
            None => None,
        }
    }
}

/// The place of the settlement by what a gateway answered.
fn place_of(answer: Result<Told, Failed>) -> Option<usize>
    ensures small { IfSome result (λ place. place < 4) }
    ensures place { result ≡ told_place answer }
{
    match answer {
        Ok(Told::Processed) => Some(0),
        Ok(Told::Pending) => Some(1),
        Ok(Told::Error) => Some(2),
        Ok(Told::Canceled) => Some(3),
        Ok(Told::Undefined) => None,
        Err(_) => None,
    }
}

/// Takes one out, and lets the others go.
fn one_of(mut each: Vec<Settlement>, place: usize) -> Settlement
    requires there { place < length each.items }
    ensures { result ≡ slice_index_or each.items place result }
{
    each.swap_remove(place)
}

/// Adds the settlement of a payment to a status.
fn add(
    each: &mut Vec<Settlement>,
    machine: &Machine,
    alloc: Global,
    today: Day,
    account: Name,
    key: Name,
    due: &DueBook,
    status: Status,
) -> Result<(), NoMemory>
    requires due { IsDueIn machine.now account due.now }
    ensures { OnOk result (AddsReady machine.now today account key status each.old.items each.new.items) }
{
    match ready_settlement(machine, alloc, today, account, key, due, status) {
        Some(settlement) => Ok(each.push(settlement)?),
        None => Err(NoMemory),
    }
}

/// The settlement of a payment to a status; none if memory runs out.
fn ready_settlement(
    machine: &Machine,
    alloc: Global,
    today: Day,
    account: Name,
    key: Name,
    due: &DueBook,
    status: Status,
) -> Option<Settlement>
    requires due { IsDueIn machine.now account due.now }
    ensures { IfSome result (IsReady machine.now today account key status) }
{
    let command = Command::Settle(Settle {
        account,
        payment: key,
        status,
    });
    let Ok(bytes) = payload_of(alloc, today, &command) else {
        return None;
    };
    let change = machine.prepare_settlement(alloc, today, &command, account, due)?;
    Some(Settlement {
        command,
        change,
        bytes,
    })
}
