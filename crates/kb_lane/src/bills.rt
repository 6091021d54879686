//! The bills of a lane's accounts.
ghost use Rattle.std.specs.Prelude.{◌≡◌, ◌⊎◌, ◌<◌, ◌^◌, List, IfOk, length};
ghost use Rattle.kb_days.specs.Names.{IsName};
ghost use Rattle.kb_book.specs.declared.step.Step.TheVariants as steps;
ghost use Rattle.kb_lane.specs.Going.{GoesWell};
ghost use Rattle.kb_lane.specs.Lanes.{StaysItself};
ghost use Rattle.kb_lane.specs.Replies.{Performs};
ghost use Rattle.kb_lane.specs.Bills.{BillsAccount, BillsEach, BillsLane, bill_key, bill_of};
ghost use Rattle.kb_lane.specs.Tallies.{Answer, of_step, tally_of};

use crate::drains::drain;
use crate::lane::Lane;
use crate::tally::Tally;
use kb_base::NoMemory;
use kb_book::{LaneReply, Step};
use kb_codec::{Action, Bill, Command};
use kb_days::{Day, Name, text};
use kb_disk::Disk;
use kb_gateway::Gateway;
use std::alloc::Global;

/// Gives each account of a lane its bill of a day, on that day and by name, and after each handles the
/// entries of the outbox up to a step that isn't `Done`. A fault ends no more than what met it: the
/// accounts behind it are billed too. If memory runs out before the first bill, the lane is as it was, and
/// `memory` is 1.
pub fn bill<D: Disk, G: Gateway + Drop>(lane: &mut Lane<D, G>, alloc: Global, day: Day) -> Tally
    ensures billed { ((answers : List Answer) × (result ≡ tally_of answers)
        × BillsLane D.told.fault_count G.told day lane.old lane.new answers)
        ⊎ ((result ≡ of_step steps.NoMemory) × (lane.new ≡ lane.old)) }
    ensures well { GoesWell D.told.honest D.told.moment D.told.left_since lane.old.log lane.new.log }
    ensures itself { StaysItself D.told.honest D.told.fault_count lane.old lane.new }
{
    let Ok(accounts) = lane.names(alloc) else {
        return Tally::of_step(Step::NoMemory);
    };
    match bill_key(alloc, day) {
        Ok(key) => bill_each(lane, alloc, day, &accounts, key),
        Err(_) => Tally::of_step(Step::NoMemory),
    }
}

/// Bills accounts, one after another.
fn bill_each<D: Disk, G: Gateway + Drop>(
    lane: &mut Lane<D, G>,
    alloc: Global,
    day: Day,
    accounts: &[Name],
    key: Name,
) -> Tally
    requires few { length accounts.now < 2 ^ 63 }
    requires key { key ≡ bill_key day }
    ensures billed { (answers : List Answer) × (result ≡ tally_of answers)
        × BillsEach D.told.fault_count G.told day accounts.now lane.old lane.new answers }
    ensures well { GoesWell D.told.honest D.told.moment D.told.left_since lane.old.log lane.new.log }
    ensures itself { StaysItself D.told.honest D.told.fault_count lane.old lane.new }
{
    let mut tally = Tally::none();
    for account in accounts {
        let (reply, step) = bill_account(lane, alloc, day, *account, key);
        tally = tally
            .plus(Tally::of_reply(reply))
            .plus(Tally::of_step(step));
    }
    tally
}

/// Gives an account its bill, and handles what this leaves to do.
fn bill_account<D: Disk, G: Gateway + Drop>(
    lane: &mut Lane<D, G>,
    alloc: Global,
    day: Day,
    account: Name,
    key: Name,
) -> (LaneReply, Step)
    requires key { key ≡ bill_key day }
    ensures billed { BillsAccount D.told.fault_count G.told day account lane.old lane.new result }
    ensures well { GoesWell D.told.honest D.told.moment D.told.left_since lane.old.log lane.new.log }
    ensures itself { StaysItself D.told.honest D.told.fault_count lane.old lane.new }
{
    let reply = give_bill(lane, alloc, day, account, key);
    let step = drain(lane, alloc, day);
    (reply, step)
}

/// Gives an account its bill.
fn give_bill<D: Disk, G: Gateway + Drop>(
    lane: &mut Lane<D, G>,
    alloc: Global,
    day: Day,
    account: Name,
    key: Name,
) -> LaneReply
    requires key { key ≡ bill_key day }
    ensures performed { Performs D.told.fault_count lane.old lane.new day (bill_of account day) result }
    ensures well { GoesWell D.told.honest D.told.moment D.told.left_since lane.old.log lane.new.log }
    ensures itself { StaysItself D.told.honest D.told.fault_count lane.old lane.new }
{
    let command = Command::Act {
        account,
        key,
        action: Action::Bill(Bill { day: Some(day) }),
    };
    lane.perform(alloc, day, &command)
}

/// The key of an account's bill of a day: `bill-` and the day's date.
#[tactic(auto, using(crate::proofs::BillKeys::bill_named))]
fn bill_key(alloc: Global, day: Day) -> Result<Name, NoMemory>
    ensures { IfOk result (λ key. key ≡ bill_key day) }
{
    let mut bytes = Vec::new(alloc);
    bytes.extend_from_slice(b"bill-")?;
    bytes.extend_from_slice(&text(day.reach()))?;
    Ok(named(&bytes))
}

/// The name of these bytes, which are one.
fn named(bytes: &[u8]) -> Name
    requires named { IsName bytes.now }
    ensures { result ≡ bytes.now }
{
    Name::new(bytes).unwrap()
}
