//! A lane in memory that has the shop's texts.
ghost use Rattle.std.specs.Prelude.{◌≡◌, [], true, IfOk, OnOk};
ghost use Rattle.kb_days.specs.Dates.{january};
ghost use Rattle.kb_catalog_text.specs.Texts.{CatalogText, OverdueText};
ghost use Rattle.kb_machine.specs.Machines.{no_machine};
ghost use Rattle.kb_codec.specs.Senders.{is_text};
ghost use Rattle.kb_machine.specs.Histories.{entry_after, replay};
ghost use Rattle.kb_lane.specs.Lanes.{machine_of};
ghost use Rattle.kb_folder.specs.Foundings.{catalog_command, first_commands, first_key, overdue_command};
ghost use Rattle.kb_make.specs.Private.ShopTexts.{AreShopTexts, IsShopCatalog, IsShopOverdue};

use crate::gateway::PaidAtOnce;
use crate::sending::{MemoryLane, perform};
use kb_base::NoMemory;
use kb_catalog_text::{OVERDUE, SHOP, read, read_overdue};
use kb_codec::{Catalog, Command, OverdueRules};
use kb_days::{Day, Name};
use kb_disk::MemoryDisk;
use kb_lane::Lane;
use std::alloc::Global;

/// The first day on which a command of a seed may come: 2024-01-01.
const FIRST_DAY: u32 = 19_723;

/// A lane in memory into which the shop's texts are handed, and nothing else.
pub(crate) fn shop_lane(alloc: Global) -> Result<MemoryLane, NoMemory>
    ensures idle { IfOk result (λ lane. lane.outbox ≡ []) }
    ensures texts { IfOk result (λ lane. (catalog : CatalogText) × (overdue : OverdueText)
        × AreShopTexts catalog overdue
        × (machine_of lane ≡ replay (first_commands (january 1) catalog overdue))) }
{
    let today = first_day();
    let mut lane = empty_lane(alloc)?;
    hand_catalog_in(&mut lane, alloc, today)?;
    hand_overdue_in(&mut lane, alloc, today)?;
    Ok(lane)
}

/// The day on which the texts are handed in.
fn first_day() -> Day
    ensures { result ≡ january 1 }
{
    Day::new(FIRST_DAY).unwrap()
}

/// A lane in memory without an account.
#[tactic(auto, using(kb_machine::proofs::Replays::replay_none))]
fn empty_lane(alloc: Global) -> Result<MemoryLane, NoMemory>
    ensures idle { IfOk result (λ lane. lane.outbox ≡ []) }
    ensures empty { IfOk result (λ lane. machine_of lane ≡ no_machine) }
{
    let disk = MemoryDisk::new(alloc, Vec::new(alloc), Vec::new(alloc))?;
    match Lane::create(alloc, disk, PaidAtOnce::new(), 0, 1) {
        Ok(lane) => Ok(lane),
        Err(_) => Err(NoMemory),
    }
}

/// Hands the shop's catalog in.
fn hand_catalog_in(lane: &mut MemoryLane, alloc: Global, today: Day) -> Result<(), NoMemory>
    requires idle { lane.old.outbox ≡ [] }
    ensures idle { OnOk result (lane.new.outbox ≡ []) }
    ensures handed { OnOk result ((text : CatalogText) × IsShopCatalog text
        × (machine_of lane.new ≡ entry_after (machine_of lane.old) (today, catalog_command text))) }
{
    let command = catalog_command(alloc)?;
    hand_in(lane, alloc, today, &command)
}

/// Hands the shop's overdue states in.
fn hand_overdue_in(lane: &mut MemoryLane, alloc: Global, today: Day) -> Result<(), NoMemory>
    requires idle { lane.old.outbox ≡ [] }
    ensures idle { OnOk result (lane.new.outbox ≡ []) }
    ensures handed { OnOk result ((text : OverdueText) × IsShopOverdue text
        × (machine_of lane.new ≡ entry_after (machine_of lane.old) (today, overdue_command text))) }
{
    let command = overdue_command(alloc)?;
    hand_in(lane, alloc, today, &command)
}

/// Hands a text in. One that is refused, which the shop's are not, is told as want of memory.
fn hand_in(
    lane: &mut MemoryLane,
    alloc: Global,
    today: Day,
    command: &Command,
) -> Result<(), NoMemory>
    requires text { is_text command.now ≡ true }
    requires idle { lane.old.outbox ≡ [] }
    ensures idle { OnOk result (lane.new.outbox ≡ []) }
    ensures handed { OnOk result (machine_of lane.new
        ≡ entry_after (machine_of lane.old) (today, command.now)) }
{
    if perform(lane, alloc, today, command)? {
        return Err(NoMemory);
    }
    Ok(())
}

/// The command that hands the shop's catalog in.
#[tactic(auto, unfolding(crate::specs::Private::ShopTexts::IsShopCatalog))]
fn catalog_command(alloc: Global) -> Result<Command, NoMemory>
    ensures { IfOk result (λ command. (text : CatalogText) × IsShopCatalog text
        × (command ≡ catalog_command text)) }
{
    let bytes = Vec::from_slice(alloc, SHOP.as_bytes())?;
    match read(alloc, bytes) {
        Ok(text) => {
            let key = first_key();
            Ok(Command::Catalog(Catalog { key, text }))
        }
        Err(_) => Err(NoMemory),
    }
}

/// The command that hands the shop's overdue states in.
#[tactic(auto, unfolding(crate::specs::Private::ShopTexts::IsShopOverdue))]
fn overdue_command(alloc: Global) -> Result<Command, NoMemory>
    ensures { IfOk result (λ command. (text : OverdueText) × IsShopOverdue text
        × (command ≡ overdue_command text)) }
{
    let bytes = Vec::from_slice(alloc, OVERDUE.as_bytes())?;
    match read_overdue(alloc, bytes) {
        Ok(text) => {
            let key = first_key();
            Ok(Command::OverdueRules(OverdueRules { key, text }))
        }
        Err(_) => Err(NoMemory),
    }
}

/// The key of both commands.
fn first_key() -> Name
    ensures { result ≡ first_key }
{
    Name::new(b"init").unwrap()
}
