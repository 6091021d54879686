//! Accounts over all lanes, by name.
ghost use Rattle.std.specs.Prelude.{◌≡◌, ◌++◌, ◌≤◌, ◌<◌, map, length, IfOk, OnOk};
ghost use Rattle.kb_lane.specs.Lanes.{machine_of};
ghost use Rattle.kb_reports.specs.Listings.{IsListing, accounts_from, accounts_in};
ghost use Rattle.kb_reports.specs.Private.Collecting.{listed_in};

use kb_base::NoMemory;
use kb_days::Name;
use kb_disk::Disk;
use kb_gateway::Gateway;
use kb_lane::Lane;
use std::alloc::Global;

/// An account, and the number of the lane that it is on.
#[derive(Clone, Copy, PartialEq, Eq, PartialOrd, Ord)]
pub struct Listed {
    pub account: Name,
    pub lane: u32,
}

/// All accounts of some lanes, by name.
pub(crate) fn listing<D: Disk, G: Gateway + Drop>(
    alloc: Global,
    lanes: &[Lane<D, G>],
) -> Result<Vec<Listed>, NoMemory>
    requires few { length lanes.now ≤ 64 }
    ensures { IfOk result (λ listed. IsListing (map machine_of lanes.now) listed.items) }
{
    let mut listed = collected(alloc, lanes)?;
    listed.sort_unstable();
    Ok(listed)
}

/// All accounts of some lanes, lane after lane.
fn collected<D: Disk, G: Gateway + Drop>(
    alloc: Global,
    lanes: &[Lane<D, G>],
) -> Result<Vec<Listed>, NoMemory>
    requires few { length lanes.now ≤ 64 }
    ensures { IfOk result (λ listed. listed.items ≡ accounts_from 0 (map machine_of lanes.now)) }
{
    let mut listed = Vec::new(alloc);
    for (number, lane) in lanes.iter().enumerate() {
        push_lane(alloc, &mut listed, number as u32, lane)?;
    }
    Ok(listed)
}

/// Adds the accounts of the lane of a number.
#[tactic(auto, using(crate::proofs::ListedAccounts::names_listed))]
fn push_lane<D: Disk, G: Gateway + Drop>(
    alloc: Global,
    listed: &mut Vec<Listed>,
    number: u32,
    lane: &Lane<D, G>,
) -> Result<(), NoMemory>
    ensures { OnOk result (listed.new.items
        ≡ listed.old.items ++ accounts_in number (machine_of lane.now)) }
{
    let names = lane.names(alloc)?;
    push_names(listed, number, &names)
}

/// Adds these accounts of a lane.
fn push_names(listed: &mut Vec<Listed>, lane: u32, names: &[Name]) -> Result<(), NoMemory>
    ensures { OnOk result (listed.new.items ≡ listed.old.items ++ map (listed_in lane) names.now) }
{
    for name in names {
        listed.push(Listed {
            account: *name,
            lane,
        })?;
    }
    Ok(())
}
