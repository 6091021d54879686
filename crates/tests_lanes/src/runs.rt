//! How runs of the program end if a call fails: of a stream, a disk, a vault or a market.

mod disks;
mod failing_lanes;
mod folders;
mod made;
mod markets;
mod payment_disks;
mod reports;
mod shop;
mod streams;
mod vaults;
