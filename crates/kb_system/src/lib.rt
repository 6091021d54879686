//! The operating system behind the ports: its streams, files, folders, sockets and clock.
//!
//! The rule kept here: each system call that fails is counted once, one that a signal interrupts is made
//! again, and a read or a write that moves too few bytes is completed. No clause tells what a file holds or
//! what a peer sends: what these adapters do is only tested, and all that is only tested stands in this
//! crate. The program hands them to the layers that are proved against the traits.
#![tactic(auto)]

mod day_of_time;
mod file_disk;
mod folder_vault;
mod line_market;
mod path;
mod place;
mod places;
mod std_sink;
mod std_source;
mod system_clock;
mod tcp_door;
mod tcp_link;

pub use file_disk::FileDisk;
pub use folder_vault::FolderVault;
pub use line_market::LineMarket;
pub use std_sink::StdSink;
pub use std_source::StdSource;
pub use system_clock::SystemClock;
pub use tcp_door::TcpDoor;
pub use tcp_link::TcpLink;
