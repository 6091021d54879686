//! Disks that crash honestly, as files with what a crash may leave of them, and vaults, where the disks of
//! lanes and the texts of a shop come from.
//!
//! The rule kept here: each call of a disk says what it makes of the bytes and of the images that a crash may
//! leave, and at each moment of the call a crash leaves one of these images, or one of those from before. A
//! lane of a folder is out of its vault from the call that gives its disk until the disk is given back, and
//! no lane is out twice. A call fails only where its object's count of faults rose. Layers above are proved
//! against the traits alone; the disk and the vault in memory serve their tests.
#![tactic(auto)]

mod disk;
mod fault;
mod lane_file;
mod lane_files;
mod log;
mod memory_disk;
mod memory_vault;
mod note;
mod text_file;
mod vault;

pub use disk::Disk;
pub use fault::FileFault;
pub use lane_file::LaneFile;
pub use memory_disk::MemoryDisk;
pub use memory_vault::MemoryVault;
pub use note::{DiskCall, DiskNote};
pub use text_file::TextFile;
pub use vault::{MAX_FILE, Vault};
