//! Lanes on disks in memory: commands with their replies, disks that fail, records that are stuck, payments
//! that are asked for, settled and looked up, and bills of a day.

mod bills;
mod drains;
mod lanes;
mod look_ups;
mod rows;
