//! Disks in memory: their calls, and the images that a crash may leave, against images made by hand.

mod calls;
mod images;
