//! Folders: how their lanes are made, opened and given back, with each call of a vault, a disk and a market
//! failing in turn.

mod faults;
mod folders;
mod markets;
mod passing;
mod shops;
