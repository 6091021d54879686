//! Lists and maps that grow and share what stays, so that an edit may take `&self` and give a new value.
//!
//! The rule kept here: an edit makes what it changes and the way to it anew, and shares all else with the
//! value that it was called on, which stays as it was. Contracts see a list as its members, and a map as
//! std's finite map from the words of its keys. Layers above keep in a `SharedList` what grows at its end, in
//! a `SharedMap` what is found by a key, and cite the laws of sums over what stands in them.
#![tactic(auto)]

mod key;
mod list;
mod list_threads;
mod map;
mod map_threads;

pub use key::Key;
pub use list::SharedList;
pub use map::SharedMap;
