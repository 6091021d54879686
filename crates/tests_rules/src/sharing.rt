//! Shared lists and maps, and how high their trees are.

mod heights;
mod shared_lists;
mod shared_maps;
