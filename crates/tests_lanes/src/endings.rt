//! How a run ends, and what it writes last: each status, outputs that fail, and want of memory.

mod closing;
mod stop;
