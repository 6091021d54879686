//! The lock: threads that add to one history.

mod threads;
