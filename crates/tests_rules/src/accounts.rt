//! Timelines and blocking states: their limits, and each day of a year against a look at each entry.

mod blocking;
mod timelines;
