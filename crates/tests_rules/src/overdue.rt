//! Overdue states on days, the ends of their numbers, and the sentences of faults.

mod days;
mod messages;
mod states;
