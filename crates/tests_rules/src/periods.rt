//! Phases and billing periods, as worked out by hand or by a look at each day.

mod periods;
mod phases;
