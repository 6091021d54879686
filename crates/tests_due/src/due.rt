//! What no command can ask of a day: what was chosen for it, and the days behind the last one.

mod due_days;
mod held;
mod states;
