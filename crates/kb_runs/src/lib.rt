//! A machine over the lines of a source, whose answers go to a sink, and how a run of the program ends.
//!
//! The rule kept here: however the input is cut into chunks, its lines are answered one after another, and
//! what was answered is written, also where the run is stopped. Each stop has one cause, a status, and a line
//! that tells it, which is the last one written; where the output fails, no more is written, and the status
//! says so. Layers above bring the machine, and hand every result of a run to `close`.
#![tactic(auto)]

mod closing;
mod last_lines;
mod line_machine;
mod reading;
mod run_stop;
mod stop;
mod taking;

pub use closing::close;
pub use line_machine::LineMachine;
pub use reading::{MAX_INPUT, run_lines};
pub use run_stop::RunStop;
pub use stop::Stop;
pub use taking::MAX_LINE;
