//! Requests.

use kb_book::Query;
use kb_codec::Command;
use kb_days::Day;

/// What a line asks for, and on which day.
#[derive(Drop)]
pub struct Request {
    /// The day on which it is asked. None if the line names none.
    pub today: Option<Day>,
    pub what: What,
}

/// What a line asks for.
#[derive(Drop)]
pub enum What {
    /// That a command is performed.
    Command(Command),
    /// That something is shown.
    Query(Query),
    /// That open payments are looked up.
    Janitor,
}
