//! Days: their dates, spans and periods, and names.

mod dates;
mod days;
mod names;
mod spans;
