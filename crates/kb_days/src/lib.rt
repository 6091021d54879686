//! Days: the civil days that commands name, those that follow from them, and the civil calendar.
//!
//! The rule kept here: a day is a number of days from 1970-01-01, and its month, its day of month
//! and its text are those of the civil calendar. A month or a year later keeps the day's number in
//! its month, cut to the month's last day. Layers above count in day numbers, and ask the calendar
//! by `mark`, `month_of`, `day_of_month` and `add`.
//!
//! Beside the days stand the words that catalogs are written in: names, spans of time and billing
//! periods.
#![tactic(auto)]

mod adding;
mod calendar;
mod date_text;
mod day;
mod name;
mod period;
mod span;

pub use adding::add;
pub use calendar::{day_of_month, mark, month_of};
pub use date_text::{BadDate, parse, text};
pub use day::{
    Bcd, Day, END_OF_DAYS, FIRST_DAY, FIRST_REACH, LAST_CHARGED, LAST_DAY, LAST_REACH, Reach,
};
pub use name::Name;
pub use period::Period;
pub use span::{Count, Span};
