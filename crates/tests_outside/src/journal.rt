//! Journals: worked bytes, crashes, calls that fail, and files of the system.

mod bytes;
mod crashes;
mod files;
mod journals;
mod sizes;
