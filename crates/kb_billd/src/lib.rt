//! The program as a library: the top call `billd`, over words, a source, a sink, a vault, a market and a
//! clock.
//!
//! What the program promises stands in that call's clauses: the lines of the input are answered by the
//! lanes of a folder, each of which begins with the history that its bytes stand for and ends with bytes
//! that stand for its last one; each day of each account then has exactly the charge that is due, or none;
//! and no payment is asked for twice. A report is exactly its text of what the bytes stand for, and changes
//! none. `command` has what each command does.
#![tactic(auto)]

mod command;
mod top;

pub use top::billd;
