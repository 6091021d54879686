//! Pieces and fees of whole accounts, worked out by hand or drawn: they are as a look at each day of a year
//! finds them.

mod generated;
mod held;
mod pieces;
