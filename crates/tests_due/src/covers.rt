//! Covers: which items make them right when what is due changes, and what each day is charged by then, on
//! series of pieces that are worked out or drawn.

mod covers;
mod sound_pieces;
