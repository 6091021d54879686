//! Tests of what is due: cells, pieces, covers and bills against the definitions, day by day.
#![tactic(auto)]

#[cfg(test)]
mod compare;
#[cfg(test)]
mod covers;
#[cfg(test)]
mod due;
#[cfg(test)]
mod pieces;
