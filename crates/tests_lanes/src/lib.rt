//! Tests of lanes and of the program over them: each call that fails once, streams that are cut, generated
//! accounts.
#![tactic(auto)]

#[cfg(test)]
mod answers;
#[cfg(test)]
mod billd;
#[cfg(test)]
mod compare;
#[cfg(test)]
mod endings;
#[cfg(test)]
mod folders;
#[cfg(test)]
mod generator;
#[cfg(test)]
mod lane;
#[cfg(test)]
mod runs;
#[cfg(test)]
mod shop_runs;
#[cfg(test)]
mod undated;
#[cfg(test)]
mod words_line;
