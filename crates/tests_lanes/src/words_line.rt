//! The command lines of `bill` and `serve`, which no run shows yet, and the ends of a number.

mod members;
mod read;
mod refused;
mod said;
