//! Commands as bytes.

mod bytes;
mod members;
mod refused;
mod texts;
