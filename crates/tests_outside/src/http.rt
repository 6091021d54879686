//! Connections against worked bytes: which requests and refusals they give, however they are cut, and what is
//! answered on them.

mod responses;
mod streams;
