//! The units in which a text tells the length of a phase.

/// A unit of spans.
#[derive(Clone, Copy, Debug, PartialEq, Eq)]
pub enum SpanUnit {
    Days,
    Weeks,
    Months,
    Years,
    Unlimited,
}
