//! The formats of a catalog text.

/// The format that a catalog text names by its number.
#[derive(Clone, Copy, Debug, PartialEq, Eq)]
pub enum Format {
    /// 1.
    One,
}
