//! Catalogs that no text can say, and what billing asks of a version, question by question.

mod by_hand;
mod catalogs;
mod lookups;
