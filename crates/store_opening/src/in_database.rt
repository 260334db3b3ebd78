//! What a database is found to keep.

use crate::stored::Stored;

/// A desk's roster text, and its messages.
#[derive(Debug, Drop)]
pub struct Contents {
    /// The text of the roster.
    pub roster: String,
    /// The messages, in an order of the database's own.
    pub messages: Vec<Stored>,
}

/// What a database keeps.
#[derive(Debug, Drop)]
pub enum InDatabase {
    /// No part of a desk.
    Empty,
    /// A desk.
    Desk(Contents),
    /// A desk of schema 1, whose rows are to be rebuilt.
    Old(Contents),
    /// Something under a desk's names that is not a desk.
    NotADesk,
}
