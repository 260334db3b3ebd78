//! What a keeper is found to keep.

use outcomes::Gathered;

/// What a keeper keeps.
#[derive(Drop)]
pub enum Found {
    /// No part of a desk.
    Empty,
    /// A desk.
    Desk(FoundDesk),
    /// A desk of an older form, which is to be rebuilt.
    OldDesk,
    /// Something under a desk's names that is not a desk.
    NotADesk,
}

/// A desk that a keeper keeps.
#[derive(Drop)]
pub struct FoundDesk {
    /// The text of the desk's roster.
    pub roster: String,
    /// What is known of the desk's messages, if the look has gathered it.
    pub known: Option<Gathered>,
    /// How many messages there are, if the look has counted them.
    pub count: Option<usize>,
}
