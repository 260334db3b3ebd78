//! What the tables of a schema are.

/// What a schema has of a desk's tables.
#[derive(Clone, Copy, Debug, PartialEq, Eq)]
pub enum Shape {
    /// No name of a desk's tables, or of an older desk's tables, is used.
    Free,
    /// A desk's five tables.
    Desk,
    /// A desk's five tables, and the `marks` of the older desk that it was.
    Migrated,
    /// An older desk's five tables.
    Old,
    /// Something under a desk's names that is not a desk.
    Other,
}
