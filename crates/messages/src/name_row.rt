//! What is kept for a name under which somebody asks.

use crate::request::Request;

/// The row of a name: a request with this name, and whether there is another.
#[derive(Debug, Drop)]
pub struct NameRow {
    /// A request with the name.
    pub request: Request,
    /// Whether another request has the name.
    pub is_disputed: bool,
}
