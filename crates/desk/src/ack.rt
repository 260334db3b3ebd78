//! Acknowledgements.

/// The body was the text of a message that the roster admits, and the message is kept.
#[derive(Clone, Copy, Debug, PartialEq, Eq)]
pub struct Ack;
