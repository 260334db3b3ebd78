//! The laws of what texts spell, each the contract of a function that does nothing.

// what lines stand for
pub use crate::line_laws::{
    comments, continuations, inheritance, joined_definitions, joined_parts, signs, tags,
};
// worked texts of policies
pub use crate::worked_laws::{worked_commands, worked_refusals, worked_texts, worked_weights};
