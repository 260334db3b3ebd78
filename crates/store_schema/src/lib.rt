//! The tables of a desk in a schema: found, told apart from an older desk's, and made.
#![tactic(auto)]

mod columns;
mod making;
mod migratable;
mod part;
mod ready;
mod recognize;
mod references;
mod shape;
mod tables;

pub use making::{add_table, make};
pub use migratable::is_migratable;
pub use part::DeskPart;
pub use ready::is_ready;
pub use recognize::shape_of;
pub use references::are_unreferred;
pub use shape::Shape;
