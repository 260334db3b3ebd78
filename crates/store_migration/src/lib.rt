//! An older desk's database, made one of today in one commit.
#![tactic(auto)]

mod clearing;
mod commit;
mod moving;
mod statements;

pub use commit::migrate;
