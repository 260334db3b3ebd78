//! What a policy decides of an invocation: the last match is used (sudoers(5)).
#![tactic(auto)]

mod alias_laws;
mod answer;
mod decision;
mod invocation;
mod kind;
pub mod laws;
mod policy;
mod policy_laws;
mod rule;
mod scope;

pub use decision::Decision;
pub use invocation::Invocation;
pub use policy::decide;
pub use rule::is_within;
pub use scope::Scope;
