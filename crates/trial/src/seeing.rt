//! What is found in a keeper, and what the same call comes to there.

use crate::calls::{Call, Ended, kept_at, make_call};
use crate::states::State;
use crate::trouble::Trouble;
use desk::Keeper;
use std::alloc::Global;

/// What is found in a keeper, before and after a call that is made over it without a fault.
#[derive(Clone, Copy, PartialEq, Eq)]
pub struct Seen {
    pub found: State,
    pub again: Ended,
    pub then: State,
}

/// What the keeper keeps, before and after the call. The keeper is one without faults.
pub fn seen_over<K: Keeper + Drop>(alloc: Global, keeper: K, call: Call) -> Result<Seen, Trouble> {
    let (found, keeper) = kept_at(alloc, keeper);
    let (again, keeper) = make_call(alloc, call, keeper);
    let (then, keeper) = kept_at(alloc, keeper);
    drop(keeper);
    Ok(Seen {
        found: found?,
        again: again?,
        then: then?,
    })
}
