//! What one policy allows beyond another.

ghost use Rattle.std.specs.Prelude.{◌≡◌, IfOk, MatchOption, MatchResult};
ghost use Rattle.sudo_beyond.specs.declared.fault.BeyondFault.TheVariants as fault;
ghost use Rattle.sudo_beyond.specs.Beyond.{LiesBeyond, SomethingBeyond};
ghost use Rattle.sudo_beyond.specs.Answer.{IsFirstBeyond, AreTooMany};

use crate::cases::Cases;
use crate::fault::BeyondFault;
use crate::search::first_gap;
use std::alloc::Global;
use sudo_decide::{Invocation, Scope};
use sudo_policy::Policy;

/// The most cases that are tried.
pub(crate) const MOST_CASES: usize = 1_000_000;

/// An invocation in the scope that the first policy allows and the second refuses (NIST SP 800-53,
/// AC-6(7)).
///
/// `None` says that there is no such invocation, whatever the user, host, target, path, arguments
/// and moment. If there are some, the answer is the first of them among the cases, which stand for
/// all invocations. The comparison fails with `B1 TooManyCases`, before it tries any case, if there
/// are more than 1,000,000 cases.
pub fn beyond(
    alloc: Global,
    scope: &Scope,
    a: &Policy,
    b: &Policy,
) -> Result<Option<Invocation>, BeyondFault>
    // `None` says that nothing lies beyond, and an invocation that is found does lie beyond
    ensures exact { IfOk result (λ found. MatchOption found
        (SomethingBeyond scope.now a.now b.now → ⊥) (LiesBeyond scope.now a.now b.now)) }
    // an answer is the first gap among at most 1,000,000 cases, or that there is no gap, and
    // `TooManyCases` comes only if there are more cases
    ensures answer { MatchResult result (IsFirstBeyond scope.now a.now b.now)
        (λ e. e ≡ fault.TooManyCases → AreTooMany scope.now a.now b.now) }
{
    let cases = Cases::of(alloc, scope, a, b)?;
    if cases.count() > MOST_CASES {
        return Err(BeyondFault::TooManyCases);
    }
    Ok(first_gap(alloc, a, b, &cases)?)
}
