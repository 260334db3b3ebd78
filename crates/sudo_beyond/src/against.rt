//! Whether a policy allows anything beyond a baseline.

ghost use Rattle.std.specs.Prelude.{◌≡◌, IfErr, IfOk, IfSome, true};
ghost use Rattle.std.specs.Bool.{Decides as Tells};
ghost use Rattle.sudo_beyond.specs.declared.fault.BeyondFault.TheVariants as fault;
ghost use Rattle.sudo_beyond.specs.Beyond.{SomethingBeyond};
ghost use Rattle.sudo_beyond.specs.Answer.{AreFew, AreTooMany};
ghost use Rattle.sudo_beyond.specs.private.Baselines.{FixesNames, IsAllowedIn};

use crate::baseline::Baseline;
use crate::compare::beyond;
use crate::fault::BeyondFault;
use std::alloc::Global;
use sudo_decide::{Invocation, Scope};
use sudo_policy::{Draft, Policy};
use sudo_words::NoMemory;

/// Whether the scope fixes the user, the host and the target.
fn fixes_names(scope: &Scope) -> bool
    ensures { result ≡ true → FixesNames scope.now }
{
    scope.user.is_some() && scope.host.is_some() && scope.runas.is_some()
}

/// Whether the scope fixes the names, and what stands in both policies makes so few cases that all
/// are tried.
fn are_surely_few(
    alloc: Global,
    scope: &Scope,
    a: &Policy,
    b: &Baseline<'_>,
) -> Result<bool, NoMemory>
    ensures { IfOk result (λ few. few ≡ true → AreFew scope.now a.now b.now) }
{
    if fixes_names(scope) {
        b.is_small_beside(alloc, a)
    } else {
        Ok(false)
    }
}

/// An invocation in the scope that the policy allows, if there is one and the cases are not too
/// many to find it.
fn allowed(alloc: Global, scope: &Scope, a: &Policy) -> Result<Option<Invocation>, NoMemory>
    ensures { IfOk result (λ found. IfSome found (IsAllowedIn scope.now a.now)) }
{
    let nothing = Policy::of(Draft::new(alloc));
    match beyond(alloc, scope, a, &nothing) {
        Ok(found) => Ok(found),
        Err(BeyondFault::TooManyCases) => Ok(None),
        Err(BeyondFault::NoMemory) => Err(NoMemory),
    }
}

/// Whether the baseline refuses the first invocation in the scope that the policy is found to
/// allow.
fn is_shown(alloc: Global, scope: &Scope, a: &Policy, b: &Baseline<'_>) -> Result<bool, NoMemory>
    ensures { IfOk result (λ shown. shown ≡ true → SomethingBeyond scope.now a.now b.now) }
{
    match allowed(alloc, scope, a)? {
        Some(i) => Ok(b.refuses(&i)),
        None => Ok(false),
    }
}

/// Whether the cases are surely few, and an invocation that lies beyond the baseline is found
/// without gathering the baseline's cases.
fn is_seen(alloc: Global, scope: &Scope, a: &Policy, b: &Baseline<'_>) -> Result<bool, NoMemory>
    ensures { IfOk result (λ seen. seen ≡ true
        → AreFew scope.now a.now b.now × SomethingBeyond scope.now a.now b.now) }
{
    if are_surely_few(alloc, scope, a, b)? {
        is_shown(alloc, scope, a, b)
    } else {
        Ok(false)
    }
}

/// Whether one of the cases is a gap.
fn is_found(alloc: Global, scope: &Scope, a: &Policy, b: &Policy) -> Result<bool, BeyondFault>
    ensures told { IfOk result
        (λ yes. AreFew scope.now a.now b.now × Tells yes (SomethingBeyond scope.now a.now b.now)) }
    ensures many { IfErr result (λ e. e ≡ fault.TooManyCases → AreTooMany scope.now a.now b.now) }
{
    match beyond(alloc, scope, a, b) {
        Ok(Some(_)) => Ok(true),
        Ok(None) => Ok(false),
        Err(e) => Err(e),
    }
}

/// Whether there is any invocation in the scope that the policy allows and the baseline refuses,
/// whatever its user, host, target, path, arguments and moment (NIST SP 800-53, AC-6(7)). It fails
/// with `B1 TooManyCases` where `beyond` does.
///
/// Usually the baseline refuses the first invocation that the policy allows. Then, if the cases are
/// surely few, none of the baseline's cases is gathered.
pub fn is_anything_beyond(
    alloc: Global,
    scope: &Scope,
    a: &Policy,
    b: &Baseline<'_>,
) -> Result<bool, BeyondFault>
    ensures told { IfOk result
        (λ yes. AreFew scope.now a.now b.now × Tells yes (SomethingBeyond scope.now a.now b.now)) }
    ensures many { IfErr result (λ e. e ≡ fault.TooManyCases → AreTooMany scope.now a.now b.now) }
{
    if is_seen(alloc, scope, a, b)? {
        return Ok(true);
    }
    is_found(alloc, scope, a, b.policy())
}
