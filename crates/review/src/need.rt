//! Whether a grant is needed beside a base.

ghost use Rattle.std.specs.Prelude.{◌≡◌, [], All, IfOk, true};
ghost use Rattle.sudo_words.specs.Word.{is_host_name};
ghost use Rattle.messages.specs.Fields.{IsRequest};
ghost use Rattle.review.specs.Needs as needs;
ghost use Rattle.review.specs.private.Reporting.{IsSpan, over_both};

use grants::{Window, grant_rules, host_policy};
use messages::Request;
use std::alloc::Global;
use sudo_beyond::{Baseline, BeyondFault, is_anything_beyond};
use sudo_decide::Scope;
use sudo_policy::{Draft, Policy};
use sudo_words::{HostName, NoMemory};

/// Whether a grant is needed beside a base.
#[derive(Clone, Copy, Debug, PartialEq, Eq)]
pub(crate) enum Need {
    /// On some host the grant gives more than the base.
    Needed,
    /// On each host the base gives all that the grant gives.
    Needless,
    /// On some host there are too many cases to tell, and on none is the grant known to give more.
    Unknown,
}

impl Need {
    /// How the need is written.
    pub(crate) fn text(self) -> &'static str
        ensures { result.now ≡ needs.need_text self }
    {
        match self {
            Need::Needed => "needed",
            Need::Needless => "needless",
            Need::Unknown => "unknown",
        }
    }

    /// The combined need over two groups of hosts.
    fn and(self, other: Need) -> Need
        ensures { result ≡ over_both self other }
    {
        match (self, other) {
            (Need::Needed, _) | (_, Need::Needed) => Need::Needed,
            (Need::Unknown, _) | (_, Need::Unknown) => Need::Unknown,
            (Need::Needless, Need::Needless) => Need::Needless,
        }
    }
}

/// The policy without entries.
pub(crate) fn no_policy(alloc: Global) -> Policy
    ensures { result ≡ [] }
{
    Policy::of(Draft::new(alloc))
}

/// The user, the host and the target of the grant.
fn grant_scope(request: &Request, host: &HostName) -> Result<Scope, NoMemory>
    ensures { IfOk result (λ s. s ≡ needs.grant_scope request.now host.now) }
{
    Ok(Scope {
        user: Some(request.by().clone()?),
        host: Some(host.clone()?),
        runas: Some(request.runas().clone()?),
    })
}

/// The grant's rules on the host, as a policy of their own.
fn own_policy(
    alloc: Global,
    empty: &Policy,
    request: &Request,
    window: &Window,
    host: &HostName,
) -> Result<Policy, NoMemory>
    requires empty { empty.now ≡ [] }
    requires request { IsRequest request.now }
    requires window { IsSpan window.now }
    requires host { is_host_name host.now ≡ true }
    ensures { IfOk result (λ p. p ≡ needs.own_policy request.now window.now host.now) }
{
    let rules = grant_rules(alloc, host, request, *window)?;
    match host_policy(alloc, empty, rules) {
        Ok(policy) => Ok(policy),
        Err(_) => Err(NoMemory),
    }
}

/// Whether the first policy is needed beside the second, in the scope.
fn need_beyond(alloc: Global, scope: &Scope, a: &Policy, b: &Baseline<'_>) -> Result<Need, NoMemory>
    ensures { IfOk result (needs.IsNeedBeyond scope.now a.now b.now) }
{
    match is_anything_beyond(alloc, scope, a, b) {
        Ok(true) => Ok(Need::Needed),
        Ok(false) => Ok(Need::Needless),
        Err(BeyondFault::TooManyCases) => Ok(Need::Unknown),
        Err(BeyondFault::NoMemory) => Err(NoMemory),
    }
}

/// Whether the grant is needed on the host.
fn need_on(
    alloc: Global,
    base: &Baseline<'_>,
    empty: &Policy,
    request: &Request,
    window: &Window,
    host: &HostName,
) -> Result<Need, NoMemory>
    requires empty { empty.now ≡ [] }
    requires request { IsRequest request.now }
    requires window { IsSpan window.now }
    requires host { is_host_name host.now ≡ true }
    ensures { IfOk result (needs.IsNeedOn base.now request.now window.now host.now) }
{
    let own = own_policy(alloc, empty, request, window, host)?;
    let scope = grant_scope(request, host)?;
    need_beyond(alloc, &scope, &own, base)
}

/// Whether the grant is needed on these hosts. Once it is needed on one, the rest are passed over.
fn need_over(
    alloc: Global,
    base: &Baseline<'_>,
    empty: &Policy,
    request: &Request,
    window: &Window,
    hosts: &[HostName],
) -> Result<Need, NoMemory>
    requires empty { empty.now ≡ [] }
    requires request { IsRequest request.now }
    requires window { IsSpan window.now }
    requires hosts { All (λ host. is_host_name host ≡ true) hosts.now }
    ensures { IfOk result
        (needs.IsNeedOver (needs.IsNeedOn base.now request.now window.now) hosts.now) }
{
    let mut need = Need::Needless;
    for host in hosts {
        let here = need_on(alloc, base, empty, request, window, host)?;
        match here {
            Need::Needed => return Ok(Need::Needed),
            Need::Needless | Need::Unknown => need = need.and(here),
        }
    }
    Ok(need)
}

/// Whether the grant is needed beside the base: whether the grant gives more on one of its hosts.
pub(crate) fn need_of(
    alloc: Global,
    base: &Baseline<'_>,
    empty: &Policy,
    request: &Request,
    window: &Window,
) -> Result<Need, NoMemory>
    requires empty { empty.now ≡ [] }
    requires window { IsSpan window.now }
    ensures { IfOk result (needs.IsNeed base.now request.now window.now) }
{
    need_over(alloc, base, empty, request, window, request.hosts())
}
