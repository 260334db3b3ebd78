//! One host's policy.

ghost use Rattle.std.specs.Prelude.{◌≡◌, ◌<◌, ◌≤◌, Err, MatchResult, length};
ghost use Rattle.std.specs.List.{AllByRecursion};
ghost use Rattle.sudo_policy.specs.Reading.{with_rules};
ghost use Rattle.sudo_policy.specs.declared.fault.FaultKind.TheVariants.{Line};
ghost use Rattle.sudo_policy.specs.declared.fault.LineFault.TheVariants.{NoMemory};
ghost use Rattle.grants.specs.Bases.{FitsBase};
ghost use Rattle.grants.specs.GrantRules.{IsGrantRule};
ghost use Rattle.grants.specs.HostFaults.{most_lines};
ghost use Rattle.grants.specs.declared.host_fault.HostFault.TheVariants as fault;

use crate::host_fault::HostFault;
use std::alloc::Global;
use sudo_policy::{FaultKind, LineFault, Policy, Rule, extend};

/// The most lines of a host's file after those of its base, each that of a grant's rule.
pub const MOST_LINES: usize = 8_192;

/// Why the rules of grants were not put after a base.
fn reason(kind: FaultKind) -> HostFault
    ensures { kind ≡ Line NoMemory → result ≡ fault.NoMemory }
{
    match kind {
        FaultKind::Line(LineFault::NoMemory) => HostFault::NoMemory,
        _ => HostFault::TooManyRules,
    }
}

/// The base's entries, then the rules of grants: `TooManyRules` if there are more than 8,192 of
/// these.
pub fn host_policy(alloc: Global, base: &Policy, rules: Vec<Rule>) -> Result<Policy, HostFault>
    requires fits { FitsBase base.now }
    requires grants { AllByRecursion IsGrantRule rules.items }
    ensures few { length rules.items ≤ most_lines
        → MatchResult result (λ p. p ≡ with_rules base.now rules.items) (λ e. e ≡ fault.NoMemory) }
    ensures many { most_lines < length rules.items → result ≡ Err fault.TooManyRules }
{
    if rules.len() > MOST_LINES {
        return Err(HostFault::TooManyRules);
    }
    match extend(alloc, base, rules) {
        Ok(policy) => Ok(policy),
        Err(fault) => Err(reason(fault.kind)),
    }
}
