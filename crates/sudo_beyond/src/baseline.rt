//! Policies that others are compared with, one after the other.

ghost use Rattle.std.specs.Prelude.{◌≡◌, IfOk, true};
ghost use Rattle.sudo_decide.specs.declared.decision.Decision.TheVariants.{Deny};
ghost use Rattle.sudo_decide.specs.declared.scope.Scope.{Scope};
ghost use Rattle.sudo_decide.specs.Decision.{Decides};
ghost use Rattle.sudo_beyond.specs.Answer.{AreFew};
ghost use Rattle.sudo_beyond.specs.private.Baselines.{FixesNames};

use crate::size::Size;
use std::alloc::Global;
use std::marker::Model;
use sudo_compiled::{Compiled, compile};
use sudo_decide::{Decision, Invocation};
use sudo_policy::Policy;
use sudo_words::NoMemory;

/// A policy that others are compared with, one after the other. Contracts see it as the list of the
/// policy's entries.
#[derive(Drop)]
pub struct Baseline<'p> {
    policy: &'p Policy,
    compiled: Compiled,
    size: Size,
}

impl<'p> Model for Baseline<'p> {
    ghost use Rattle.std.specs.Prelude.{List};
    ghost use Rattle.sudo_policy.specs.declared.entry.Entry.{Entry};
    ghost use Rattle.sudo_beyond.specs.private.Baselines.{IsReady};

    ghost Value = { List Entry };

    ghost view = { λ b. b.policy.now };

    ghost invariant = { λ b. IsReady b.policy.now b.compiled b.size };
}

impl<'p> Baseline<'p> {
    /// The policy, compiled and measured once.
    pub fn of(alloc: Global, policy: &'p Policy) -> Result<Baseline<'p>, NoMemory>
        ensures { IfOk result (λ b. b ≡ policy.now) }
    {
        let size = Size::of(alloc, policy)?;
        let compiled = compile(alloc, policy)?;
        Ok(Baseline {
            policy,
            compiled,
            size,
        })
    }

    /// The policy.
    pub(crate) fn policy(&self) -> &Policy
        ensures { result.now ≡ self.now }
    {
        self.policy
    }

    /// Whether the baseline refuses the invocation.
    pub(crate) fn refuses(&self, i: &Invocation) -> bool
        ensures { result ≡ true → Decides self.now i.now Deny }
    {
        match self.compiled.decide(i) {
            Decision::Deny => true,
            Decision::Allow | Decision::AllowNoPassword => false,
        }
    }

    /// Whether what stands in both policies makes, for one user, host and target, so few cases that
    /// all are tried.
    pub(crate) fn is_small_beside(&self, alloc: Global, a: &Policy) -> Result<bool, NoMemory>
        ensures { IfOk result
            (λ small. small ≡ true → (s : Scope) → FixesNames s → AreFew s a.now self.now) }
    {
        let own = Size::of(alloc, a)?;
        Ok(own.makes_few_with(&self.size))
    }
}
