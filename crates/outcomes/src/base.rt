//! The base of hosts' files, with its text.

ghost use Rattle.std.specs.Prelude.{◌≡◌, IfOk, IfSome, string_bytes};
ghost use Rattle.sudo_policy.specs.Printing.{canon};

use std::alloc::Global;
use std::marker::Model;
use sudo_policy::{Policy, print_policy};
use sudo_words::NoMemory;

/// A base policy, and its canonical text once that has been printed. Contracts see the policy.
#[derive(Drop)]
pub struct Base {
    policy: Policy,
    text: Option<String>,
}

impl Model for Base {
    ghost use Rattle.std.specs.Prelude.{◌≡◌, List, IfSome, string_bytes};
    ghost use Rattle.sudo_policy.specs.declared.entry.Entry.{Entry};
    ghost use Rattle.sudo_policy.specs.Printing.{canon};

    ghost Value = { List Entry };

    ghost view = { λ b. b.policy };

    ghost invariant = { λ b. IfSome b.text (λ text. string_bytes text ≡ canon b.policy) };
}

impl Base {
    /// The policy as a base, whose text is not printed yet.
    pub fn new(policy: Policy) -> Base
        ensures { result ≡ policy }
    {
        Base { policy, text: None }
    }

    /// The policy, as it was handed in.
    pub fn policy(&self) -> &Policy
        ensures { result.now ≡ self.now }
    {
        &self.policy
    }

    /// A copy of the policy's canonical text. The first call prints the text, and it is kept from
    /// then on: no message changes it.
    pub fn text(&mut self, alloc: Global) -> Result<String, NoMemory>
        ensures text { IfOk result (λ s. string_bytes s ≡ canon self.old) }
        ensures same { self.new ≡ self.old }
    {
        let text = kept_or_printed(alloc, self.text.take(), &self.policy)?;
        let copy = String::from_str(alloc, text.as_str());
        self.text = Some(text);
        Ok(copy?)
    }
}

/// The policy's canonical text: the kept one, or else one that is printed now.
fn kept_or_printed(alloc: Global, kept: Option<String>, policy: &Policy) -> Result<String, NoMemory>
    requires { IfSome kept (λ text. string_bytes text ≡ canon policy.now) }
    ensures { IfOk result (λ text. string_bytes text ≡ canon policy.now) }
{
    match kept {
        Some(text) => Ok(text),
        None => print_policy(alloc, policy),
    }
}
