//! The digests of what a desk was opened with.

ghost use Rattle.std.specs.Prelude.{◌≡◌, ◌++◌, IfOk, IfSome, OnOk, string_bytes};
ghost use Rattle.desk.specs.Digests.{digest_text, digests_text};

use crate::desk::Desk;
use desk_store::Keeper;
use outcomes::Base;
use roster::Roster;
use sha2::{Digest, Sha256};
use std::alloc::{AllocError, Global};
use sudo_words::NoMemory;

impl<K: Keeper> Desk<K> {
    /// The SHA-256 digests of the roster's text and of the base's canonical text, with a space
    /// between them. The first call makes them, and they are kept from then on: no message changes
    /// them.
    pub fn digests(&mut self) -> Result<String, NoMemory>
        ensures digests { IfOk result
            (λ s. string_bytes s ≡ digests_text self.old.roster.text self.old.base) }
        ensures same { self.new ≡ self.old }
    {
        let kept = self.digests.take();
        let digests = kept_or_made(self.alloc, kept, &self.roster, &mut self.base)?;
        let copy = String::from_str(self.alloc, digests.as_str());
        self.digests = Some(digests);
        Ok(copy?)
    }
}

/// Appends the SHA-256 digest of the text.
#[tactic(auto, unfolding(crate::specs::Digests::digest_text))]
fn push_digest(alloc: Global, out: &mut String, text: &str) -> Result<(), AllocError>
    ensures { OnOk result (string_bytes out.new ≡ string_bytes out.old ++ digest_text text.now) }
{
    let digest = hex::encode(alloc, Sha256::digest(text.as_bytes()))?;
    out.push_str(digest.as_str())
}

/// The digests of the roster's text and of the base's canonical text.
#[tactic(auto, unfolding(crate::specs::Digests::digests_text))]
fn made(alloc: Global, roster: &Roster, base: &mut Base) -> Result<String, NoMemory>
    ensures made { IfOk result
        (λ s. string_bytes s ≡ digests_text roster.now.text base.old) }
    ensures base { base.new ≡ base.old }
{
    let canonical = base.text(alloc)?;
    let mut out = String::new(alloc);
    push_digest(alloc, &mut out, roster.text())?;
    out.push_str(" ")?;
    push_digest(alloc, &mut out, canonical.as_str())?;
    Ok(out)
}

/// The digests: those that are kept, or else they are made.
fn kept_or_made(
    alloc: Global,
    kept: Option<String>,
    roster: &Roster,
    base: &mut Base,
) -> Result<String, NoMemory>
    requires { IfSome kept (λ text. string_bytes text ≡ digests_text roster.now.text base.old) }
    ensures made { IfOk result
        (λ s. string_bytes s ≡ digests_text roster.now.text base.old) }
    ensures base { base.new ≡ base.old }
{
    match kept {
        Some(text) => Ok(text),
        None => made(alloc, roster, base),
    }
}
