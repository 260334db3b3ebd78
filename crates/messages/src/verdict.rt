//! Verdicts.

ghost use Rattle.std.specs.Prelude.{◌≡◌, ◌<◌, ◌≤◌, ◌↔◌, IsTrue, Some, None};
ghost use Rattle.messages.specs.Fields.{IsVerdict};

use crate::kind::VerdictKind;
use std::alloc::AllocError;
use std::marker::Model;
use sudo_words::{Moment, Name};

/// The highest number of a request.
const LAST_NUMBER: u32 = 999_999_999;

/// A verdict on the request that the asker `of` made under the number `no`.
///
/// The number is at most 999,999,999.
#[derive(Debug, Drop)]
pub struct Verdict {
    pub(crate) at: Moment,
    pub(crate) by: Name,
    pub(crate) kind: VerdictKind,
    pub(crate) no: u32,
    pub(crate) of: Name,
}

impl Model for Verdict {
    ghost use Rattle.messages.specs.Fields.{VerdictFields, IsVerdict};

    ghost Value = { VerdictFields };

    ghost use Rattle.messages.specs.Shown.{verdict_fields};

    ghost view = { verdict_fields };

    ghost invariant = { λ v. IsVerdict (verdict_fields v) };
}

impl Verdict {
    /// The verdict that says this; `None` if the number is above 999,999,999.
    pub fn new(kind: VerdictKind, of: Name, no: u32, by: Name, at: Moment) -> Option<Verdict>
        ensures some { no ≤ 999_999_999
            → result ≡ Some (record { at = at; by = by; kind = kind; no = no; of = of }) }
        ensures none { 999_999_999 < no → result ≡ None }
    {
        if no > LAST_NUMBER {
            return None;
        }
        Some(Verdict {
            at,
            by,
            kind,
            no,
            of,
        })
    }

    /// When the verdict was given.
    pub fn at(&self) -> Moment
        ensures value { result ≡ self.now.at }
        ensures verdict { IsVerdict self.now }
    {
        self.at
    }

    /// Who gives the verdict.
    pub fn by(&self) -> &Name
        ensures value { result.now ≡ self.now.by }
        ensures verdict { IsVerdict self.now }
    {
        &self.by
    }

    /// What the verdict does to the request.
    pub fn kind(&self) -> VerdictKind
        ensures value { result ≡ self.now.kind }
        ensures verdict { IsVerdict self.now }
    {
        self.kind
    }

    /// The number of the request.
    pub fn no(&self) -> u32
        ensures value { result ≡ self.now.no }
        ensures verdict { IsVerdict self.now }
    {
        self.no
    }

    /// Who asked.
    pub fn of(&self) -> &Name
        ensures value { result.now ≡ self.now.of }
        ensures verdict { IsVerdict self.now }
    {
        &self.of
    }

    /// Whether the other verdict says the same. It takes no memory.
    pub fn is_same(&self, other: &Verdict) -> bool
        ensures { IsTrue result ↔ (self.now ≡ other.now) }
    {
        self.no() == other.no()
            && self.at() == other.at()
            && self.kind() == other.kind()
            && self.by() == other.by()
            && self.of() == other.of()
    }
}

impl Clone for Verdict {
    ghost is_clone = { λ verdict copy. copy ≡ verdict };

    fn clone(&self) -> Result<Verdict, AllocError> {
        Ok(Verdict {
            at: self.at,
            by: self.by.clone()?,
            kind: self.kind,
            no: self.no,
            of: self.of.clone()?,
        })
    }
}
