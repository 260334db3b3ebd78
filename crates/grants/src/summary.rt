//! What a set of messages says about one request.

ghost use Rattle.std.specs.Prelude.{◌≡◌, ◌≢◌, List, [], ◌∷◌, ◌++◌};
ghost use Rattle.std.specs.Prelude.{IfOk, IfSome, IfNone, OnOk, OnErr};
ghost use Rattle.messages.specs.Fields.{RequestFields};
ghost use Rattle.messages.specs.Names.{SameName, IsAbout, name_of};
ghost use Rattle.messages.specs.declared.message.Message.{Message as AnyMessage};
ghost use Rattle.messages.specs.declared.message.Message.TheVariants as message_of;
ghost use Rattle.grants.specs.Summaries.{AreApprovals, AreVerdictsOn, StandsFor};
ghost use Rattle.grants.specs.Verdicts.{IsDisputed, StandsAlone};

use crate::marks::{Mark, copied, note, push_verdicts, shown};
use messages::{Request, Verdict, VerdictKind};
use std::alloc::{AllocError, Global};
use std::collections::BTreeSet;
use std::marker::Model;
use sudo_words::{Moment, Name, NoMemory};

/// What the messages about one request say: a request of its name, whether there is another of that
/// name, and for each person and kind of verdict every moment at which the person has given one.
#[derive(Debug, Drop)]
pub struct Summary {
    pub(crate) alloc: Global,
    pub(crate) request: Request,
    pub(crate) is_disputed: bool,
    pub(crate) approvals: BTreeSet<Mark>,
    pub(crate) refusals: BTreeSet<Mark>,
    pub(crate) revocations: BTreeSet<Mark>,
}

impl Model for Summary {
    ghost use Rattle.grants.specs.Summaries.{Kept};

    ghost Value = { Kept };

    ghost view = { λ s. record {
      request = s.request;
      is_disputed = s.is_disputed;
      approvals = s.approvals.keys;
      refusals = s.refusals.keys;
      revocations = s.revocations.keys;
    } };
}

impl Summary {
    /// The request, if it is the only one of its name.
    pub fn request(&self) -> Option<&Request>
        ensures value { IfSome result (λ request. request.now ≡ self.now.request) }
        // There is one exactly if no set that the summary stands for has another of the name.
        ensures alone { (set : List AnyMessage) → StandsFor set self.now
            → IfSome result (λ request. StandsAlone set request.now) }
        ensures disputed { (set : List AnyMessage) → StandsFor set self.now
            → IfNone result (IsDisputed set (name_of self.now.request)) }
    {
        if self.is_disputed {
            None
        } else {
            Some(&self.request)
        }
    }

    /// Who has approved and when, whether it counts or not: every approval, by person and then by
    /// moment.
    pub fn approvals(&self) -> Result<Vec<(Name, Moment)>, NoMemory>
        ensures { (set : List AnyMessage) → StandsFor set self.now
            → IfOk result (λ list. AreApprovals set self.now.request list.items) }
    {
        shown(self.alloc, &self.approvals)
    }

    /// Every verdict on the request, whether it counts or not: the approvals, then the refusals,
    /// then the revocations.
    pub fn verdicts(&self) -> Result<Vec<Verdict>, NoMemory>
        ensures { (set : List AnyMessage) → StandsFor set self.now
            → IfOk result (λ list. AreVerdictsOn set self.now.request list.items) }
    {
        let mut list = Vec::new(self.alloc);
        push_verdicts(
            &mut list,
            &self.request,
            VerdictKind::Approve,
            &self.approvals,
        )?;
        push_verdicts(
            &mut list,
            &self.request,
            VerdictKind::Refuse,
            &self.refusals,
        )?;
        push_verdicts(
            &mut list,
            &self.request,
            VerdictKind::Revoke,
            &self.revocations,
        )?;
        Ok(list)
    }
}

impl Clone for Summary {
    ghost is_clone = { λ summary copy. copy ≡ summary };

    fn clone(&self) -> Result<Summary, AllocError> {
        Ok(Summary {
            alloc: self.alloc,
            request: self.request.clone()?,
            is_disputed: self.is_disputed,
            approvals: copied(&self.approvals)?,
            refusals: copied(&self.refusals)?,
            revocations: copied(&self.revocations)?,
        })
    }
}

/// The summary of the request alone.
pub fn ask(alloc: Global, request: &Request) -> Result<Summary, NoMemory>
    ensures stands { IfOk result (StandsFor (message_of.Request request.now ∷ [])) }
    ensures same_request { IfOk result (λ s. s.request ≡ request.now) }
{
    Ok(Summary {
        alloc,
        request: request.clone()?,
        is_disputed: false,
        approvals: BTreeSet::new(alloc),
        refusals: BTreeSet::new(alloc),
        revocations: BTreeSet::new(alloc),
    })
}

/// Adds a request of the same name: a different one disputes it. It takes no memory.
pub fn ask_again(s: &mut Summary, request: &Request)
    requires { SameName request.now s.old.request }
    // If the summary stood for a set, it now stands for the set with the request.
    ensures stands { (set : List AnyMessage) → StandsFor set s.old
        → StandsFor (set ++ message_of.Request request.now ∷ []) s.new }
    // The request that the summary keeps stays the same.
    ensures same_request { s.new.request ≡ s.old.request }
{
    if !s.request.is_same(request) {
        s.is_disputed = true;
    }
}

/// Marks the request as one of two of its name.
fn dispute(s: &mut Summary)
    // If the summary stood for a set, it now stands for the set with any other request of the name.
    ensures stands { (set : List AnyMessage) (p : RequestFields) → SameName p s.old.request → p
        ≢ s.old.request → StandsFor set s.old → StandsFor (set ++ message_of.Request p ∷ []) s.new }
    // The request that the summary keeps stays the same.
    ensures same_request { s.new.request ≡ s.old.request }
{
    s.is_disputed = true;
}

/// The summary of a request, where another request has the same name.
pub fn ask_disputed(alloc: Global, request: &Request) -> Result<Summary, NoMemory>
    // The summary stands for the request and any other request of the same name.
    ensures stands { (p : RequestFields) → SameName p request.now → p ≢ request.now
        → IfOk result (StandsFor (message_of.Request request.now ∷ message_of.Request p ∷ [])) }
    ensures same_request { IfOk result (λ s. s.request ≡ request.now) }
{
    let mut summary = ask(alloc, request)?;
    dispute(&mut summary);
    Ok(summary)
}

/// Adds a verdict about the request.
pub fn apply(s: &mut Summary, verdict: &Verdict) -> Result<(), NoMemory>
    requires { IsAbout s.old.request verdict.now }
    // If the summary stood for a set, it now stands for the set with the verdict.
    ensures ok { (set : List AnyMessage) → StandsFor set s.old
        → OnOk result (StandsFor (set ++ message_of.Verdict verdict.now ∷ []) s.new) }
    // The request that the summary keeps stays the same.
    ensures same_request { s.new.request ≡ s.old.request }
    // If memory runs out, nothing changes.
    ensures err { OnErr result (s.new ≡ s.old) }
{
    match verdict.kind() {
        VerdictKind::Approve => note(&mut s.approvals, verdict.by(), verdict.at()),
        VerdictKind::Refuse => note(&mut s.refusals, verdict.by(), verdict.at()),
        VerdictKind::Revoke => note(&mut s.revocations, verdict.by(), verdict.at()),
    }
}
