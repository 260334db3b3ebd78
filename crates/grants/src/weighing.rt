//! What a verdict weighs: it counts, or why it does not.

ghost use Rattle.std.specs.Prelude.{◌≡◌};
ghost use Rattle.grants.specs.Weights as weights;

use messages::{Verdict, VerdictKind};
use roster::{Ceiling, Roster};
use sudo_words::{Moment, Name};

/// What a verdict weighs under a ceiling: it counts, or the first of the reasons why it does not.
#[derive(Clone, Copy, Debug, PartialEq, Eq)]
pub enum Weight {
    /// The verdict counts.
    Counts,
    /// The verdict's author is the asker.
    Asker,
    /// The verdict's author did not hold the approving duty on the day of the verdict's moment.
    Duty,
    /// On that day the verdict's author held a duty that conflicts with the approving duty.
    Conflict,
}

impl Weight {
    /// The word for the weight.
    pub fn word(self) -> &'static str
        ensures { result.now ≡ weights.weight_text self }
    {
        match self {
            Weight::Counts => "counts",
            Weight::Asker => "asker",
            Weight::Duty => "duty",
            Weight::Conflict => "conflict",
        }
    }
}

/// What the person's approval or refusal at the moment weighs. Whether it counts is asked first,
/// which takes one look at the person's duties.
fn answer_weight(
    roster: &Roster,
    ceiling: &Ceiling,
    person: &Name,
    asker: &Name,
    at: Moment,
) -> Weight
    ensures { result
        ≡ weights.answer_weight roster.now.says ceiling.now person.now asker.now at }
{
    if roster.eligible(person, asker, ceiling, at) {
        Weight::Counts
    } else if person == asker {
        Weight::Asker
    } else if !roster.holds(person, ceiling.approve(), at) {
        Weight::Duty
    } else {
        Weight::Conflict
    }
}

/// What the person's revocation at the moment weighs.
fn revocation_weight(
    roster: &Roster,
    ceiling: &Ceiling,
    person: &Name,
    asker: &Name,
    at: Moment,
) -> Weight
    ensures { result
        ≡ weights.revocation_weight roster.now.says ceiling.now person.now asker.now at }
{
    if roster.may_revoke(person, asker, ceiling, at) {
        Weight::Counts
    } else {
        Weight::Duty
    }
}

/// What the person's verdict of the kind weighs, given at the moment on a request that the asker
/// made under the ceiling (NIST SP 800-53 AC-5).
pub fn weight_of(
    roster: &Roster,
    ceiling: &Ceiling,
    kind: VerdictKind,
    person: &Name,
    asker: &Name,
    at: Moment,
) -> Weight
    ensures { result
        ≡ weights.weight_of roster.now.says ceiling.now kind person.now asker.now at }
{
    match kind {
        VerdictKind::Approve | VerdictKind::Refuse => {
            answer_weight(roster, ceiling, person, asker, at)
        }
        VerdictKind::Revoke => revocation_weight(roster, ceiling, person, asker, at),
    }
}

/// What the verdict weighs under the ceiling, by its author's rights at its own moment.
pub fn weigh(roster: &Roster, ceiling: &Ceiling, verdict: &Verdict) -> Weight
    ensures { result ≡ weights.weighed roster.now.says ceiling.now verdict.now }
{
    let (kind, person, asker) = (verdict.kind(), verdict.by(), verdict.of());
    weight_of(roster, ceiling, kind, person, asker, verdict.at())
}
