//! Why an approval does not count.

ghost use Rattle.std.specs.Prelude.{◌≡◌};
ghost use Rattle.review.specs.Barred as barred;
ghost use Rattle.review.specs.private.Whys as whys;

use grants::{Weight, weight_of};
use messages::VerdictKind;
use roster::{Ceiling, Roster};
use sudo_words::{Moment, Name};

/// Why a person is not eligible to approve at a moment: the first of these that applies.
#[derive(Clone, Copy, Debug, PartialEq, Eq)]
pub(crate) enum Reason {
    /// The person asked.
    Asker,
    /// The person does not hold the approving duty.
    Duty,
    /// The person holds a duty that conflicts with the approving duty.
    Conflict,
}

impl Reason {
    /// How the reason is written.
    pub(crate) fn text(self) -> &'static str
        ensures { result.now ≡ barred.reason_text self }
    {
        match self {
            Reason::Asker => "asker",
            Reason::Duty => "duty",
            Reason::Conflict => "conflict",
        }
    }
}

/// The reason of a weight; `None` for a verdict that counts.
fn reason_of(weight: Weight) -> Option<Reason>
    ensures { result ≡ whys.reason_of weight }
{
    match weight {
        Weight::Counts => None,
        Weight::Asker => Some(Reason::Asker),
        Weight::Duty => Some(Reason::Duty),
        Weight::Conflict => Some(Reason::Conflict),
    }
}

/// Why the person may not approve at the moment what the asker asked for under the ceiling; `None`
/// if the person may (NIST SP 800-53 AC-5).
pub(crate) fn why_barred(
    roster: &Roster,
    ceiling: &Ceiling,
    asker: &Name,
    person: &Name,
    at: Moment,
) -> Option<Reason>
    ensures { result ≡ barred.reason roster.now.says ceiling.now asker.now person.now at }
{
    reason_of(weight_of(roster, ceiling, VerdictKind::Approve, person, asker, at))
}
