//! What became of each verdict: it counts, or why it does not.

ghost use Rattle.std.specs.Prelude.{◌≡◌, [], map, option_map, IfOk};
ghost use Rattle.std.specs.List.{list_any};
ghost use Rattle.std.specs.Str.{bytes_eq};
ghost use Rattle.grants.specs.Verdicts as verdicts;
ghost use Rattle.findings.specs.Effects as effects;

use grants::{Weight, weigh};
use messages::{Verdict, VerdictKind};
use roster::{Ceiling, Roster};
use std::alloc::Global;
use sudo_words::{Moment, Name, NoMemory};

/// What became of a verdict. If the verdict is parked, or its request is disputed or lapsed, that
/// is all; else the effect is the verdict's weight, unless the verdict came too late.
#[derive(Clone, Copy, Debug, PartialEq, Eq)]
pub enum Effect {
    /// The verdict counts, or its author had no right to give it.
    Weighs(Weight),
    /// The verdict would count, but it is a refusal that came after the request was complete.
    Late,
    /// The roster does not admit the verdict's request.
    Lapsed,
    /// There are two requests of the name.
    Disputed,
    /// The verdict's request has not come.
    Parked,
}

impl Effect {
    /// The word for the effect.
    pub fn word(self) -> &'static str
        ensures { result.now ≡ effects.effect_text self }
    {
        match self {
            Effect::Weighs(weight) => weight.word(),
            Effect::Late => "late",
            Effect::Lapsed => "lapsed",
            Effect::Disputed => "disputed",
            Effect::Parked => "parked",
        }
    }
}

/// Whether the verdict counts under the ceiling: by its author's rights at its own moment (NIST SP
/// 800-53 AC-5).
pub fn counts(roster: &Roster, ceiling: &Ceiling, verdict: &Verdict) -> bool
    ensures { result ≡ verdicts.counts roster.now.says ceiling.now verdict.now }
{
    match weigh(roster, ceiling, verdict) {
        Weight::Counts => true,
        Weight::Asker | Weight::Duty | Weight::Conflict => false,
    }
}

/// Whether the verdict is a refusal later than the completion.
fn is_late(complete: Option<Moment>, verdict: &Verdict) -> bool
    ensures { result ≡ effects.is_late complete verdict.now }
{
    match complete {
        Some(complete) => is_refusal(verdict.kind()) && complete < verdict.at(),
        None => false,
    }
}

fn is_refusal(kind: VerdictKind) -> bool
    ensures { result ≡ effects.is_refusal kind }
{
    matches!(kind, VerdictKind::Refuse)
}

fn is_approval(kind: VerdictKind) -> bool
    ensures { result ≡ effects.is_approval kind }
{
    matches!(kind, VerdictKind::Approve)
}

/// What becomes of a verdict of this weight.
fn effect_by(late: bool, weight: Weight) -> Effect
    ensures { result ≡ effects.effect_by late weight }
{
    match weight {
        Weight::Counts if late => Effect::Late,
        weight => Effect::Weighs(weight),
    }
}

/// What becomes of a verdict on a request that is admitted under the ceiling, and was complete at
/// the moment, if it ever was.
pub(crate) fn effect_under(
    roster: &Roster,
    ceiling: Option<&Ceiling>,
    complete: Option<Moment>,
    verdict: &Verdict,
) -> Effect
    ensures { result ≡ effects.effect_under roster.now.says
        (option_map (λ c. c.now) ceiling.entry) complete verdict.now }
{
    match ceiling {
        Some(ceiling) => effect_by(is_late(complete, verdict), weigh(roster, ceiling, verdict)),
        None => Effect::Lapsed,
    }
}

/// Whether a verdict of the list is the person's.
fn is_of_one(verdicts: &[&Verdict], person: &Name) -> bool
    ensures { result ≡ list_any (λ v. bytes_eq v.now.by person.now) verdicts.now }
{
    verdicts.iter().any(|verdict| *verdict.by() == *person)
}

/// Whether one of the verdicts is the person's.
pub(crate) fn has_one(verdicts: &[&Verdict], person: &Name) -> bool
    ensures { result ≡ effects.is_of_one (map (λ v. v.now) verdicts.now) person.now }
{
    is_of_one(verdicts, person)
}

/// Whether the verdict is an approval, and counts.
fn approves(roster: &Roster, ceiling: &Ceiling, verdict: &Verdict) -> bool
    ensures { result ≡ effects.counts_as_approval roster.now.says ceiling.now verdict.now }
{
    is_approval(verdict.kind()) && counts(roster, ceiling, verdict)
}

/// Whether the verdict is an approval that counts, and its author's first.
fn is_first(roster: &Roster, ceiling: &Ceiling, so_far: &[&Verdict], verdict: &Verdict) -> bool
    ensures { result ≡ effects.is_first roster.now.says ceiling.now
        (map (λ v. v.now) so_far.now) verdict.now }
{
    approves(roster, ceiling, verdict) && !has_one(so_far, verdict.by())
}

/// Each person's first approval that counts, in the order of the verdicts.
pub(crate) fn approvals<'v>(
    alloc: Global,
    roster: &Roster,
    ceiling: &Ceiling,
    verdicts: &'v [Verdict],
) -> Result<Vec<&'v Verdict>, NoMemory>
    ensures { IfOk result (λ list. map (λ v. v.now) list.items
        ≡ effects.approvals_after roster.now.says ceiling.now [] verdicts.now) }
{
    let mut first = Vec::new(alloc);
    for verdict in verdicts {
        if is_first(roster, ceiling, first.as_slice(), verdict) {
            first.push(verdict)?;
        }
    }
    Ok(first)
}
