//! Whose verdicts of a kind count.

ghost use Rattle.std.specs.Prelude.{◌≡◌};
ghost use Rattle.grants.specs.private.Voters.{counting};

use crate::marks::Mark;
use crate::weighing::{Weight, weight_of};
use messages::VerdictKind;
use roster::{Ceiling, Roster};
use sudo_words::Name;

/// The people whose verdicts of one kind count on what someone asked for under a ceiling.
#[derive(Clone, Copy)]
pub(crate) struct Voters<'a> {
    pub(crate) roster: &'a Roster,
    pub(crate) ceiling: &'a Ceiling,
    pub(crate) kind: VerdictKind,
    pub(crate) asker: &'a Name,
}

impl<'a> Voters<'a> {
    /// Whether the verdict that the mark keeps counts: by its author's rights at its own moment
    /// (NIST SP 800-53 AC-5).
    pub(crate) fn count(&self, mark: &Mark) -> bool
        ensures { result ≡ counting self.now mark.now }
    {
        let (person, at) = (&mark.person, mark.at);
        weight_of(self.roster, self.ceiling, self.kind, person, self.asker, at) == Weight::Counts
    }
}
