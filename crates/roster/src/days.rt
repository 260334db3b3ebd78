//! The days on which a duty is held.

ghost use Rattle.std.specs.Prelude.{◌≡◌};
ghost use Rattle.roster.specs.Relations as relations;
ghost use Rattle.roster.specs.Rules as rules;

use sudo_words::Day;

/// The number of the day 2099-12-31.
const LAST: u32 = 47_481;

/// The days on which a duty is held, in UTC.
#[derive(Clone, Copy, Debug, PartialEq, Eq)]
pub enum Days {
    /// Every day.
    Always,
    /// From the first of the two days to the second, both included.
    Between(Day, Day),
}

impl Days {
    /// Whether the day is one of these days. It takes no memory.
    pub fn hold(&self, day: Day) -> bool
        ensures { result ≡ relations.hold self.now day }
    {
        match self {
            Days::Always => true,
            Days::Between(from, until) => *from <= day && day <= *until,
        }
    }

    /// Whether the days are every day, or from a day to the same or a later one, up to 2099-12-31.
    pub(crate) fn are_in_range(&self) -> bool
        ensures { result ≡ rules.are_in_range self.now }
    {
        match self {
            Days::Always => true,
            Days::Between(from, until) => *from <= *until && until.number() <= LAST,
        }
    }
}
