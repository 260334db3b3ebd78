//! Days of the calendar.

ghost use Rattle.std.specs.Prelude.{◌≡◌, ℕ, pos, IfSome, Some};
ghost use Rattle.sudo_words.specs.Moment.{IsDateText, IsDay};

use crate::parts::date;
use std::marker::Model;

/// The last day of 2099.
const LAST: u32 = 47_481;

/// A day of UTC, which contracts see as its number: 1970-01-01 is 0.
#[derive(Clone, Copy, Debug, PartialEq, Eq, PartialOrd, Ord)]
pub struct Day {
    number: u32,
}

impl Model for Day {
    ghost use Rattle.std.specs.Prelude.{ℕ};

    ghost Value = { ℕ };

    ghost view = { λ d. d.number };

    ghost inverse = { λ n. record { number = n } };
}

impl Day {
    /// The day of this number.
    pub fn from_number(number: u32) -> Day
        ensures { result ≡ number }
    {
        Day { number }
    }

    /// The number of days from 1970-01-01 to this day.
    pub fn number(&self) -> u32
        ensures { result ≡ self.now }
    {
        self.number
    }

    /// The day from 1970-01-01 to 2099-12-31 that the text spells as `yyyymmdd`, or `None` if it
    /// spells no such day. It takes no memory.
    pub fn read(text: &str) -> Option<Day>
        ensures found { IfSome result (λ d. IsDay d × IsDateText text.now (pos d)) }
        ensures only { (d : ℕ) → IsDay d → IsDateText text.now (pos d) → result ≡ Some d }
    {
        match u32::try_from(date(text.as_bytes())?) {
            Ok(number) if number <= LAST => Some(Day { number }),
            _ => None,
        }
    }
}
