//! Moments of time, as texts and as counts of seconds.

ghost use Rattle.std.specs.Prelude.{◌≡◌, ℕ, ◌<◌, ◌≤◌, ◌+◌, pos, ◌+ℤ◌, ◌-ℤ◌, ◌*ℤ◌, IfSome, Some};
ghost use Rattle.sudo_words.specs.Moment.{IsMoment, day_of, stamp};

use crate::civil::date_at;
use crate::day::Day;
use crate::parts::{clock, date, offset, split_offset};
use std::marker::Model;
use std::{fmt, str};

/// The last second of 2099.
const LAST: u32 = 4_102_444_799;

/// The length of `yyyymmdd`.
const DATE_LENGTH: usize = 8;

/// The length of the canonical text.
const STAMP_LENGTH: usize = 15;

/// A moment: a whole second of UTC in the years 1970 to 2099, without leap seconds.
///
/// A moment is read from Generalized Time (RFC 4517, section 3.3.13) in one of the forms
/// `yyyymmddHHMMSSZ`, `yyyymmddHHMMZ` and `yyyymmddHHZ`, and printed in the first, which is
/// canonical. `+hhmm` or `-hhmm` may stand in place of `Z`, for a clock that is so far ahead of UTC
/// or behind it. Fractions and offsets in hours alone are also part of that syntax, but not read.
#[derive(Clone, Copy, Debug, PartialEq, Eq, PartialOrd, Ord)]
pub struct Moment {
    secs: u32,
}

impl Model for Moment {
    ghost use Rattle.std.specs.Prelude.{ℕ};
    ghost use Rattle.sudo_words.specs.Moment.{IsMoment};

    ghost Value = { ℕ };

    ghost view = { λ m. m.secs };

    ghost invariant = { λ m. IsMoment m.secs };

    ghost inverse = { λ t. record { secs = t } };
}

impl Moment {
    ghost use Rattle.sudo_words.specs.Moment.{IsMoment, IsStamp, SpellsMoment};

    /// The moment that the text spells, or `None` where it spells none. It takes no memory.
    pub fn read(text: &str) -> Option<Moment>
        ensures found { IfSome result (λ t. SpellsMoment text.now t) }
        ensures only { (t : ℕ) → SpellsMoment text.now t → result ≡ Some t }
    {
        let (front, rest) = text.as_bytes().split_at_checked(DATE_LENGTH)?;
        let (time, end) = split_offset(rest)?;
        moment_at(date(front)?, clock(time)?, offset(end)?)
    }

    /// The moment whose canonical text this is, or `None` if no moment has this text. Reading takes
    /// no memory.
    pub fn read_stamp(text: &str) -> Option<Moment>
        ensures found { IfSome result (λ t. IsStamp text.now t) }
        ensures only { (t : ℕ) → IsStamp text.now t → result ≡ Some t }
    {
        if text.len() != STAMP_LENGTH || !text.as_bytes().ends_with(b"Z") {
            return None;
        }
        Moment::read(text)
    }

    /// The seconds since 1970-01-01T00:00:00Z.
    pub fn secs(&self) -> u64
        ensures value { result ≡ self.now }
        ensures moment { IsMoment result }
    {
        u64::from(self.secs)
    }

    /// The day that the moment is in.
    pub fn day(&self) -> Day
        ensures { result ≡ day_of self.now }
    {
        Day::from_number(self.secs / 86_400)
    }

    /// The moment so many seconds after 1970-01-01T00:00:00Z, or `None` past the year 2099.
    pub fn from_secs(secs: u64) -> Option<Moment>
        ensures found { IfSome result (λ t. (t ≡ secs) × IsMoment secs) }
        ensures only { IsMoment secs → result ≡ Some secs }
    {
        match u32::try_from(secs) {
            Ok(secs) if secs <= LAST => Some(Moment { secs }),
            _ => None,
        }
    }
}

/// The moment of a time so many seconds into a day, by a clock so many minutes ahead of UTC.
fn moment_at(day: i32, seconds: u32, offset: i32) -> Option<Moment>
    ensures found { IfSome result
        (λ t. IsMoment t × (pos t ≡ pos 86_400 *ℤ day +ℤ pos seconds -ℤ pos 60 *ℤ offset)) }
    ensures only { (t : ℕ) → IsMoment t
        → pos t ≡ pos 86_400 *ℤ day +ℤ pos seconds -ℤ pos 60 *ℤ offset → result ≡ Some t }
{
    let secs = 86_400 * i64::from(day) + i64::from(seconds) - 60 * i64::from(offset);
    match u64::try_from(secs) {
        Ok(secs) => Moment::from_secs(secs),
        Err(_) => None,
    }
}

/// The digit of a number below 10.
fn digit(number: u8) -> u8
    requires { number < 10 }
    ensures { result ≡ 48 + number }
{
    b'0' + number
}

/// The bytes of the canonical text: four digits for the year, two each for the month, the day and
/// the parts of the time of day, and `Z`.
fn stamp_bytes(moment: Moment) -> [u8; 15]
    ensures { result ≡ stamp moment }
{
    let secs = moment.secs;
    let civil = date_at(secs / 86_400);
    let century = (civil.year / 100) as u8;
    let year = (civil.year % 100) as u8;
    let hour = (secs % 86_400 / 3600) as u8;
    let minute = (secs % 3600 / 60) as u8;
    let second = (secs % 60) as u8;
    [
        digit(century / 10),
        digit(century % 10),
        digit(year / 10),
        digit(year % 10),
        digit(civil.month / 10),
        digit(civil.month % 10),
        digit(civil.day / 10),
        digit(civil.day % 10),
        digit(hour / 10),
        digit(hour % 10),
        digit(minute / 10),
        digit(minute % 10),
        digit(second / 10),
        digit(second % 10),
        b'Z',
    ]
}

/// Prints the canonical text, `yyyymmddHHMMSSZ`, of 15 bytes.
impl fmt::Display for Moment {
    ghost use Rattle.std.specs.Prelude.{Some};
    ghost use Rattle.sudo_words.specs.Moment.{stamp};

    ghost output = { λ t. Some (stamp t) };

    fn fmt<W: fmt::Write>(&self, f: &mut fmt::Formatter<W>) -> fmt::Result {
        match str::from_utf8(stamp_bytes(*self).as_slice()) {
            Ok(text) => f.write_str(text),
            // Digits and `Z` are ASCII.
            Err(_) => Err(fmt::Error),
        }
    }
}
