//! Dates of the calendar and their day numbers, where 1970-01-01 is 0.

ghost use Rattle.std.specs.Prelude.{◌≡◌, ◌≤◌, ◌<◌, pos, IfSome, Some};
ghost use Rattle.jiff_core.specs.Calendar.{IsCivilDate, days_from_civil};
ghost use Rattle.sudo_words.specs.Moment.{date_of};

use jiff::civil::Date;

/// The number of days from the calendar's first, -9999-01-01, to 1970-01-01.
const EPOCH: u32 = 4_371_587;

/// A date from 1970-01-01 to 2099-12-31, in numbers.
#[derive(Clone, Copy)]
pub(crate) struct Civil {
    pub(crate) year: u16,
    pub(crate) month: u8,
    pub(crate) day: u8,
    ghost four_digits: { year < 10000 },
    ghost month_digits: { month < 100 },
    ghost day_digits: { day < 100 },
}

/// The day number of the date, or `None` if the calendar has no such date. The limits on year,
/// month and day let them fit the calendar's signed types.
pub(crate) fn day_number(year: u16, month: u8, day: u8) -> Option<i32>
    requires year_digits { year < 10000 }
    requires month_digits { month < 100 }
    requires day_digits { day < 100 }
    ensures found { IfSome result
        (λ n. IsCivilDate (pos year) month day × (days_from_civil (pos year) month day ≡ n)) }
    ensures only { IsCivilDate (pos year) month day
        → result ≡ Some (days_from_civil (pos year) month day) }
{
    match Date::new(year as i16, month as i8, day as i8) {
        Ok(date) => Some(date.to_plain().to_unix_epoch_day()),
        Err(_) => None,
    }
}

/// The date with that day number.
pub(crate) fn date_at(days: u32) -> Civil
    requires { days ≤ 47_481 }
    ensures year { result.year ≡ (date_of days).year }
    ensures month { result.month ≡ (date_of days).month }
    ensures day { result.day ≡ (date_of days).day_of_month }
{
    let date = jiff_core::civil::Date::from_days_since_min(days + EPOCH);
    Civil {
        year: date.year as u16,
        month: date.month,
        day: date.day,
    }
}
