//! The parts of a moment's text: its date, its time of day, and its offset from UTC.

ghost use Rattle.std.specs.Prelude.{◌≡◌, ◌<◌, ◌*◌, ◌+◌, ◌++◌, ℕ, ℤ, List};
ghost use Rattle.std.specs.Prelude.{[], ◌∷◌, IfSome, MatchOption, Some};
ghost use Rattle.sudo_words.specs.Moment.{two, IsClockText, IsDateText, IsDistance, IsOffsetText};

use crate::civil::day_number;

/// The number below 100 that two digits spell.
fn pair(tens: u8, ones: u8) -> Option<u8>
    ensures found { IfSome result (λ n. (n < 100) × (tens ∷ ones ∷ [] ≡ two n)) }
    ensures only { (n : ℕ) → n < 100 → tens ∷ ones ∷ [] ≡ two n → result ≡ Some n }
{
    match (tens, ones) {
        (b'0'..=b'9', b'0'..=b'9') => Some(10 * (tens - b'0') + (ones - b'0')),
        _ => None,
    }
}

/// The number below 60 that two digits spell.
fn sixtieth(tens: u8, ones: u8) -> Option<u8>
    ensures found { IfSome result (λ n. (n < 60) × (tens ∷ ones ∷ [] ≡ two n)) }
    ensures only { (n : ℕ) → n < 60 → tens ∷ ones ∷ [] ≡ two n → result ≡ Some n }
{
    let number = pair(tens, ones)?;
    if number < 60 { Some(number) } else { None }
}

/// The hour that two digits spell.
fn hour_of(tens: u8, ones: u8) -> Option<u8>
    ensures found { IfSome result (λ n. (n < 24) × (tens ∷ ones ∷ [] ≡ two n)) }
    ensures only { (n : ℕ) → n < 24 → tens ∷ ones ∷ [] ≡ two n → result ≡ Some n }
{
    let number = pair(tens, ones)?;
    if number < 24 { Some(number) } else { None }
}

/// The seconds since midnight.
fn seconds(hour: u8, minute: u8, second: u8) -> u32
    ensures { result ≡ hour * 3600 + minute * 60 + second }
{
    u32::from(hour) * 3600 + u32::from(minute) * 60 + u32::from(second)
}

/// The seconds since midnight of a time of day, `HHMMSS`, `HHMM` or `HH`.
pub(crate) fn clock(text: &[u8]) -> Option<u32>
    ensures found { IfSome result (λ s. IsClockText text.now s) }
    ensures only { (s : ℕ) → IsClockText text.now s → result ≡ Some s }
{
    match text {
        [a, b] => Some(seconds(hour_of(*a, *b)?, 0, 0)),
        [a, b, c, d] => Some(seconds(hour_of(*a, *b)?, sixtieth(*c, *d)?, 0)),
        [a, b, c, d, e, f] => {
            Some(seconds(hour_of(*a, *b)?, sixtieth(*c, *d)?, sixtieth(*e, *f)?))
        }
        _ => None,
    }
}

/// The minutes of `hhmm`.
fn distance(text: &[u8]) -> Option<u16>
    ensures found { IfSome result (λ n. IsDistance text.now n) }
    ensures only { (n : ℕ) → IsDistance text.now n → result ≡ Some n }
{
    match text {
        [a, b, c, d] => Some(u16::from(hour_of(*a, *b)?) * 60 + u16::from(sixtieth(*c, *d)?)),
        _ => None,
    }
}

/// How many minutes ahead of UTC the end of a time says: `Z`, `+hhmm` or `-hhmm`.
pub(crate) fn offset(text: &[u8]) -> Option<i32>
    ensures found { IfSome result (λ o. IsOffsetText text.now o) }
    ensures only { (o : ℤ) → IsOffsetText text.now o → result ≡ Some o }
{
    match text {
        [b'Z'] => Some(0),
        [b'+', digits @ ..] => Some(i32::from(distance(digits)?)),
        [b'-', digits @ ..] => Some(-i32::from(distance(digits)?)),
        _ => None,
    }
}

/// A time without its end, and the end, which says its offset from UTC.
pub(crate) fn split_offset(text: &[u8]) -> Option<(&[u8], &[u8])>
    ensures found { IfSome result (λ parts. text.now ≡ parts.0.now ++ parts.1.now) }
    ensures only { (front end : List ℕ) (o : ℤ) → text.now ≡ front ++ end → IsOffsetText end o
        → MatchOption result ⊥ (λ parts. (parts.0.now ≡ front) × (parts.1.now ≡ end)) }
{
    let length = match text {
        [.., b'Z'] => 1,
        _ => 5,
    };
    text.split_at_checked(text.len().checked_sub(length)?)
}

/// The day number of a date, `yyyymmdd`.
pub(crate) fn date(text: &[u8]) -> Option<i32>
    ensures found { IfSome result (λ n. IsDateText text.now n) }
    ensures only { (n : ℤ) → IsDateText text.now n → result ≡ Some n }
{
    match text {
        [a, b, c, d, e, f, g, h] => {
            let year = u16::from(pair(*a, *b)?) * 100 + u16::from(pair(*c, *d)?);
            day_number(year, pair(*e, *f)?, pair(*g, *h)?)
        }
        _ => None,
    }
}
