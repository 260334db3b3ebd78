//! Decimal numbers.

ghost use Rattle.std.specs.Prelude.{◌≡◌, Some, None, if◌then◌else◌};
ghost use Rattle.std.specs.Str.Parse.{digits_value};
ghost use Rattle.sudo_words.specs.Decimal.{is_decimal};

/// The most digits of a number.
const MOST_DIGITS: usize = 9;

/// The number that 1 to 9 digits write, or `None` if the bytes are anything else.
pub fn decimal_of(value: &[u8]) -> Option<u64>
    ensures { result ≡ (if is_decimal value.now then Some (digits_value 10 value.now) else None) }
{
    if value.is_empty() || value.len() > MOST_DIGITS {
        return None;
    }
    let mut n: u64 = 0;
    for b in value {
        if !b.is_ascii_digit() {
            return None;
        }
        n = n * 10 + u64::from(*b - b'0');
    }
    Some(n)
}
