//! The content of a POST.

ghost use Rattle.std.specs.Prelude.{◌≡◌, ℕ, List, Some, None, if◌then◌else◌};
ghost use Rattle.std.specs.Result.{result_map_both};
ghost use Rattle.std.specs.Str.Parse.{digits_value};
ghost use Rattle.relay_http.specs.Content.{is_length, sized};
ghost use Rattle.relay_http.specs.Seen.{AreValues};
ghost use Rattle.relay_http.specs.Stages.{cut, size, size_by};

use crate::fault::RequestFault;
use crate::values::Values;
use messages::MOST_BYTES;
use sudo_words::decimal_of;

/// The number that 1 to 9 digits write.
fn length_of(value: &[u8]) -> Option<u64>
    ensures { result ≡ (if is_length value.now then Some (digits_value 10 value.now) else None) }
{
    decimal_of(value)
}

/// The first `n` of the bytes that follow the head.
fn sized(n: u64, rest: &[u8]) -> Result<&[u8], RequestFault>
    ensures { result_map_both (λ b. b.now) (λ e. e) result ≡ sized n rest.now }
{
    if n > MOST_BYTES as u64 {
        return Err(RequestFault::TooLong);
    }
    if (rest.len() as u64) < n {
        return Err(RequestFault::ShortBody);
    }
    Ok(&rest[..n as usize])
}

fn by_lengths(lengths: Values<'_>) -> Result<u64, RequestFault>
    ensures { (vs : List (List ℕ)) → AreValues lengths.entry vs → result ≡ size_by vs }
{
    match lengths {
        Values::Nothing => Err(RequestFault::LengthRequired),
        Values::One(value) => match length_of(value) {
            Some(n) => Ok(n),
            None => Err(RequestFault::BadLength),
        },
        Values::Many => Err(RequestFault::BadLength),
    }
}

/// The length of the content, by the values of Transfer-Encoding and Content-Length.
pub fn content_size(codings: Values<'_>, lengths: Values<'_>) -> Result<u64, RequestFault>
    ensures { (cs ls : List (List ℕ)) → AreValues codings.entry cs → AreValues lengths.entry ls
        → result ≡ size cs ls }
{
    match codings {
        Values::Nothing => by_lengths(lengths),
        _ => Err(RequestFault::BadLength),
    }
}

/// The content of this length, by the bytes that follow the head.
pub fn content(size: Result<u64, RequestFault>, rest: &[u8]) -> Result<&[u8], RequestFault>
    ensures { result_map_both (λ b. b.now) (λ e. e) result ≡ cut size rest.now }
{
    match size {
        Ok(n) => sized(n, rest),
        Err(fault) => Err(fault),
    }
}
