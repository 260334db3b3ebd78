//! The responses that say that the desk refuses.

ghost use Rattle.std.specs.Prelude.{◌≡◌};
ghost use Rattle.relay_http.specs.Responses as responses;

use crate::status::ResponseStatus;
use desk::Refusal;

/// The status of a refusal.
pub fn refusal_status(refusal: Refusal) -> ResponseStatus
    ensures { result ≡ responses.refusal_status refusal }
{
    match refusal {
        Refusal::NotCanonical | Refusal::BadField => ResponseStatus::BadRequest,
        Refusal::UnknownRelay | Refusal::Denied(_) => ResponseStatus::Forbidden,
        Refusal::UnknownHost => ResponseStatus::NotFound,
        Refusal::TooLong => ResponseStatus::ContentTooLarge,
        Refusal::TooManyRules
        | Refusal::RosterChanged
        | Refusal::NotADesk
        | Refusal::OldSchema
        | Refusal::Storage
        | Refusal::NoMemory
        | Refusal::BaseTooLarge => ResponseStatus::ServiceUnavailable,
    }
}

/// The body of a refusal: its code and name, and a newline. It is a static text, since it is needed
/// also where memory ran out.
pub fn refusal_line(refusal: Refusal) -> &'static [u8]
    ensures { result.now ≡ (responses.refusal refusal).body }
{
    refusal.line().as_bytes()
}
