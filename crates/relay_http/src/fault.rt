//! Why a request is refused by its bytes alone.

use crate::route::Methods;
use crate::status::ResponseStatus;
use desk::Refusal;
use std::error::Error;
use std::fmt;

/// Why a request is refused by its bytes alone. A fault is shown as its code and name.
#[derive(Clone, Copy, Debug, PartialEq, Eq)]
pub enum RequestFault {
    /// The first 8,192 bytes do not begin with a request head of at most 32 fields, or a head of
    /// HTTP/1.1 has no Host field, or any head has more than one.
    BadHead,
    /// The target does not begin with `/`, or has a query, a fragment, an encoded byte or one past
    /// ASCII.
    BadTarget,
    /// No route has the target.
    NoRoute,
    /// The route has other methods.
    BadMethod(Methods),
    /// A POST has no Content-Length.
    LengthRequired,
    /// A POST has a Transfer-Encoding, a second Content-Length, or one that is not 1 to 9 digits.
    BadLength,
    /// Content-Length says more than 16,384.
    TooLong,
    /// The stream ends before the content does.
    ShortBody,
    /// The text in a moment's place is not the canonical text of a moment.
    BadMoment,
}

impl fmt::Display for RequestFault {
    ghost use Rattle.std.specs.Prelude.{Some};
    ghost use Rattle.relay_http.specs.Response.{request_fault_text};

    ghost output = { λ f. Some (request_fault_text f) };

    fn fmt<W: fmt::Write>(&self, f: &mut fmt::Formatter<W>) -> fmt::Result {
        let line = self.text();
        f.write_str(line.strip_suffix('\n').unwrap_or(line))
    }
}

impl Error for RequestFault {}

impl RequestFault {
    ghost use Rattle.std.specs.Prelude.{◌≡◌};
    ghost use Rattle.relay_http.specs.Response.{fault_line, status_of};

    /// The status of the refusal.
    pub fn status(self) -> ResponseStatus
        ensures { result ≡ status_of self }
    {
        match self {
            RequestFault::BadHead
            | RequestFault::BadTarget
            | RequestFault::BadLength
            | RequestFault::ShortBody
            | RequestFault::BadMoment => ResponseStatus::BadRequest,
            RequestFault::NoRoute => ResponseStatus::NotFound,
            RequestFault::BadMethod(methods) => ResponseStatus::MethodNotAllowed(methods),
            RequestFault::LengthRequired => ResponseStatus::LengthRequired,
            RequestFault::TooLong => ResponseStatus::ContentTooLarge,
        }
    }

    /// The body of the refusal: the fault's code and name, and a newline.
    pub fn line(self) -> &'static [u8]
        ensures { result.now ≡ fault_line self }
    {
        self.text().as_bytes()
    }

    /// The fault's code and name, and a newline, as a text.
    fn text(self) -> &'static str
        ensures { result.now ≡ fault_line self }
    {
        match self {
            RequestFault::BadHead => "T1 BadHead\n",
            RequestFault::BadTarget => "T2 BadTarget\n",
            RequestFault::NoRoute => "T3 NoRoute\n",
            RequestFault::BadMethod(_) => "T4 BadMethod\n",
            RequestFault::LengthRequired => "T5 LengthRequired\n",
            RequestFault::BadLength => "T6 BadLength\n",
            RequestFault::ShortBody => "T7 ShortBody\n",
            RequestFault::BadMoment => "T8 BadMoment\n",
            RequestFault::TooLong => Refusal::TooLong.line(),
        }
    }
}
