//! The statuses of responses.

ghost use Rattle.std.specs.Prelude.{◌≡◌, ◌≤◌, length};
ghost use Rattle.relay_http.specs.Response.{allow_line, phrase_of};

use crate::route::Methods;
use http::StatusCode;

/// The status of a response.
#[derive(Clone, Copy, Debug, PartialEq, Eq)]
pub enum ResponseStatus {
    /// 200: the desk's answer.
    Done,
    /// 400: the request, or the message in it, is malformed.
    BadRequest,
    /// 403: the desk does not take the message.
    Forbidden,
    /// 404: no such route or host.
    NotFound,
    /// 405: the route has these methods.
    MethodNotAllowed(Methods),
    /// 411: the request has no Content-Length.
    LengthRequired,
    /// 413: the message is too long.
    ContentTooLarge,
    /// 503: storage or memory failed, or a file would be too long.
    ServiceUnavailable,
}

impl ResponseStatus {
    ghost use Rattle.relay_http.specs.Response.{code_of};

    /// The status's code.
    pub fn code(self) -> StatusCode
        ensures { result ≡ code_of self }
    {
        match self {
            ResponseStatus::Done => StatusCode::OK,
            ResponseStatus::BadRequest => StatusCode::BAD_REQUEST,
            ResponseStatus::Forbidden => StatusCode::FORBIDDEN,
            ResponseStatus::NotFound => StatusCode::NOT_FOUND,
            ResponseStatus::MethodNotAllowed(_) => StatusCode::METHOD_NOT_ALLOWED,
            ResponseStatus::LengthRequired => StatusCode::LENGTH_REQUIRED,
            ResponseStatus::ContentTooLarge => StatusCode::PAYLOAD_TOO_LARGE,
            ResponseStatus::ServiceUnavailable => StatusCode::SERVICE_UNAVAILABLE,
        }
    }
}

/// The phrase of a status in RFC 9110. The phrase of 413 there is newer than that in `http`.
pub(crate) fn phrase(status: ResponseStatus) -> &'static [u8]
    ensures text { result.now ≡ phrase_of status }
    ensures short { length result.now ≤ 30 }
{
    match status {
        ResponseStatus::Done => b"OK",
        ResponseStatus::BadRequest => b"Bad Request",
        ResponseStatus::Forbidden => b"Forbidden",
        ResponseStatus::NotFound => b"Not Found",
        ResponseStatus::MethodNotAllowed(_) => b"Method Not Allowed",
        ResponseStatus::LengthRequired => b"Length Required",
        ResponseStatus::ContentTooLarge => b"Content Too Large",
        ResponseStatus::ServiceUnavailable => b"Service Unavailable",
    }
}

/// The line that names the methods of the route, where another was used.
pub(crate) fn allow_line(status: ResponseStatus) -> &'static [u8]
    ensures text { result.now ≡ allow_line status }
    ensures short { length result.now ≤ 40 }
{
    match status {
        ResponseStatus::MethodNotAllowed(Methods::Post) => b"Allow: POST\r\n",
        ResponseStatus::MethodNotAllowed(Methods::GetOrHead) => b"Allow: GET, HEAD\r\n",
        _ => b"",
    }
}
