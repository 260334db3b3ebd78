//! What a request can come to.

ghost use Rattle.std.specs.Prelude.{◌≡◌};
ghost use Rattle.grants.specs.Statuses as statuses;

use sudo_words::Moment;

/// An unbroken run of moments, by its first and its last.
#[derive(Clone, Copy, Debug, PartialEq, Eq)]
pub struct Window {
    /// The first moment.
    pub start: Moment,
    /// The last moment, which is not before the first.
    pub end: Moment,
}

/// What a request has come to: the first of these that applies.
#[derive(Clone, Copy, Debug, PartialEq, Eq)]
pub enum Status {
    /// There are two different requests of the name.
    Disputed,
    /// The roster does not admit the request.
    Lapsed,
    /// An eligible person refused the request, and not after it was complete.
    Refused,
    /// The request is not complete.
    Waiting,
    /// The request is complete, but in force at no moment.
    Void,
    /// The request is in force within this window.
    Granted(Window),
}

impl Status {
    /// The window of a grant, if it contains the moment.
    pub fn window_at(self, at: Moment) -> Option<Window>
        ensures { result ≡ statuses.window_at at self }
    {
        match self {
            Status::Granted(window) if window.start <= at && at <= window.end => Some(window),
            _ => None,
        }
    }
}
