//! The states in which a desk is found here, each by all that it answers.

use std::fmt;

/// What a desk answers to every question, or what is found where there is no desk.
#[derive(Clone, Copy, PartialEq, Eq)]
pub enum State {
    /// There is no part of a desk.
    Nothing,
    /// There is a desk of an older form.
    Older,
    /// There is a desk without messages.
    Fresh,
    /// The approval came, and waits for its request.
    Parked,
    /// The request came, and waits for an approval.
    Waiting,
    /// The request and the approval came.
    Granted,
    /// The request and the approval came, and the roster does not admit the request.
    Lapsed,
    /// Each question is refused over the storage.
    Silent,
    /// None of these.
    Other,
}

/// The states that have a text.
pub const KNOWN: [State; 6] = [
    State::Fresh,
    State::Parked,
    State::Waiting,
    State::Granted,
    State::Lapsed,
    State::Silent,
];

impl State {
    /// All that a desk in this state answers: which roster it has, what the request came to, which
    /// grants are in force, what waits, and the host's file.
    pub fn text(self) -> &'static str {
        match self {
            State::Fresh => "7200 seconds, nobody asks, file: bob db1 = (root) ALL",
            State::Parked => {
                "7200 seconds, nobody asks, the approval waits, file: bob db1 = (root) ALL"
            }
            State::Waiting => "7200 seconds, Waiting, file: bob db1 = (root) ALL",
            State::Granted => {
                "7200 seconds, Granted 20260105090000Z 20260105110000Z, in force ann 7 db-root 20260105090000Z 20260105110000Z, file: bob db1 = (root) ALL | ann db1 = (root) NOTBEFORE=20260105090000Z NOTAFTER=20260105110000Z /bin/ls"
            }
            State::Lapsed => "7199 seconds, Lapsed, file: bob db1 = (root) ALL",
            State::Silent => "7200 seconds, K4 Storage, K4 Storage, K4 Storage, K4 Storage",
            State::Nothing | State::Older | State::Other => "",
        }
    }

    /// The messages whose texts a desk in this state has.
    pub fn texts(self) -> &'static str {
        match self {
            State::Parked => ", the approval",
            State::Waiting => ", the request",
            State::Granted | State::Lapsed => ", the request, the approval",
            _ => "",
        }
    }
}

impl fmt::Display for State {
    fn fmt<W: fmt::Write>(&self, f: &mut fmt::Formatter<W>) -> fmt::Result {
        f.write_str(match self {
            State::Nothing => "nothing",
            State::Older => "older desk",
            State::Fresh => "empty desk",
            State::Parked => "parked",
            State::Waiting => "waiting",
            State::Granted => "granted",
            State::Lapsed => "lapsed",
            State::Silent => "K4 Storage",
            State::Other => "OTHERWISE",
        })
    }
}

/// The state of a desk that answers this.
pub fn state_of(text: &str) -> State {
    for state in KNOWN {
        if state.text() == text {
            return state;
        }
    }
    State::Other
}
