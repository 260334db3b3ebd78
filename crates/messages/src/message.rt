//! Messages.

ghost use Rattle.std.specs.Prelude.{◌≡◌, ◌↔◌, IsTrue};

use crate::request::Request;
use crate::verdict::Verdict;
use std::alloc::AllocError;

/// A message of the desk. Two messages are equal exactly if their texts are.
#[derive(Debug, Drop)]
pub enum Message {
    /// Someone asks for rights.
    Request(Request),
    /// Someone answers a request.
    Verdict(Verdict),
}

impl Message {
    /// Whether the other message says the same. It takes no memory.
    pub fn is_same(&self, other: &Message) -> bool
        ensures { IsTrue result ↔ (self.now ≡ other.now) }
    {
        match (self, other) {
            (Message::Request(request), Message::Request(another)) => request.is_same(another),
            (Message::Verdict(verdict), Message::Verdict(another)) => verdict.is_same(another),
            _ => false,
        }
    }
}

impl Clone for Message {
    ghost is_clone = { λ message copy. copy ≡ message };

    fn clone(&self) -> Result<Message, AllocError> {
        match self {
            Message::Request(request) => Ok(Message::Request(request.clone()?)),
            Message::Verdict(verdict) => Ok(Message::Verdict(verdict.clone()?)),
        }
    }
}
