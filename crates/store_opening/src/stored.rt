//! A stored message, with its text.

ghost use Rattle.std.specs.Prelude.{◌≡◌, string_bytes};
ghost use Rattle.messages.specs.Wire.{wire, IsMessage};

use messages::Message;
use std::marker::Model;

/// A message with its text. Contracts see the message.
#[derive(Debug, Drop)]
pub struct Stored {
    body: String,
    message: Message,
}

impl Model for Stored {
    ghost use Rattle.std.specs.Prelude.{◌≡◌, string_bytes};
    ghost use Rattle.messages.specs.declared.message.Message.{Message};
    ghost use Rattle.messages.specs.Wire.{wire, IsMessage};

    ghost Value = { Message };

    ghost view = { λ s. s.message };

    ghost invariant = { λ s. IsMessage s.message × (string_bytes s.body ≡ wire s.message) };
}

impl Stored {
    /// The message, with this text.
    pub fn new(body: String, message: Message) -> Stored
        requires text { string_bytes body ≡ wire message }
        requires known { IsMessage message }
        ensures { result ≡ message }
    {
        Stored { body, message }
    }

    /// The text.
    pub fn body(&self) -> &str
        ensures { result.now ≡ wire self.now }
    {
        self.body.as_str()
    }

    /// The message.
    pub fn message(&self) -> &Message
        ensures value { result.now ≡ self.now }
        ensures known { IsMessage self.now }
    {
        &self.message
    }
}
