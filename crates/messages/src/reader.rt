//! Messages read from bytes, one after another.

ghost use Rattle.std.specs.Prelude.{◌≡◌, Some, IfOk, IfErr, IfSome, MatchResult};
ghost use Rattle.messages.specs.Reading.{IsReading};
ghost use Rattle.messages.specs.Wire.{wire, IsMessage};
ghost use Rattle.messages.specs.declared.message.Message.{Message as AnyMessage};
ghost use Rattle.messages.specs.declared.fault.MessageFault.TheVariants.{NoMemory};

use crate::canonical_json::{canonical, value_of};
use crate::fault::MessageFault;
use crate::message::Message;
use crate::read::message_said;
use json::{Error, Scratch, Value};
use std::alloc::Global;

/// The most bytes that a message may have.
pub const MOST_BYTES: usize = 16_384;

/// The message whose text the bytes are, if they are the text of one.
fn message_in(
    alloc: Global,
    body: &[u8],
    scratch: &mut Scratch,
) -> Result<Option<Message>, MessageFault>
    ensures found { IfOk result (λ o. IfSome o (λ m. (body.now ≡ wire m) × IsMessage m)) }
    ensures only { (m : AnyMessage) → IsMessage m → body.now ≡ wire m
        → MatchResult result (λ o. o ≡ Some m) (λ e. e ≡ NoMemory) }
    ensures err { IfErr result (λ e. e ≡ NoMemory) }
{
    match Value::from_slice(alloc, body, scratch) {
        Ok(value) => message_said(alloc, &value, body),
        Err(Error::Invalid) => Ok(None),
        // The only other fault is want of memory.
        Err(_) => Err(MessageFault::NoMemory),
    }
}

/// Reads messages, one after another. The room that reading needs is made once.
#[derive(Drop)]
pub struct MessageReader {
    /// What the parser writes into: its room is made and filled once, not for each message.
    scratch: Scratch,
}

impl MessageReader {
    /// A reader. It takes no memory before it reads.
    pub fn new(alloc: Global) -> MessageReader {
        MessageReader {
            scratch: Scratch::new(alloc),
        }
    }

    /// The message whose text the bytes are.
    ///
    /// Faults, the first that applies: `TooLong` above 16,384 bytes; `NotCanonical` if the bytes
    /// are not canonical JSON (RFC 8259) with whole numbers; `BadField` if they are canonical JSON,
    /// but not a message; `NoMemory` if memory runs out.
    pub fn read(&mut self, alloc: Global, body: &[u8]) -> Result<Message, MessageFault>
        ensures { IsReading body.now result }
    {
        if body.len() > MOST_BYTES {
            return Err(MessageFault::TooLong);
        }
        if let Some(message) = message_in(alloc, body, &mut self.scratch)? {
            return Ok(message);
        }
        // Only bytes that are not a message's text are parsed a second time, and the value written,
        // to tell the two faults apart.
        let value = value_of(alloc, body)?;
        canonical(alloc, &value, body)?;
        Err(MessageFault::BadField)
    }
}

/// The message whose text the bytes are, with the faults of `MessageReader::read`: for a caller
/// that reads one message.
pub fn read_message(alloc: Global, body: &[u8]) -> Result<Message, MessageFault>
    ensures { IsReading body.now result }
{
    MessageReader::new(alloc).read(alloc, body)
}
