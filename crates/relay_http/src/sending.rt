//! Sending a response.

ghost use Rattle.std.specs.Prelude.{◌≡◌};
ghost use Rattle.relay_http.specs.Sending.{IsSending, after_sending};

use crate::counted::Counted;
use crate::outgoing::{ExchangeBuffer, Outgoing};
use crate::serving::ServeFault;
use std::io::{ErrorKind, Write};

/// What a step of sending comes to.
#[derive(Drop)]
pub enum Sending {
    /// All of the response is out.
    Out,
    /// The peer takes no more for now; this is the rest of the response.
    Waits(Outgoing),
}

impl Outgoing {
    /// Writes the rest of the response, up to where a write would block. Where a write fails
    /// otherwise or takes nothing, the result is `WriteFailed`; a beginning of the rest went out.
    pub fn send_on<W: Write>(
        self,
        writer: &mut Counted<W>,
        buffer: &mut ExchangeBuffer,
    ) -> Result<Sending, ServeFault>
        ensures sent { IsSending (W.contents writer.old.inner)
            (W.contents writer.new.inner) self result }
        ensures counted { writer.new.failures ≡ after_sending result writer.old.failures }
    {
        let mut rest = self;
        while !rest.is_out() {
            match rest.send(writer, buffer) {
                Ok(0) => return Err(ServeFault::WriteFailed),
                Ok(_) => {}
                Err(ErrorKind::WouldBlock) => return Ok(Sending::Waits(rest)),
                Err(_) => return Err(ServeFault::WriteFailed),
            }
        }
        Ok(Sending::Out)
    }
}
