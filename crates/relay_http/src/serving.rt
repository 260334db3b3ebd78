//! One exchange.

ghost use Rattle.std.specs.Prelude.{◌≡◌, ◌≢◌, ◌≤◌, ◌⊎◌, ℕ, [], Err, IfOk, IfSome, MatchResult};
ghost use Rattle.std.specs.Prelude.{OnOk, codes};
ghost use Rattle.httparse.specs.Grammar.{RequestHead};
ghost use Rattle.desk_store.specs.Keeping.{HasFailed};
ghost use Rattle.desk_store.specs.Serves.{Serves};
ghost use Rattle.desk.specs.Serving.{KeepsSettings};
ghost use Rattle.relay_http.specs.Request.{Request};
ghost use Rattle.relay_http.specs.Counting.{after_read, one_failure};
ghost use Rattle.relay_http.specs.Exchange.{HasResponded, IsAcknowledged, IsExchange};
ghost use Rattle.relay_http.specs.Exchange.{WritesServerFailure};
ghost use Rattle.relay_http.specs.Needs.{most_room};
ghost use Rattle.relay_http.specs.Sent.{Sends};
ghost use Rattle.relay_http.specs.RequestBytes.{IsHttpRequest, HasHead};
ghost use Rattle.relay_http.specs.declared.serving.ServeFault.TheVariants.{NoMemory, ReadFailed};
ghost use Rattle.relay_http.specs.declared.serving.ServeFault.TheVariants.{WriteFailed};

use crate::counted::Counted;
use crate::offered::Offered;
use crate::outgoing::ExchangeBuffer;
use crate::received::Received;
use crate::receiving::{Receiving, Reception};
use crate::routes::Routes;
use crate::sending::Sending;
use desk::{Desk, Keeper};
use std::alloc::Global;
use std::error::Error;
use std::fmt;
use std::io::{Read, Write};

/// Why an exchange was not completed. A fault is shown as its code and name.
#[derive(Clone, Copy, Debug, PartialEq, Eq)]
pub enum ServeFault {
    /// A read failed: nothing was written, and nothing was asked of the desk.
    ReadFailed,
    /// A write failed, or took nothing: a beginning of the response went out, and a message that
    /// was acknowledged stays.
    WriteFailed,
    /// Memory ran out before anything was read.
    NoMemory,
}

impl fmt::Display for ServeFault {
    ghost use Rattle.std.specs.Prelude.{Some};
    ghost use Rattle.relay_http.specs.Exchange.{serve_fault_text};

    ghost output = { λ e. Some (serve_fault_text e) };

    fn fmt<W: fmt::Write>(&self, f: &mut fmt::Formatter<W>) -> fmt::Result {
        f.write_str(match self {
            ServeFault::ReadFailed => "H1 ReadFailed",
            ServeFault::WriteFailed => "H2 WriteFailed",
            ServeFault::NoMemory => "H3 NoMemory",
        })
    }
}

impl Error for ServeFault {}

/// Receives a request from a stream that waits for its peer, so that a read that would block is one
/// that failed.
fn receive_whole<R: Read>(
    receiving: Receiving,
    routes: &Routes,
    reader: &mut Counted<R>,
    buffer: &mut ExchangeBuffer,
) -> Result<Received, ServeFault>
    requires empty { receiving.come.bytes ≡ [] }
    requires room { most_room ≤ receiving.come.room }
    ensures asks { IfOk result (λ x. IfSome (R.remaining reader.old.inner) (λ all.
        (request : Request ℕ) → IsHttpRequest x.come.offered x.come.bytes request
        → IsHttpRequest x.come.offered all request)) }
    ensures socket { IfOk result (λ x. x.come.offered ≡ receiving.come.offered) }
    ensures counted { reader.new.failures ≡ after_read result reader.old.failures }
{
    match receiving.receive(routes, reader, buffer) {
        Ok(Reception::Came(received)) => Ok(received),
        Ok(Reception::Waits(_)) => Err(ServeFault::ReadFailed),
        Ok(Reception::Starved(_)) => Err(ServeFault::ReadFailed),
        Err(_) => Err(ServeFault::ReadFailed),
    }
}

/// Has the desk answer a request, and sends the response to a stream that waits for its peer. Once
/// a message is acknowledged no memory is taken.
fn respond_to<K: Keeper, W: Write>(
    alloc: Global,
    routes: &Routes,
    received: Received,
    desk: &mut Desk<K>,
    writer: &mut Counted<W>,
    buffer: &mut ExchangeBuffer,
) -> Result<(), ServeFault>
    ensures exchange { (request : Request ℕ)
        × IsHttpRequest received.come.offered received.come.bytes request
        × IsExchange K.Keeper desk.old.roster desk.old.base desk.old.history
        desk.old.keeper desk.new.keeper (λ bytes. Sends
        (W.contents writer.old.inner) (W.contents writer.new.inner) result bytes) request }
    ensures counted { MatchResult result (λ _. writer.new.failures ≡ writer.old.failures)
        (λ _. writer.new.failures ≡ one_failure writer.old.failures) }
    ensures settings { KeepsSettings desk.old desk.new }
{
    let response = received.answer(alloc, routes, desk);
    match response.rest.send_on(writer, buffer) {
        Ok(Sending::Out) => Ok(()),
        Ok(Sending::Waits(_)) => Err(ServeFault::WriteFailed),
        Err(_) => Err(ServeFault::WriteFailed),
    }
}

/// Reads a request to a socket with these routes, has the desk answer it, and writes the response.
///
/// The room for a request, the buffer and the routes are made before anything is read: if memory
/// runs out for them, the result is `NoMemory`, and nothing was read. If it runs out later, the
/// desk's response says so. Once a message is acknowledged no memory is taken.
pub fn serve_one<K: Keeper, R: Read, W: Write>(
    alloc: Global,
    offered: Offered,
    desk: &mut Desk<K>,
    reader: &mut Counted<R>,
    writer: &mut Counted<W>,
) -> Result<(), ServeFault>
    // The bytes that the reader has left are one request. One response is the desk's to this
    // request, and fits the change of the keeper, also over a disk that crashes. That response was
    // written, or a beginning of it where a write failed.
    ensures exchange { HasResponded result
        → IfSome (R.remaining reader.old.inner) (λ all. (request : Request ℕ)
        → IsHttpRequest offered all request
        → IsExchange K.Keeper desk.old.roster desk.old.base desk.old.history
        desk.old.keeper desk.new.keeper (λ bytes. Sends
        (W.contents writer.old.inner) (W.contents writer.new.inner) result bytes) request) }
    // A request that is not a POST changes nothing, and only the exchange of a POST to a relay's
    // messages with the status 200 changes anything, at a socket that has all routes.
    ensures queries { HasResponded result → K.is_up desk.new.keeper
        → IfSome (R.remaining reader.old.inner) (λ all. (head : RequestHead) → HasHead all head
        → head.method ≢ codes "POST" → K.is_same desk.old.keeper desk.new.keeper) }
    ensures changes { HasResponded result → K.is_up desk.new.keeper
        → IfSome (R.remaining reader.old.inner)
        (λ all. K.is_same desk.old.keeper desk.new.keeper ⊎ IsAcknowledged offered all
        (λ bytes. Sends (W.contents writer.old.inner) (W.contents writer.new.inner) result bytes)) }
    ensures unanswered { (result ≡ Err ReadFailed) ⊎ (result ≡ Err NoMemory)
        → (desk.new ≡ desk.old) × (writer.new ≡ writer.old) }
    ensures unread { result ≡ Err NoMemory → reader.new ≡ reader.old }
    ensures read_failed { result ≡ Err ReadFailed
        → HasFailed reader.old.failures reader.new.failures }
    ensures write_failed { result ≡ Err WriteFailed
        → HasFailed writer.old.failures writer.new.failures }
    // At Ok no read and no write failed, not even one that was tried again.
    ensures unfailing { OnOk result ((reader.new.failures ≡ reader.old.failures)
        × (writer.new.failures ≡ writer.old.failures)) }
    ensures settings { KeepsSettings desk.old desk.new }
    // The keeper is up then, unless a response of K4 or K5 was written, or a beginning of it.
    ensures served { Serves K.Keeper desk.old.keeper desk.new.keeper ⊥ (WritesServerFailure
        (λ bytes. Sends (W.contents writer.old.inner) (W.contents writer.new.inner) result bytes)) }
{
    let Ok(routes) = Routes::new(alloc) else {
        return Err(ServeFault::NoMemory);
    };
    let Ok(mut buffer) = ExchangeBuffer::new(alloc) else {
        return Err(ServeFault::NoMemory);
    };
    let Ok(receiving) = Receiving::with_room(alloc, offered) else {
        return Err(ServeFault::NoMemory);
    };
    let Ok(received) = receive_whole(receiving, &routes, reader, &mut buffer) else {
        return Err(ServeFault::ReadFailed);
    };
    match respond_to(alloc, &routes, received, desk, writer, &mut buffer) {
        Ok(()) => Ok(()),
        Err(_) => Err(ServeFault::WriteFailed),
    }
}
