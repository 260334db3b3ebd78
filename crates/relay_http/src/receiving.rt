//! Receiving a request.

ghost use Rattle.std.specs.Prelude.{◌≡◌, ◌≤◌, ◌==◌, [], Err, IfOk, length};
ghost use Rattle.relay_http.specs.Needs.{most_room};
ghost use Rattle.relay_http.specs.Receiving.{IsOfSocket, IsReception, IsStopped, NeverStarves};
ghost use Rattle.relay_http.specs.Receiving.{after_reception};
ghost use Rattle.relay_http.specs.declared.serving.ServeFault.TheVariants as faults;

use crate::counted::Counted;
use crate::exchange::{Exchange, ReceiveFault};
use crate::offered::Offered;
use crate::outgoing::ExchangeBuffer;
use crate::received::Received;
use crate::responding::HttpResponse;
use crate::routes::Routes;
use crate::serving::ServeFault;
use std::alloc::Global;
use std::io::{ErrorKind, Read};
use sudo_words::NoMemory;

/// A request of which more may have to come.
#[derive(Drop)]
pub struct Receiving {
    come: Exchange,
}

/// What a step of receiving comes to.
#[derive(Drop)]
pub enum Reception {
    /// The request has come.
    Came(Received),
    /// No more of the request comes for now.
    Waits(Receiving),
    /// Memory ran out after some of the request had come, and this is the response.
    Starved(HttpResponse),
}

/// What a step comes to where no more came behind these bytes, for this reason.
fn stopped(come: Exchange, fault: ReceiveFault) -> Result<Reception, ServeFault>
    ensures { IsStopped come fault result }
{
    match fault {
        ReceiveFault::Failed(ErrorKind::WouldBlock) => Ok(Reception::Waits(Receiving { come })),
        ReceiveFault::Failed(_) => Err(ServeFault::ReadFailed),
        ReceiveFault::NoMemory => {
            if come.is_empty() {
                return Err(ServeFault::NoMemory);
            }
            Ok(Reception::Starved(HttpResponse::of_want(true)))
        }
    }
}

impl Receiving {
    /// Nothing has come yet to a socket with these routes, and no memory is taken.
    pub fn new(alloc: Global, offered: Offered) -> Receiving
        ensures empty { result.come.bytes ≡ [] }
        ensures socket { result.come.offered ≡ offered }
    {
        Receiving {
            come: Exchange::new(alloc, offered),
        }
    }

    /// Nothing has come yet to a socket with these routes, and there is room for all that counts.
    pub fn with_room(alloc: Global, offered: Offered) -> Result<Receiving, NoMemory>
        ensures empty { IfOk result (λ r. r.come.bytes ≡ []) }
        ensures room { IfOk result (λ r. most_room ≤ r.come.room) }
        ensures socket { IfOk result (λ r. r.come.offered ≡ offered) }
    {
        Ok(Receiving {
            come: Exchange::with_room(alloc, offered)?,
        })
    }

    /// Reads until the request has come, or until a read would block. Any other failed read is
    /// `ReadFailed`. Room for a read is made before the read: where memory runs out for that and
    /// nothing has come yet, the result is `NoMemory`.
    pub fn receive<R: Read>(
        self,
        routes: &Routes,
        reader: &mut Counted<R>,
        buffer: &mut ExchangeBuffer,
    ) -> Result<Reception, ServeFault>
        ensures reception { IsReception (R.remaining reader.old.inner)
            (R.remaining reader.new.inner) self.come.bytes result }
        ensures socket { IsOfSocket self.come.offered result }
        ensures counted { reader.new.failures ≡ after_reception result reader.old.failures }
        ensures unread { result ≡ Err faults.NoMemory → reader.new ≡ reader.old }
        ensures room { most_room ≤ self.come.room → NeverStarves result }
    {
        let mut come = self.come;
        while !come.is_settled() {
            match come.read_on(routes, reader, buffer) {
                Ok(0) => return Ok(Reception::Came(Received::ended(come))),
                Ok(_) => {}
                Err(fault) => return stopped(come, fault),
            }
        }
        Ok(Reception::Came(Received::whole(come)))
    }

    /// How many bytes have come.
    pub fn len(&self) -> usize
        ensures { result ≡ length self.now.come.bytes }
    {
        self.come.len()
    }

    /// Whether nothing has come yet.
    pub fn is_empty(&self) -> bool
        ensures { result ≡ (length self.now.come.bytes == 0) }
    {
        self.come.is_empty()
    }
}
