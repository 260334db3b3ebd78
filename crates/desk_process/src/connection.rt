//! One connection: its socket, how far its exchange has come, and by when it has to go on. Nothing
//! here waits for the peer.

use crate::socket::Stream;
use desk::{Desk, Keeper};
use mio::{Interest, Registry, Token};
use relay_http::{
    Counted, ExchangeBuffer, HttpResponse, Offered, Outgoing, Received, Receiving, Reception,
    Routes, Sending, ServeFault,
};
use std::alloc::Global;
use std::io::{self, ErrorKind, Read};
use sudo_words::NoMemory;

/// The milliseconds in which a request has to come whole.
const TO_RECEIVE: u64 = 10_000;

/// The milliseconds in which a response has to go out.
const TO_RESPOND: u64 = 30_000;

/// The milliseconds that a peer has to close, or to send more, once the response is out.
const TO_CLOSE: u64 = 1_000;

/// The most reads of what a peer sends after the response.
const MOST_READS: usize = 64;

/// The most bytes of one of these reads.
const MOST_LAST: usize = 1_024;

/// The bytes that a peer is taken to have sent when it connects, so that one that has just come is
/// not taken for a slow one.
const HEAD_START: u64 = 512;

/// The zeros of an empty buffer.
const ZEROS: [u8; MOST_LAST] = [0; MOST_LAST];

/// The buffers that connections use one after another. What an earlier use left is never looked at.
#[derive(Drop)]
pub(crate) struct Buffers {
    /// Where the bytes of a read come in and a short response is put together.
    exchange: ExchangeBuffer,
    /// Where the bytes come in that a peer sends after the response.
    last: Vec<u8>,
}

impl Buffers {
    pub(crate) fn new(alloc: Global) -> Result<Buffers, NoMemory> {
        Ok(Buffers {
            exchange: ExchangeBuffer::new(alloc)?,
            last: Vec::from_slice(alloc, &ZEROS)?,
        })
    }
}

/// How a connection goes on whose request is not queued.
#[derive(Drop)]
pub(crate) enum Next {
    /// The connection waits for its peer.
    Waits(Connection),
    /// The response went out just now, and the peer has to close.
    Lingers(Connection),
    /// The connection is over.
    Ends,
    /// The connection is over before its response was out.
    Fails(ServeFault),
}

/// What a step of a connection comes to.
#[derive(Drop)]
pub(crate) enum Step {
    /// The connection goes on like this.
    Goes(Next),
    /// The request has come, and has to wait for its turn.
    Came(Peer, Received),
    /// Memory ran out for more of the request, and this is the response.
    Responds(Peer, HttpResponse),
}

/// How far a connection has come. Each stage holds what `relay_http` gave for it, and is used up by
/// the next.
#[derive(Drop)]
enum Stage {
    /// So much of the request has come.
    Receiving(Receiving),
    /// The request has come.
    Received(Received),
    /// So much of the response is left to send.
    Responding(Outgoing),
    /// The response is out, and bytes that came after it were read so many times.
    Closing { reads: usize },
}

/// The peer of a connection.
#[derive(Drop)]
pub(crate) struct Peer {
    /// The peer's socket, which does not block.
    stream: Stream,
    /// The millisecond at which the peer is let go: the last there is while its request is queued.
    due: u64,
    /// How many peers were accepted before this one.
    arrival: u64,
    /// The millisecond at which the peer was accepted.
    came: u64,
    /// What the poll watches the peer for, if it watches the peer at all.
    watched: Option<Interest>,
}

/// A connection.
#[derive(Drop)]
pub(crate) struct Connection {
    peer: Peer,
    stage: Stage,
}

/// Takes what the peer still sends, so that the peer can read the response before the connection is
/// closed. Answers whether the peer has closed or sent too much, or a read failed.
fn has_closed(mut stream: &Stream, chunk: &mut [u8], reads: &mut usize) -> bool {
    for _ in 0..MOST_READS {
        if *reads >= MOST_READS {
            break;
        }
        match stream.read(chunk) {
            Ok(0) => return true,
            Ok(_) => *reads += 1,
            Err(error) => return error.kind() != ErrorKind::WouldBlock,
        }
    }
    true
}

impl Peer {
    /// The connection, at this stage.
    fn at(self, stage: Stage) -> Connection {
        Connection { peer: self, stage }
    }

    /// Receives what has come of the request. The kind of the socket is looked up once, before all
    /// the reads, and not again at each read.
    fn receive(self, receiving: Receiving, routes: &Routes, buffers: &mut Buffers) -> Step {
        let buffer = &mut buffers.exchange;
        let received = match &self.stream {
            Stream::Tcp(stream) => receiving.receive(routes, &mut Counted::new(stream), buffer),
            Stream::Unix(stream) => receiving.receive(routes, &mut Counted::new(stream), buffer),
        };
        match received {
            Ok(Reception::Came(received)) => Step::Came(self, received),
            Ok(Reception::Waits(receiving)) => {
                Step::Goes(Next::Waits(self.at(Stage::Receiving(receiving))))
            }
            Ok(Reception::Starved(response)) => Step::Responds(self, response),
            Err(fault) => Step::Goes(Next::Fails(fault)),
        }
    }

    /// The connection, which waits until the desk answers its request. No time runs against the
    /// peer meanwhile.
    pub(crate) fn wait_for_turn(mut self, received: Received) -> Connection {
        self.due = u64::MAX;
        self.at(Stage::Received(received))
    }

    /// Begins to send a response, and starts the time in which the response has to go out.
    pub(crate) fn respond(mut self, response: Outgoing, buffers: &mut Buffers, now: u64) -> Next {
        self.due = now.saturating_add(TO_RESPOND);
        self.send(response, buffers, now)
    }

    /// Sends as much of the rest of the response as the peer takes.
    fn send(self, response: Outgoing, buffers: &mut Buffers, now: u64) -> Next {
        let sent = response.send_on(&mut Counted::new(&self.stream), &mut buffers.exchange);
        match sent {
            Ok(Sending::Out) => self.close(now),
            Ok(Sending::Waits(rest)) => Next::Waits(self.at(Stage::Responding(rest))),
            Err(fault) => Next::Fails(fault),
        }
    }

    /// Ends the response. A peer closes a moment later, so nothing is read yet.
    fn close(mut self, now: u64) -> Next {
        if self.stream.end().is_err() {
            return Next::Ends;
        }
        self.due = now.saturating_add(TO_CLOSE);
        Next::Lingers(self.at(Stage::Closing { reads: 0 }))
    }

    /// Takes what the peer still sends after the response, which was read so many times before.
    fn read_last(mut self, mut reads: usize, chunk: &mut [u8], now: u64) -> Next {
        if has_closed(&self.stream, chunk, &mut reads) {
            return Next::Ends;
        }
        self.due = now.saturating_add(TO_CLOSE);
        Next::Waits(self.at(Stage::Closing { reads }))
    }
}

impl Connection {
    /// A connection that was just accepted at a socket with these routes, after so many others.
    pub(crate) fn new(
        alloc: Global,
        stream: Stream,
        offered: Offered,
        arrival: u64,
        now: u64,
    ) -> Connection {
        let peer = Peer {
            stream,
            due: now.saturating_add(TO_RECEIVE),
            arrival,
            came: now,
            watched: None,
        };
        peer.at(Stage::Receiving(Receiving::new(alloc, offered)))
    }

    /// The millisecond at which the connection is let go.
    pub(crate) fn due(&self) -> u64 {
        self.peer.due
    }

    /// How many connections were accepted before this one.
    pub(crate) fn arrival(&self) -> u64 {
        self.peer.arrival
    }

    /// Has the poll tell when the peer is ready for what the connection does next.
    pub(crate) fn watch(&mut self, registry: &Registry, token: Token) -> io::Result<()> {
        let next = match &self.stage {
            Stage::Responding(_) => Interest::WRITABLE,
            Stage::Receiving(_) | Stage::Received(_) | Stage::Closing { .. } => Interest::READABLE,
        };
        if self.peer.watched == Some(next) {
            return Ok(());
        }
        self.unwatch(registry)?;
        self.peer.stream.watch(registry, token, next)?;
        self.peer.watched = Some(next);
        Ok(())
    }

    /// Has the poll tell nothing about the peer.
    pub(crate) fn unwatch(&mut self, registry: &Registry) -> io::Result<()> {
        if self.peer.watched.is_some() {
            self.peer.stream.unwatch(registry)?;
            self.peer.watched = None;
        }
        Ok(())
    }

    /// Whether the request has come and waits for its turn.
    pub(crate) fn is_received(&self) -> bool {
        matches!(&self.stage, Stage::Received(_))
    }

    /// How fast the connection is: the slowest is let go first for another. A connection
    /// that was answered is the slowest, then come those that ask, by the bytes a second that they
    /// sent, and last those whose response is not out. None while the request waits for its turn.
    pub(crate) fn pace(&self, now: u64) -> Option<u64> {
        match &self.stage {
            Stage::Closing { .. } => Some(0),
            Stage::Receiving(receiving) => {
                let sent = HEAD_START.saturating_add(receiving.len() as u64);
                let seconds = now.saturating_sub(self.peer.came) / 1_000;
                Some((sent / seconds.saturating_add(1)).saturating_add(1))
            }
            Stage::Responding(_) => Some(u64::MAX),
            Stage::Received(_) => None,
        }
    }

    /// The fault if the connection is let go now: none once its response is out. A connection waits
    /// for its peer after a read or a write that failed since it would have blocked.
    pub(crate) fn fault(&self) -> Option<ServeFault> {
        match &self.stage {
            Stage::Receiving(_) | Stage::Received(_) => Some(ServeFault::ReadFailed),
            Stage::Responding(_) => Some(ServeFault::WriteFailed),
            Stage::Closing { .. } => None,
        }
    }

    /// Goes on as far as the peer lets it, and no further than until the request has come.
    pub(crate) fn go_on(self, routes: &Routes, buffers: &mut Buffers, now: u64) -> Step {
        let Connection { peer, stage } = self;
        match stage {
            Stage::Receiving(receiving) => peer.receive(receiving, routes, buffers),
            Stage::Received(received) => Step::Came(peer, received),
            Stage::Responding(rest) => Step::Goes(peer.send(rest, buffers, now)),
            Stage::Closing { reads } => Step::Goes(peer.read_last(reads, &mut buffers.last, now)),
        }
    }

    /// Has the desk answer the request, if it has come.
    pub(crate) fn answer<K: Keeper>(
        self,
        alloc: Global,
        routes: &Routes,
        desk: &mut Desk<K>,
    ) -> Result<(Peer, HttpResponse), Connection> {
        let Connection { peer, stage } = self;
        match stage {
            Stage::Received(received) => Ok((peer, received.answer(alloc, routes, desk))),
            stage => Err(peer.at(stage)),
        }
    }
}
