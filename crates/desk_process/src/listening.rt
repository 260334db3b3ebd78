//! A socket that a service listens at.

use crate::ready::Ready;
use crate::socket::{Listener, Stream};
use mio::{Interest, Registry, Token};
use relay_http::Offered;
use std::io;

/// A socket that peers connect to, with the routes that are there.
#[derive(Drop)]
pub(crate) struct Listening {
    listener: Listener,
    /// Whether a peer waits to be accepted.
    waiting: Ready,
    /// The routes that its connections have.
    offered: Offered,
    /// More may wait to be accepted.
    more_wait: bool,
}

impl Listening {
    /// A socket with these routes. Nobody waits to be accepted yet.
    pub(crate) fn new(
        rt: &HostRuntime,
        listener: Listener,
        offered: Offered,
    ) -> io::Result<Listening> {
        let waiting = Ready::new(rt, listener.descriptor(), Interest::READABLE)?;
        Ok(Listening {
            listener,
            waiting,
            offered,
            more_wait: false,
        })
    }

    /// Has the poll tell when a peer waits.
    pub(crate) fn watch(&mut self, registry: &Registry, token: Token) -> io::Result<()> {
        self.listener.watch(registry, token)
    }

    /// The socket of the next peer and the routes that it has, or `WouldBlock` where none waits.
    pub(crate) fn accept(&self) -> io::Result<(Stream, Offered)> {
        Ok((self.listener.accept()?, self.offered))
    }

    /// Whether messages are taken here.
    pub(crate) fn takes_messages(&self) -> bool {
        matches!(self.offered, Offered::All)
    }

    /// Whether more may wait to be accepted.
    pub(crate) fn may_wait(&self) -> bool {
        self.more_wait
    }

    /// Notes whether more may wait to be accepted.
    pub(crate) fn note(&mut self, more_wait: bool) {
        self.more_wait = more_wait;
    }

    /// Whether a peer waits, as far as it can be told.
    pub(crate) fn has_waiting(&mut self) -> bool {
        self.waiting.is_ready().unwrap_or(true)
    }
}
