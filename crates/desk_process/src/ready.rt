//! Whether a descriptor is ready at once.

use mio::event::Events;
use mio::unix::SourceFd;
use mio::{Interest, Poll, Token};
use std::io::{self, ErrorKind};
use std::os::fd::RawFd;
use std::time::Duration;

/// Tells whether a descriptor is ready at once.
#[derive(Drop)]
pub(crate) struct Ready {
    poll: Poll,
    events: Events,
    fd: RawFd,
    interest: Interest,
}

impl Ready {
    /// Watches this descriptor for this interest. A regular file is an error.
    pub(crate) fn new(rt: &HostRuntime, fd: RawFd, interest: Interest) -> io::Result<Ready> {
        let poll = Poll::new(rt)?;
        let Ok(events) = Events::with_capacity(rt.alloc(), 1) else {
            return Err(io::Error::from(ErrorKind::OutOfMemory));
        };
        poll.registry()
            .register(&mut SourceFd(&fd), Token(0), interest)?;
        Ok(Ready {
            poll,
            events,
            fd,
            interest,
        })
    }

    /// Whether the descriptor is ready. Registering it again has the poll tell again what it told.
    pub(crate) fn is_ready(&mut self) -> io::Result<bool> {
        self.poll
            .registry()
            .reregister(&mut SourceFd(&self.fd), Token(0), self.interest)?;
        self.poll.poll(&mut self.events, Some(Duration::ZERO))?;
        if self.interest.is_writable() {
            Ok(self.events.iter().any(|event| event.is_writable()))
        } else {
            Ok(self.events.iter().any(|event| event.is_readable()))
        }
    }
}
