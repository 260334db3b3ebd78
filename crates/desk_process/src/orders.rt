//! Orders to a service while it serves: lines on the standard input, by whoever started it.

use mio::unix::SourceFd;
use mio::{Interest, Registry, Token};
use std::alloc::Global;
use std::io::{self, ErrorKind, Read};
use std::os::fd::RawFd;
use std::{env, mem, str};

/// The standard input.
const STANDARD_INPUT: RawFd = 0;

/// The variable of the environment that says whether the service takes orders, and from where.
const ORDERS_FROM: &str = "DESK_ORDERS";

/// The value of that variable with which orders come on the standard input.
const ON_STANDARD_INPUT: &str = "stdin";

/// The most bytes of an order.
const MOST_ORDER: usize = 128;

/// The most bytes that are read at once.
pub(crate) const MOST_READ: usize = 256;

/// The beginning of an order to take the roster's file. The digest of the file follows.
const TAKE_ROSTER: &str = "roster ";

/// The lines of the standard input as they come, each an order.
#[derive(Drop)]
pub(crate) struct Orders {
    line: Vec<u8>,
}

/// The digest that an order to take the roster's file names; none where the line is no such order.
pub(crate) fn wanted_in(line: &[u8]) -> Option<&str> {
    match str::from_utf8(line) {
        Ok(text) => text.strip_prefix(TAKE_ROSTER),
        Err(_) => None,
    }
}

impl Orders {
    /// The orders of this service, where its environment says that it takes any. Otherwise the
    /// standard input may be somebody else's, and is left alone.
    pub(crate) fn of(rt: &HostRuntime) -> Option<Orders> {
        match env::var(rt, ORDERS_FROM) {
            Ok(from) if from.as_str() == ON_STANDARD_INPUT => Some(Orders::new(rt.alloc())),
            _ => None,
        }
    }

    fn new(alloc: Global) -> Orders {
        Orders {
            line: Vec::new(alloc),
        }
    }

    /// Has the poll tell when something comes.
    pub(crate) fn watch(&self, registry: &Registry, token: Token) -> io::Result<()> {
        registry.register(&mut SourceFd(&STANDARD_INPUT), token, Interest::READABLE)
    }

    /// Has the poll tell once more where some bytes are left, of which it told before.
    pub(crate) fn watch_again(&self, registry: &Registry, token: Token) -> io::Result<()> {
        registry.reregister(&mut SourceFd(&STANDARD_INPUT), token, Interest::READABLE)
    }

    /// Has the poll tell nothing more.
    pub(crate) fn unwatch(&self, registry: &Registry) -> io::Result<()> {
        registry.deregister(&mut SourceFd(&STANDARD_INPUT))
    }

    /// Reads what has come, once the poll told that something has: how many bytes, or none where no
    /// more can come.
    pub(crate) fn read(&self, rt: &HostRuntime, bytes: &mut [u8]) -> Option<usize> {
        let mut input = rt.stdin();
        match input.read(bytes) {
            Ok(0) => None,
            Ok(count) => Some(count),
            Err(error) => match error.kind() {
                ErrorKind::Interrupted | ErrorKind::WouldBlock => Some(0),
                _ => None,
            },
        }
    }

    /// The line that ends with this byte, if one does. A line that is longer than an order is cut
    /// off one byte past the most, so it is no order.
    pub(crate) fn push(&mut self, alloc: Global, byte: u8) -> Option<Vec<u8>> {
        if byte == b'\n' {
            let whole = mem::replace(&mut self.line, Vec::new(alloc));
            return Some(whole);
        }
        if self.line.len() <= MOST_ORDER {
            let _ = self.line.push(byte);
        }
        None
    }
}
