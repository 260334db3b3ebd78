//! Listening, and what is said as a service begins and ends.

use crate::history::take_history;
use crate::listening::Listening;
use crate::log::{Log, Serving};
use crate::service::{End, Service, events};
use crate::socket::{At, listen};
use crate::trouble::Trouble;
use desk::{Desk, Keeper};
use desk_commands::Address;
use relay_http::Offered;
use std::{fmt, io};

/// What the words of the command line say about a service.
#[derive(Clone, Copy)]
pub(crate) struct Words<'a> {
    /// The path of the roster's file.
    pub(crate) roster: &'a str,
    /// Where the service listens.
    pub(crate) addr: &'a Address,
    /// Where it listens for questions alone, if anywhere.
    pub(crate) questions: Option<&'a Address>,
    /// How many connections the service takes; without a number, as many as come.
    pub(crate) requests: Option<u64>,
}

/// Who can reach an address and a port with these routes, as a line.
#[derive(Clone, Copy)]
struct Warning<'a> {
    at: &'a At<'a>,
    offered: Offered,
}

/// What is said of a place once the service listens there, as a line.
#[derive(Clone, Copy)]
struct Listens<'a> {
    at: &'a At<'a>,
    offered: Offered,
}

impl fmt::Display for Listens<'_> {
    fn fmt<W: fmt::Write>(&self, f: &mut fmt::Formatter<W>) -> fmt::Result {
        match self.offered {
            Offered::All => write!(f, "listening {}", self.at),
            Offered::Questions => write!(f, "listening at {} for questions", self.at),
        }
    }
}

impl fmt::Display for Warning<'_> {
    fn fmt<W: fmt::Write>(&self, f: &mut fmt::Formatter<W>) -> fmt::Result {
        if self.at.is_loopback() {
            return match self.offered {
                Offered::All => write!(
                    f,
                    "WARNING: EVERY ACCOUNT OF THIS MACHINE CAN POST AT {} AS ANY RELAY AND READ EVERY FILE, AND TAKE THE PORT WHILE NOBODY LISTENS",
                    self.at
                ),
                Offered::Questions => write!(
                    f,
                    "WARNING: EVERY ACCOUNT OF THIS MACHINE CAN READ EVERY FILE AT {}, AND TAKE THE PORT WHILE NOBODY LISTENS",
                    self.at
                ),
            };
        }
        match self.offered {
            Offered::All => write!(
                f,
                "WARNING: {} IS NOT LOOPBACK. WHOEVER REACHES IT CAN POST AS ANY RELAY AND READ EVERY FILE",
                self.at
            ),
            Offered::Questions => write!(
                f,
                "WARNING: {} IS NOT LOOPBACK. WHOEVER REACHES IT CAN READ EVERY FILE",
                self.at
            ),
        }
    }
}

/// Why a service ended, as a line.
#[derive(Clone, Copy)]
struct Ended<'a>(&'a io::Result<End>);

impl fmt::Display for Ended<'_> {
    fn fmt<W: fmt::Write>(&self, f: &mut fmt::Formatter<W>) -> fmt::Result {
        match self.0 {
            Ok(End::Served) => {
                f.write_str("ended: all connections that were asked for are served")
            }
            Ok(End::StorageFailed) => {
                f.write_str("ended: the storage failed, and is to be opened again")
            }
            Err(error) => write!(f, "ended: {error}"),
        }
    }
}

/// The text of the address, without the `unix:` before a path.
fn text_of(addr: &Address) -> &str {
    match addr {
        Address::Tcp(place) => place.as_str(),
        Address::Unix(path) => path.as_str(),
    }
}

/// A failure at the address.
fn failed(rt: &HostRuntime, addr: &Address, error: io::Error) -> Trouble {
    Trouble::of_system(rt.alloc(), text_of(addr), error)
}

/// Has the service listen at the address with these routes, and tells where that is.
fn listen_as<'a>(
    rt: &HostRuntime,
    service: &mut Service,
    addr: &'a Address,
    offered: Offered,
) -> Result<At<'a>, Trouble> {
    let (listener, at) = listen(rt, addr).map_err(|error| failed(rt, addr, error))?;
    let socket = Listening::new(rt, listener, offered).map_err(|error| failed(rt, addr, error))?;
    service
        .listen_at(socket)
        .map_err(|error| failed(rt, addr, error))?;
    Ok(at)
}

/// Prints where the service listens, and warns where that has a port.
fn tell(rt: &HostRuntime, log: &mut Log, at: &At<'_>, offered: Offered) -> Result<(), Trouble> {
    let listens = Listens { at, offered };
    println!(rt; "{listens}").map_err(|error| Trouble::of_system(
        rt.alloc(),
        "standard output",
        error,
    ))?;
    if at.has_port() {
        log.say(rt, &Warning { at, offered });
    }
    Ok(())
}

/// Serves the desk at the address, `HOST:PORT` with port 0 for any free one, or `unix:` and a
/// path; and at another such address for questions alone, if there is one: no message is taken
/// there. The service takes so many connections; without a number, as many as come. The exchanges
/// are made one after the other, each once its request is there.
///
/// The service prints `listening` and the address, and a line for the other address, once it
/// listens at both. On the standard error it says what it serves, with the digest of the roster, at
/// first and once the desk takes another roster; why the desk takes none; a warning where an
/// address has a port; each 503 that is answered; each connection that is let go before its
/// response is out; and why it ended. The service ends once the desk's storage is shut after a
/// failure, since the desk would answer nothing any more. It fails where it cannot listen at an
/// address, where nothing can be printed, and where a connection cannot be accepted though no other
/// is open.
pub(crate) fn serve_at<K: Keeper>(
    rt: &HostRuntime,
    desk: &mut Desk<K>,
    roster: &str,
    words: Words<'_>,
) -> Result<End, Trouble> {
    let Words {
        addr,
        questions,
        requests,
        ..
    } = words;
    let mut events = events(rt).map_err(|error| failed(rt, addr, error))?;
    let requests = requests.unwrap_or(u64::MAX);
    let mut service = Service::new(rt, requests).map_err(|error| failed(rt, addr, error))?;
    let at = listen_as(rt, &mut service, addr, Offered::All)?;
    let asked_at = match questions {
        Some(addr) => Some(listen_as(rt, &mut service, addr, Offered::Questions)?),
        None => None,
    };
    let mut log = Log::new(rt);
    tell(rt, &mut log, &at, Offered::All)?;
    if let Some(at) = &asked_at {
        tell(rt, &mut log, at, Offered::Questions)?;
    }
    log.say(rt, &Serving::now(desk, roster));
    take_history(rt, desk, &mut log);
    let served = service.run(rt, desk, words.roster, &mut log, &mut events);
    log.say(rt, &Ended(&served));
    served.map_err(|error| failed(rt, addr, error))
}
