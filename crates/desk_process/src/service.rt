//! The connections of a service, and whose turn it is.

use crate::connection::{Buffers, Connection, Next, Peer, Step};
use crate::history::take_history;
use crate::listening::Listening;
use crate::log::{Answered, Log, Serving};
use crate::orders::{MOST_READ, Orders};
use crate::socket::Stream;
use crate::taking::{Stays, take};
use desk::{Desk, Keeper, Refusal};
use mio::event::Events;
use mio::{Poll, Token};
use relay_http::{HttpResponse, Offered, Received, Routes, ServeFault};
use std::alloc::{AllocFailed, Global};
use std::collections::VecDeque;
use std::io::{self, ErrorKind};
use std::time::{Duration, Instant};
use sudo_words::Moment;

/// The most connections that are kept at once.
const MOST_CONNECTIONS: usize = 4_096;

/// The most connections that are accepted at one socket in one turn, the most questions that are
/// answered, and the most connections that are read once more before one is let go.
const MOST_AT_ONCE: usize = 64;

/// The milliseconds after which no further question is answered in one turn.
const MOST_BUSY: u64 = 20;

/// The milliseconds between two questions of the service's own to a desk whose storage failed.
const TO_ASK_AGAIN: u64 = 500;

/// The milliseconds after which a connection that was answered is looked at again, where nothing
/// else comes before.
const TO_LINGER: u64 = 10;

/// The milliseconds that responses still have to go out, once the storage is shut.
const TO_END: u64 = 500;

/// The most sockets that are listened at.
const MOST_SOCKETS: usize = 2;

/// The token of the orders, behind those of the sockets.
const ORDERS: Token = Token(MOST_CONNECTIONS + MOST_SOCKETS);

/// The places that whole requests at a socket for questions leave to messages.
const KEPT_FOR_MESSAGES: usize = 64;

/// The places of the connections whose requests are whole, each kind in the order in which they
/// came.
#[derive(Drop)]
struct RequestQueues {
    posts: VecDeque<usize>,
    questions: VecDeque<usize>,
}

/// How a service ended.
#[derive(Clone, Copy)]
pub(crate) enum End {
    /// All the connections that it was to accept have come and are over.
    Served,
    /// The desk's storage failed, and the desk answers no question any more.
    StorageFailed,
}

/// What is known of the desk's storage.
#[derive(Clone, Copy)]
enum Storage {
    /// The storage has not failed since the desk last answered a question of the service's own.
    Answers,
    /// The storage failed, as where a disk is full. At this millisecond the service asks the desk
    /// whether it still answers.
    Failed { ask_at: u64 },
    /// The storage is shut, and stays so until it is opened again. The service ends at this
    /// millisecond at the latest, even if responses are not out.
    Shut { end_at: u64 },
}

/// The sockets that are listened at, with their connections.
#[derive(Drop)]
pub(crate) struct Service {
    poll: Poll,
    /// In the order in which they are accepted from. The poll's token of a socket is its place
    /// here behind all places of connections, and that of a connection its place.
    sockets: Vec<Listening>,
    routes: Routes,
    buffers: Buffers,
    /// The orders of whoever started the service, if it takes orders.
    orders: Option<Orders>,
    places: Vec<Option<Connection>>,
    queues: RequestQueues,
    /// The places of the connections whose responses went out since the last wait. The poll tells
    /// nothing about them.
    lingering: VecDeque<usize>,
    /// How many connections were accepted.
    arrivals: u64,
    /// How many connections are open.
    open: usize,
    /// How many connections are still to be accepted.
    left: u64,
    began: Instant,
    /// The milliseconds that exchanges took, which count against no peer.
    busy: u64,
    storage: Storage,
}

fn millis(time: Duration) -> u64 {
    u64::try_from(time.as_millis()).unwrap_or(u64::MAX)
}

/// Room for the events of all connections at once.
pub(crate) fn events(rt: &HostRuntime) -> io::Result<Events> {
    match Events::with_capacity(rt.alloc(), MOST_CONNECTIONS) {
        Ok(events) => Ok(events),
        Err(_) => Err(io::Error::from(ErrorKind::OutOfMemory)),
    }
}

impl RequestQueues {
    /// Queues in which no request waits yet.
    fn new(alloc: Global) -> RequestQueues {
        RequestQueues {
            posts: VecDeque::new(alloc),
            questions: VecDeque::new(alloc),
        }
    }

    /// How many requests wait for their turn.
    fn len(&self) -> usize {
        self.posts.len().saturating_add(self.questions.len())
    }

    /// Whether no request waits for its turn.
    fn is_empty(&self) -> bool {
        self.posts.is_empty() && self.questions.is_empty()
    }

    /// Has a connection wait behind the others of its kind.
    fn push(&mut self, at: usize, is_post: bool) -> Result<(), AllocFailed<usize>> {
        if is_post {
            self.posts.push_back(at)
        } else {
            self.questions.push_back(at)
        }
    }
}

impl Service {
    /// A service that accepts so many connections, and listens nowhere yet.
    pub(crate) fn new(rt: &HostRuntime, requests: u64) -> io::Result<Service> {
        let poll = Poll::new(rt)?;
        let orders = Orders::of(rt);
        if let Some(orders) = &orders {
            orders.watch(poll.registry(), ORDERS)?;
        }
        let (Ok(routes), Ok(buffers)) = (Routes::new(rt.alloc()), Buffers::new(rt.alloc())) else {
            return Err(io::Error::from(ErrorKind::OutOfMemory));
        };
        Ok(Service {
            poll,
            sockets: Vec::new(rt.alloc()),
            routes,
            buffers,
            orders,
            places: Vec::new(rt.alloc()),
            queues: RequestQueues::new(rt.alloc()),
            lingering: VecDeque::new(rt.alloc()),
            arrivals: 0,
            open: 0,
            left: requests,
            began: Instant::now(rt)?,
            busy: 0,
            storage: Storage::Answers,
        })
    }

    /// Has the service listen at one more socket.
    pub(crate) fn listen_at(&mut self, mut socket: Listening) -> io::Result<()> {
        let at = self.sockets.len();
        if at >= MOST_SOCKETS {
            return Err(io::Error::from(ErrorKind::InvalidInput));
        }
        socket.watch(self.poll.registry(), Token(MOST_CONNECTIONS + at))?;
        match self.sockets.push(socket) {
            Ok(()) => Ok(()),
            Err(_) => Err(io::Error::from(ErrorKind::OutOfMemory)),
        }
    }

    /// The milliseconds since the beginning in which no exchange ran.
    fn now(&self, rt: &HostRuntime) -> io::Result<u64> {
        Ok(millis(self.began.elapsed(rt)?).saturating_sub(self.busy))
    }

    /// Takes the connection out of a place, where there is one.
    fn take(&mut self, at: usize) -> Option<Connection> {
        if at < self.places.len() {
            self.places[at].take()
        } else {
            None
        }
    }

    /// Puts a connection at its place.
    fn put(&mut self, at: usize, connection: Connection) {
        if at < self.places.len() {
            self.places[at] = Some(connection);
        }
    }

    /// Counts a connection that is over, and says why where its response was not out.
    fn end(&mut self, rt: &HostRuntime, log: &mut Log, fault: Option<ServeFault>) {
        self.open = self.open.saturating_sub(1);
        if let Some(fault) = fault {
            log.say(rt, &fault);
        }
    }

    /// Puts a connection back that was answered, to look at it again a little later. Most peers
    /// have closed by then, and the poll did not have to tell about them.
    fn linger(&mut self, rt: &HostRuntime, log: &mut Log, at: usize, connection: Connection) {
        match self.lingering.push_back(at) {
            Ok(()) => self.put(at, connection),
            Err(_) => self.end(rt, log, None),
        }
    }

    /// Puts a connection back, to wait for its peer, or ends it.
    fn settle(&mut self, rt: &HostRuntime, log: &mut Log, at: usize, next: Next) {
        match next {
            Next::Waits(mut connection) => {
                match connection.watch(self.poll.registry(), Token(at)) {
                    Ok(()) => self.put(at, connection),
                    Err(_) => self.end(rt, log, connection.fault()),
                }
            }
            Next::Lingers(mut connection) => match connection.unwatch(self.poll.registry()) {
                Ok(()) => self.linger(rt, log, at, connection),
                Err(_) => self.end(rt, log, None),
            },
            Next::Ends => self.end(rt, log, None),
            Next::Fails(fault) => self.end(rt, log, Some(fault)),
        }
    }

    /// Has a request that has come wait for its turn. Where memory runs out for that, the response
    /// says so.
    fn queue(
        &mut self,
        rt: &HostRuntime,
        log: &mut Log,
        at: usize,
        peer: Peer,
        received: Received,
        now: u64,
    ) {
        match self.queues.push(at, received.is_post()) {
            Ok(()) => self.put(at, peer.wait_for_turn(received)),
            Err(_) => {
                let response = received.starve(&self.routes);
                self.respond(rt, log, at, peer, response, now);
            }
        }
    }

    /// Begins to send a response, and says a 503 in the log.
    fn respond(
        &mut self,
        rt: &HostRuntime,
        log: &mut Log,
        at: usize,
        peer: Peer,
        response: HttpResponse,
        now: u64,
    ) {
        if let Some(line) = Answered::of(response.status, response.refusal) {
            log.say(rt, &line);
            if line.is_of_storage() {
                self.doubt(now);
            }
        }
        let next = peer.respond(response.rest, &mut self.buffers, now);
        self.settle(rt, log, at, next);
    }

    /// Goes on with the connection at a place as far as its peer lets it. Once the request has
    /// come, the connection waits for its turn.
    fn go_on(&mut self, rt: &HostRuntime, log: &mut Log, at: usize, now: u64) {
        let Some(connection) = self.take(at) else {
            return;
        };
        if connection.is_received() {
            self.put(at, connection);
            return;
        }
        match connection.go_on(&self.routes, &mut self.buffers, now) {
            Step::Goes(next) => self.settle(rt, log, at, next),
            Step::Came(peer, received) => self.queue(rt, log, at, peer, received, now),
            Step::Responds(peer, response) => self.respond(rt, log, at, peer, response, now),
        }
    }

    /// Has the desk answer the request of the connection at a place, and begins to send the
    /// response.
    fn answer<K: Keeper>(
        &mut self,
        rt: &HostRuntime,
        desk: &mut Desk<K>,
        log: &mut Log,
        at: usize,
    ) -> io::Result<()> {
        let began = Instant::now(rt)?;
        let Some(connection) = self.take(at) else {
            return Ok(());
        };
        let answered = connection.answer(rt.alloc(), &self.routes, desk);
        self.busy = self.busy.saturating_add(millis(began.elapsed(rt)?));
        let now = self.now(rt)?;
        match answered {
            Ok((peer, response)) => self.respond(rt, log, at, peer, response, now),
            Err(connection) => self.put(at, connection),
        }
        Ok(())
    }

    /// Has the desk take the roster that an order names, and says what is served then, or why the
    /// roster stays.
    fn obey<K: Keeper>(
        &mut self,
        rt: &HostRuntime,
        desk: &mut Desk<K>,
        log: &mut Log,
        path: &str,
        order: &[u8],
    ) -> io::Result<()> {
        let began = Instant::now(rt)?;
        let taken = take(rt, desk, path, order);
        self.busy = self.busy.saturating_add(millis(began.elapsed(rt)?));
        match &taken {
            Ok(digest) => {
                log.say(rt, &Serving::now(desk, digest.as_str()));
                take_history(rt, desk, log);
            }
            Err(why) => {
                log.say(rt, &Stays { path, why });
                if why.is_of_storage() {
                    let now = self.now(rt)?;
                    self.doubt(now);
                }
            }
        }
        Ok(())
    }

    /// Reads what has come of orders, and obeys each order that is whole. Where no more can come,
    /// or none can be read, the service awaits no orders from then on.
    fn take_orders<K: Keeper>(
        &mut self,
        rt: &HostRuntime,
        desk: &mut Desk<K>,
        log: &mut Log,
        path: &str,
    ) -> io::Result<()> {
        let Some(mut orders) = self.orders.take() else {
            return Ok(());
        };
        let mut bytes = [0u8; MOST_READ];
        let Some(count) = orders.read(rt, &mut bytes) else {
            let _ = orders.unwatch(self.poll.registry());
            return Ok(());
        };
        for byte in bytes.iter().take(count) {
            if let Some(order) = orders.push(rt.alloc(), *byte) {
                self.obey(rt, desk, log, path, order.as_slice())?;
            }
        }
        orders.watch_again(self.poll.registry(), ORDERS)?;
        self.orders = Some(orders);
        Ok(())
    }

    /// Has the desk asked soon whether it still answers.
    fn doubt(&mut self, now: u64) {
        if let Storage::Answers = self.storage {
            self.storage = Storage::Failed {
                ask_at: now.saturating_add(TO_ASK_AGAIN),
            };
        }
    }

    /// Asks a desk whose storage failed whether it still answers. If not, no connection is accepted
    /// any more, and the service ends soon.
    fn ask_desk<K: Keeper>(&mut self, rt: &HostRuntime, desk: &mut Desk<K>) -> io::Result<()> {
        let Storage::Failed { ask_at } = self.storage else {
            return Ok(());
        };
        if self.now(rt)? < ask_at {
            return Ok(());
        }
        let began = Instant::now(rt)?;
        let answer = match Moment::from_secs(0) {
            Some(moment) => desk.live_at(moment).map(drop),
            None => Ok(()),
        };
        self.busy = self.busy.saturating_add(millis(began.elapsed(rt)?));
        let now = self.now(rt)?;
        self.storage = match answer {
            Ok(()) => Storage::Answers,
            Err(Refusal::Storage) => Storage::Shut {
                end_at: now.saturating_add(TO_END),
            },
            Err(_) => Storage::Failed {
                ask_at: now.saturating_add(TO_ASK_AGAIN),
            },
        };
        Ok(())
    }

    /// Has the desk answer all POSTs that are whole, and then questions for a moment: so a delivery
    /// that comes next waits for few questions, however many there are.
    fn answer_some<K: Keeper>(
        &mut self,
        rt: &HostRuntime,
        desk: &mut Desk<K>,
        log: &mut Log,
    ) -> io::Result<()> {
        for _ in 0..MOST_CONNECTIONS {
            match self.queues.posts.pop_front() {
                Some(at) => self.answer(rt, desk, log, at)?,
                None => break,
            }
        }
        let until = self.busy.saturating_add(MOST_BUSY);
        for _ in 0..MOST_AT_ONCE {
            match self.queues.questions.pop_front() {
                Some(at) => self.answer(rt, desk, log, at)?,
                None => break,
            }
            if self.busy >= until {
                break;
            }
        }
        Ok(())
    }

    /// A place for one more connection, where there is one.
    fn free_place(&mut self) -> Option<usize> {
        for at in 0..self.places.len() {
            if self.places[at].is_none() {
                return Some(at);
            }
        }
        if self.places.len() >= MOST_CONNECTIONS || self.places.push(None).is_err() {
            return None;
        }
        self.places.len().checked_sub(1)
    }

    /// The slowest connection that may be let go for another, and its pace. Among equally slow
    /// connections it is the one that is due first, and then the one that came first: the request
    /// of a later one may be on its way.
    fn slowest(&self, now: u64) -> Option<(usize, u64)> {
        let mut found: Option<(usize, (u64, u64, u64))> = None;
        for at in 0..self.places.len() {
            let Some(connection) = &self.places[at] else {
                continue;
            };
            let Some(pace) = connection.pace(now) else {
                continue;
            };
            let rank = (pace, connection.due(), connection.arrival());
            found = match found {
                Some((_, first)) if first <= rank => found,
                _ => Some((at, rank)),
            };
        }
        found.map(|(at, (pace, _, _))| (at, pace))
    }

    /// Lets a connection go.
    fn let_go(&mut self, rt: &HostRuntime, log: &mut Log, at: usize) {
        if let Some(connection) = self.take(at) {
            self.end(rt, log, connection.fault());
        }
    }

    /// Lets the slowest connection go, if any may be let go. The bytes that have come on it are
    /// read first: where they change its pace, the slowest is looked for again.
    fn let_slowest_go(&mut self, rt: &HostRuntime, log: &mut Log, now: u64) -> bool {
        for _ in 0..MOST_AT_ONCE {
            let Some((at, pace)) = self.slowest(now) else {
                return false;
            };
            self.go_on(rt, log, at, now);
            let is_as_slow = match self.places.get(at) {
                Some(Some(connection)) => connection.pace(now) == Some(pace),
                _ => return true,
            };
            if is_as_slow {
                self.let_go(rt, log, at);
                return true;
            }
        }
        false
    }

    /// Takes up a connection that was just accepted at a socket with these routes. Where there is
    /// no place for it, the slowest is let go.
    fn admit(
        &mut self,
        rt: &HostRuntime,
        log: &mut Log,
        stream: Stream,
        offered: Offered,
        now: u64,
    ) {
        self.left = self.left.saturating_sub(1);
        let place = match self.free_place() {
            Some(at) => Some(at),
            None => {
                self.let_slowest_go(rt, log, now);
                self.free_place()
            }
        };
        let Some(at) = place else {
            log.say(rt, &ServeFault::NoMemory);
            return;
        };
        let connection = Connection::new(rt.alloc(), stream, offered, self.arrivals, now);
        self.put(at, connection);
        self.arrivals = self.arrivals.saturating_add(1);
        self.open = self.open.saturating_add(1);
        self.go_on(rt, log, at, now);
    }

    /// Whether no connection is accepted any more.
    fn is_closed(&self) -> bool {
        self.left == 0 || matches!(self.storage, Storage::Shut { .. })
    }

    /// Notes whether more may wait to be accepted at a socket.
    fn note(&mut self, socket: usize, more_wait: bool) {
        if socket < self.sockets.len() {
            self.sockets[socket].note(more_wait);
        }
    }

    /// Whether a peer waits to be accepted at a socket.
    fn has_waiting(&mut self, socket: usize) -> bool {
        socket < self.sockets.len() && self.sockets[socket].has_waiting()
    }

    /// The next peer at a socket, or `WouldBlock` where none waits.
    fn next_at(&self, socket: usize) -> io::Result<(Stream, Offered)> {
        match self.sockets.get(socket) {
            Some(listening) => listening.accept(),
            None => Err(io::Error::from(ErrorKind::WouldBlock)),
        }
    }

    /// The most requests that may wait for their turn while peers at a socket are accepted.
    fn most_waiting(&self, socket: usize) -> usize {
        match self.sockets.get(socket) {
            Some(listening) if listening.takes_messages() => MOST_CONNECTIONS,
            _ => MOST_CONNECTIONS - KEPT_FOR_MESSAGES,
        }
    }

    /// Accepts peers that have connected to a socket. While no connection may be let go for
    /// another, none is accepted past the most. A connection that cannot be accepted is an error
    /// if none is open.
    ///
    /// To accept where nobody waits costs the system a socket that it makes and drops, and fails
    /// for want of a descriptor first: so the service first asks whether another peer waits.
    fn accept_at(
        &mut self,
        rt: &HostRuntime,
        log: &mut Log,
        socket: usize,
        now: u64,
    ) -> io::Result<()> {
        self.note(socket, false);
        for _ in 0..MOST_AT_ONCE {
            if self.is_closed() {
                return Ok(());
            }
            if self.queues.len() >= self.most_waiting(socket) {
                break;
            }
            match self.next_at(socket) {
                Ok((stream, offered)) => self.admit(rt, log, stream, offered, now),
                Err(error) => match error.kind() {
                    ErrorKind::WouldBlock => return Ok(()),
                    ErrorKind::ConnectionAborted | ErrorKind::Interrupted => {}
                    _ if self.let_slowest_go(rt, log, now) => {}
                    _ if self.open > 0 => break,
                    _ => return Err(error),
                },
            }
            if !self.has_waiting(socket) {
                return Ok(());
            }
        }
        self.note(socket, true);
        Ok(())
    }

    /// Whether more may wait to be accepted at a socket.
    fn may_wait(&self, socket: usize) -> bool {
        match self.sockets.get(socket) {
            Some(listening) => listening.may_wait(),
            None => false,
        }
    }

    /// Whether more may wait to be accepted at any socket.
    fn more_wait(&self) -> bool {
        self.sockets.iter().any(|socket| socket.may_wait())
    }

    /// Accepts what has connected, socket after socket.
    fn accept(&mut self, rt: &HostRuntime, log: &mut Log, now: u64) -> io::Result<()> {
        for socket in 0..self.sockets.len() {
            if self.may_wait(socket) {
                self.accept_at(rt, log, socket, now)?;
            }
        }
        Ok(())
    }

    /// Lets go each connection that is due.
    fn let_due_go(&mut self, rt: &HostRuntime, log: &mut Log, now: u64) {
        for at in 0..self.places.len() {
            let is_due = match self.places.get(at) {
                Some(Some(connection)) => connection.due() <= now,
                _ => false,
            };
            if is_due {
                self.let_go(rt, log, at);
            }
        }
    }

    /// When the service goes on by itself on account of the desk's storage.
    fn storage_due(&self) -> Option<u64> {
        match self.storage {
            Storage::Answers => None,
            Storage::Failed { ask_at } => Some(ask_at),
            Storage::Shut { end_at } => Some(end_at),
        }
    }

    /// How long to wait for an event: not at all where a request waits for its turn or more peers
    /// may wait to be accepted. Else the wait lasts until a connection is due or to be looked at
    /// again, or the storage is due; it has no end where nothing is due.
    fn patience(&self, now: u64) -> Option<Duration> {
        if self.more_wait() || !self.queues.is_empty() {
            return Some(Duration::ZERO);
        }
        let mut first = self.storage_due();
        if !self.lingering.is_empty() {
            let again = now.saturating_add(TO_LINGER);
            first = Some(first.unwrap_or(u64::MAX).min(again));
        }
        for at in 0..self.places.len() {
            if let Some(connection) = &self.places[at] {
                first = Some(first.unwrap_or(u64::MAX).min(connection.due()));
            }
        }
        first.map(|due| Duration::from_millis(due.saturating_sub(now).saturating_add(1)))
    }

    /// Looks again at so many connections that were answered, the longest waiting ones first. A
    /// connection whose peer has closed is over; the poll tells about the others from then on.
    fn end_lingering(&mut self, rt: &HostRuntime, log: &mut Log, count: usize, now: u64) {
        for _ in 0..count {
            match self.lingering.pop_front() {
                Some(at) => self.go_on(rt, log, at, now),
                None => break,
            }
        }
    }

    /// Waits until a peer is ready or a connection is due, and reads what has come on all
    /// connections. Only then does it accept new connections and answer requests. Last, it looks
    /// again at connections that were answered, obeys orders, so that none comes between two
    /// answers, asks a desk whose storage failed, and lets go connections that are due. The clock
    /// is read once for all that has come.
    fn turn<K: Keeper>(
        &mut self,
        rt: &HostRuntime,
        desk: &mut Desk<K>,
        roster: &str,
        log: &mut Log,
        events: &mut Events,
        now: u64,
    ) -> io::Result<()> {
        let patience = self.patience(now);
        let lingering = self.lingering.len();
        self.poll.poll(events, patience)?;
        let now = self.now(rt)?;
        let mut is_ordered = false;
        for event in events.iter() {
            let at = event.token().0;
            if event.token() == ORDERS {
                is_ordered = true;
            } else if at >= MOST_CONNECTIONS {
                self.note(at - MOST_CONNECTIONS, true);
            } else {
                self.go_on(rt, log, at, now);
            }
        }
        self.accept(rt, log, now)?;
        self.answer_some(rt, desk, log)?;
        self.end_lingering(rt, log, lingering, now);
        if is_ordered {
            self.take_orders(rt, desk, log, roster)?;
        }
        self.ask_desk(rt, desk)?;
        self.let_due_go(rt, log, now);
        Ok(())
    }

    /// How the service has ended, if it has.
    fn end_by(&self, now: u64) -> Option<End> {
        match self.storage {
            Storage::Shut { end_at } if self.open == 0 || end_at <= now => Some(End::StorageFailed),
            _ if self.left == 0 && self.open == 0 => Some(End::Served),
            _ => None,
        }
    }

    /// Serves until all the connections that it accepts have come and are over, or until the desk's
    /// storage is shut. An order to take another roster means the file at the path `roster`.
    pub(crate) fn run<K: Keeper>(
        &mut self,
        rt: &HostRuntime,
        desk: &mut Desk<K>,
        roster: &str,
        log: &mut Log,
        events: &mut Events,
    ) -> io::Result<End> {
        for _ in 0..u64::MAX {
            let now = self.now(rt)?;
            if let Some(end) = self.end_by(now) {
                return Ok(end);
            }
            self.turn(rt, desk, roster, log, events, now)?;
        }
        Ok(End::Served)
    }
}
