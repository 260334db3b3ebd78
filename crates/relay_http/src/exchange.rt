//! A request that comes in pieces.

ghost use Rattle.std.specs.Prelude.{◌≡◌, ◌≢◌, ◌≤◌, ◌<◌, ◌+◌, ◌-◌, ◌++◌, ℕ, [], IfOk, OnErr};
ghost use Rattle.std.specs.Prelude.{◌==◌, Err, IfSome, None, Ok, OnOk, false, length, take, true};
ghost use Rattle.std.specs.Prelude.{vec_capacity};
ghost use Rattle.std.specs.Io.KnownBytes.{IsAtEnd, Keeps};
ghost use Rattle.httparse.specs.Grammar.{RequestHead};
ghost use Rattle.relay_http.specs.Content.{most_content};
ghost use Rattle.relay_http.specs.Request.{request_of};
ghost use Rattle.relay_http.specs.Needs.{HasNoHead, HasRead, IsNeedOf, IsSettled, after_reading};
ghost use Rattle.relay_http.specs.Needs.{most_read, most_room};
ghost use Rattle.relay_http.specs.declared.exchange.ReceiveFault.TheVariants as fault;
ghost use Rattle.relay_http.specs.Scan.{scanned};
ghost use Rattle.relay_http.specs.declared.exchange.Stage.TheVariants as stages;
ghost use Rattle.relay_http.specs.declared.head.Head.{Head};
ghost use Rattle.relay_http.specs.Stages.{IsFoundHead, IsStage};
ghost use Rattle.relay_http.specs.RequestBytes.{HasHead, IsHttpRequest, allow, most_head_bytes};
ghost use Rattle.relay_http.specs.declared.head_scan.HeadScan.TheVariants.{Blank, Ended};
ghost use Rattle.relay_http.specs.declared.route.Methods.TheVariants.{Post};

use crate::action::HttpRequest;
use crate::counted::Counted;
use crate::fault::RequestFault;
use crate::head::{Head, Looked, MOST_HEAD_BYTES, look};
use crate::head_scan::{HeadScan, scan};
use crate::methods::allow;
use crate::offered::Offered;
use crate::outgoing::ExchangeBuffer;
use crate::request::{NO_HEAD, is_cut_short, request_from};
use crate::response_head::BUFFER_SIZE;
use crate::route::Methods;
use crate::routes::Routes;
use messages::MOST_BYTES;
use std::alloc::Global;
use std::io::{ErrorKind, Read};
use std::marker::Model;
use sudo_words::NoMemory;

/// Room for the longest head and the longest content, which are 24,576 bytes, and one more read.
const MOST_ROOM: usize = 28_672;

/// What has to come before the request is known.
#[derive(Clone, Copy, Debug, PartialEq, Eq)]
pub enum Need {
    /// Nothing: no bytes that follow change the request.
    Nothing,
    /// The rest of the head.
    Head,
    /// So many more bytes of the content.
    Content(usize),
}

/// Why no more bytes of a request came.
#[derive(Clone, Copy, Debug, PartialEq, Eq)]
pub enum ReceiveFault {
    /// The read failed.
    Failed(ErrorKind),
    /// There was no memory for more bytes, and none was read.
    NoMemory,
}

/// How far a request has come.
#[derive(Clone, Copy)]
pub(crate) enum Stage {
    /// No head is there yet; the scan for its end has come so far.
    Begins(HeadScan),
    /// The head is there, and so many bytes of the content are missing.
    Lacks(Head, usize),
    /// The head is there, and the content where it is asked for.
    Found(Head),
    /// No head can come any more.
    Broken,
}

/// What has come of a request. Its head is parsed once it is there, and then not again; each byte
/// before the head's end is looked at by one scan, however the bytes come.
#[derive(Drop)]
pub struct Exchange {
    come: Vec<u8>,
    stage: Stage,
    /// The routes of the socket that it came to.
    offered: Offered,
}

impl Model for Exchange {
    ghost use Rattle.std.specs.Prelude.{vec_capacity};
    ghost use Rattle.relay_http.specs.Needs.{Taken};
    ghost use Rattle.relay_http.specs.Stages.{IsStage};

    ghost Value = { Taken };

    ghost view = { λ e. record {
      bytes = e.come.items;
      room = vec_capacity e.come;
      offered = e.offered;
    } };

    ghost invariant = { λ e. IsStage e.offered e.come.items e.stage };
}

/// How many bytes of a content of this size are missing where so many have come: none if the size
/// is a fault or over the limit.
fn lacking(size: Result<u64, RequestFault>, come: usize) -> Option<usize>
    ensures some { IfSome result (λ missing. (n : ℕ) × (size ≡ Ok n) × (missing ≡ n - come)) }
    ensures none { result ≡ None → (n : ℕ) → size ≡ Ok n → n ≤ most_content → n ≤ come }
{
    match size {
        Ok(n) if n <= MOST_BYTES as u64 && n > come as u64 => Some(n as usize - come),
        _ => None,
    }
}

/// How far a request has come whose head was found. The target's route is looked up only where
/// bytes of the content are missing.
fn found(routes: &Routes, offered: Offered, head: Head, bytes: &[u8]) -> Stage
    requires { IsFoundHead bytes.now head }
    ensures { IsStage offered bytes.now result }
{
    match lacking(head.size, bytes.len() - head.len) {
        Some(n) => {
            if is_cut_short(routes, offered, &head, bytes) {
                Stage::Lacks(head, n)
            } else {
                Stage::Found(head)
            }
        }
        None => Stage::Found(head),
    }
}

/// How far the request of these bytes has come, where the scan had come so far before this place.
fn looked(routes: &Routes, offered: Offered, line: HeadScan, bytes: &[u8], from: usize) -> Stage
    requires from { from ≤ length bytes.now }
    requires line { line ≡ scanned Blank (take from bytes.now) }
    ensures { IsStage offered bytes.now result }
{
    match look(bytes) {
        Looked::Found(head) => found(routes, offered, head, bytes),
        Looked::Partial => {
            if bytes.len() >= MOST_HEAD_BYTES {
                return Stage::Broken;
            }
            Stage::Begins(scan(line, &bytes[from..]))
        }
        Looked::Never => Stage::Broken,
    }
}

/// How far the scan comes with the bytes from this place on, unless the bytes are worth a look. A
/// look is due at the first bytes, at the end of the request line, at the end of the head, and once
/// no more bytes can be a head.
fn scanned_on(line: HeadScan, bytes: &[u8], from: usize) -> Option<HeadScan>
    requires from { from ≤ length bytes.now }
    requires line { line ≡ scanned Blank (take from bytes.now) }
    ensures { IfSome result (λ next. (next ≡ scanned Blank bytes.now) × (next ≢ Ended)
        × (length bytes.now < most_head_bytes)) }
{
    if from == 0 || bytes.len() >= MOST_HEAD_BYTES {
        return None;
    }
    let next = scan(line, &bytes[from..]);
    if line.is_due(next) { None } else { Some(next) }
}

/// Looks at the bytes. A look is seldom due; this stands apart to keep the loop that reads short.
#[inline(never)]
fn look_again(
    stage: &mut Stage,
    routes: &Routes,
    offered: Offered,
    line: HeadScan,
    bytes: &[u8],
    from: usize,
)
    requires from { from ≤ length bytes.now }
    requires line { line ≡ scanned Blank (take from bytes.now) }
    ensures { IsStage offered bytes.now stage.new }
{
    *stage = looked(routes, offered, line, bytes, from);
}

/// Notes that the missing content is there. This stands apart for the same reason.
#[inline(never)]
fn complete(stage: &mut Stage)
    ensures { (head : Head) (n : ℕ) → stage.old ≡ stages.Lacks head n
        → stage.new ≡ stages.Found head }
{
    if let Stage::Lacks(head, _) = stage {
        *stage = Stage::Found(*head);
    }
}

/// Goes on with a request after more bytes came, from this place on. A byte before the head's end
/// only moves the scan, and a byte of the content only lowers the count of missing bytes.
#[inline(always)]
fn go_on(stage: &mut Stage, routes: &Routes, offered: Offered, bytes: &[u8], from: usize)
    requires from { from ≤ length bytes.now }
    requires stage { IsStage offered (take from bytes.now) stage.old }
    ensures { IsStage offered bytes.now stage.new }
{
    match stage {
        Stage::Begins(line) => match scanned_on(*line, bytes, from) {
            Some(next) => *line = next,
            None => {
                let line = *line;
                look_again(stage, routes, offered, line, bytes, from);
            }
        },
        Stage::Lacks(_, n) => {
            let more = bytes.len() - from;
            if more < *n {
                *n -= more;
            } else {
                complete(stage);
            }
        }
        Stage::Found(_) => {}
        Stage::Broken => {}
    }
}

/// Whether a head that was found is that of a POST.
fn is_post(head: &Head, bytes: &[u8]) -> bool
    requires { IsFoundHead bytes.now head.now }
    ensures { (h : RequestHead) → HasHead bytes.now h → result ≡ allow Post h.method }
{
    allow(Methods::Post, head.method.of(bytes))
}

impl Exchange {
    /// Nothing has come yet to a socket with these routes, and no memory is taken.
    pub fn new(alloc: Global, offered: Offered) -> Exchange
        ensures empty { result.bytes ≡ [] }
        ensures socket { result.offered ≡ offered }
    {
        Exchange {
            come: Vec::new(alloc),
            stage: Stage::Begins(HeadScan::Blank),
            offered,
        }
    }

    /// Nothing has come yet to a socket with these routes, and there is room for all that counts
    /// and one more read.
    pub fn with_room(alloc: Global, offered: Offered) -> Result<Exchange, NoMemory>
        ensures empty { IfOk result (λ e. e.bytes ≡ []) }
        ensures room { IfOk result (λ e. most_room ≤ e.room) }
        ensures socket { IfOk result (λ e. e.offered ≡ offered) }
    {
        Ok(Exchange {
            come: Vec::with_capacity(alloc, MOST_ROOM)?,
            stage: Stage::Begins(HeadScan::Blank),
            offered,
        })
    }

    /// Takes the bytes that came next, and answers what the request still needs. Where memory runs
    /// out, nothing is taken; memory does not run out where there is room.
    ///
    /// The function is inlined into the loop that reads, so that a byte that has room costs little.
    #[inline(always)]
    pub fn take(&mut self, routes: &Routes, bytes: &[u8]) -> Result<Need, NoMemory>
        ensures taken { IfOk result (λ _. self.new.bytes ≡ self.old.bytes ++ bytes.now) }
        ensures need { IfOk result (λ need. IsNeedOf self.new.offered self.new.bytes need) }
        ensures socket { self.new.offered ≡ self.old.offered }
        ensures kept { OnErr result (self.new.bytes ≡ self.old.bytes) }
        ensures room { self.old.room ≤ self.new.room }
        ensures full { OnErr result (self.old.room < length self.old.bytes + length bytes.now) }
    {
        let from = self.come.len();
        match bytes {
            [byte] if from < self.come.capacity() => {
                self.come.push_reserved(*byte);
                go_on(
                    &mut self.stage,
                    routes,
                    self.offered,
                    self.come.as_slice(),
                    from,
                );
            }
            _ => self.take_many(routes, bytes)?,
        }
        Ok(self.need())
    }

    /// Takes many bytes, or bytes that need room. This stands apart, so that the loop is short.
    #[inline(never)]
    fn take_many(&mut self, routes: &Routes, bytes: &[u8]) -> Result<(), NoMemory>
        ensures taken { IfOk result (λ _. self.new.bytes ≡ self.old.bytes ++ bytes.now) }
        ensures socket { self.new.offered ≡ self.old.offered }
        ensures kept { OnErr result (self.new.bytes ≡ self.old.bytes) }
        ensures room { self.old.room ≤ self.new.room }
        ensures full { OnErr result (self.old.room < length self.old.bytes + length bytes.now) }
    {
        let from = self.come.len();
        self.come.extend_from_slice(bytes)?;
        go_on(
            &mut self.stage,
            routes,
            self.offered,
            self.come.as_slice(),
            from,
        );
        Ok(())
    }

    /// What the bytes that have come still need.
    pub fn need(&self) -> Need
        ensures { IsNeedOf self.now.offered self.now.bytes result }
    {
        match self.stage {
            Stage::Begins(_) => Need::Head,
            Stage::Lacks(_, n) => Need::Content(n),
            Stage::Found(_) => Need::Nothing,
            Stage::Broken => Need::Nothing,
        }
    }

    /// Whether no bytes that follow change the request. Once 24,576 bytes have come,
    /// no further byte changes it.
    pub fn is_settled(&self) -> bool
        ensures settled { result ≡ true → IsSettled self.now.offered self.now.bytes }
        ensures open { result ≡ false → length self.now.bytes < most_read }
    {
        matches!(self.need(), Need::Nothing)
    }

    /// Takes bytes that have room.
    #[inline(always)]
    fn take_roomy(&mut self, routes: &Routes, bytes: &[u8])
        requires { length self.old.bytes + length bytes.now ≤ self.old.room }
        ensures taken { self.new.bytes ≡ self.old.bytes ++ bytes.now }
        ensures socket { self.new.offered ≡ self.old.offered }
        ensures room { self.old.room ≤ self.new.room }
    {
        match self.take(routes, bytes) {
            Ok(_) => {}
            Err(_) => {}
        }
    }

    /// How many more bytes have room.
    #[inline(always)]
    fn room(&self) -> usize
        ensures { result ≡ self.now.room - length self.now.bytes }
    {
        self.come.capacity() - self.come.len()
    }

    /// Makes room for another read. This is seldom due, and stands apart so that the loop is short.
    #[inline(never)]
    fn grow(&mut self) -> Result<(), NoMemory>
        ensures bytes { self.new.bytes ≡ self.old.bytes }
        ensures socket { self.new.offered ≡ self.old.offered }
        ensures room { self.old.room ≤ self.new.room }
        ensures some { OnOk result (length self.new.bytes + 4_096 ≤ self.new.room) }
    {
        Ok(self.come.reserve(BUFFER_SIZE)?)
    }

    /// Makes room for what one read may bring.
    #[inline(always)]
    fn make_room(&mut self) -> Result<(), NoMemory>
        ensures bytes { self.new.bytes ≡ self.old.bytes }
        ensures socket { self.new.offered ≡ self.old.offered }
        ensures room { self.old.room ≤ self.new.room }
        ensures some { OnOk result (length self.new.bytes + 4_096 ≤ self.new.room) }
        ensures full { OnErr result (self.old.room < length self.old.bytes + 4_096) }
    {
        if self.room() < BUFFER_SIZE {
            self.grow()?;
        }
        Ok(())
    }

    /// Reads once, takes the bytes that came, and answers how many: 0 at the end of the stream.
    /// Room is made before the read: where memory runs out for that, nothing is read. Where the
    /// read fails, nothing is taken.
    pub fn read_on<R: Read>(
        &mut self,
        routes: &Routes,
        reader: &mut Counted<R>,
        buffer: &mut ExchangeBuffer,
    ) -> Result<usize, ReceiveFault>
        ensures read { IfOk result (λ n. HasRead (R.remaining reader.old.inner)
            (R.remaining reader.new.inner) self.old.bytes self.new.bytes n) }
        ensures end { IfOk result (λ n. n ≡ 0 → IsAtEnd (R.remaining reader.new.inner)) }
        ensures within { IfOk result (λ n. n ≤ 4_096) }
        ensures socket { self.new.offered ≡ self.old.offered }
        ensures kept { OnErr result (self.new.bytes ≡ self.old.bytes) }
        ensures none { OnErr result
            (Keeps (R.remaining reader.old.inner) (R.remaining reader.new.inner)) }
        ensures room { self.old.room ≤ self.new.room }
        ensures full { result ≡ Err fault.NoMemory
            → self.old.room < length self.old.bytes + 4_096 }
        ensures unread { result ≡ Err fault.NoMemory → reader.new ≡ reader.old }
        ensures counted { reader.new.failures ≡ after_reading result reader.old.failures }
    {
        let Ok(()) = self.make_room() else {
            return Err(ReceiveFault::NoMemory);
        };
        match reader.read(&mut buffer.bytes) {
            Ok(count) => {
                self.take_roomy(routes, &buffer.bytes[..count]);
                Ok(count)
            }
            Err(error) => Err(ReceiveFault::Failed(error.kind())),
        }
    }

    /// How many bytes have come.
    pub fn len(&self) -> usize
        ensures { result ≡ length self.now.bytes }
    {
        self.come.len()
    }

    /// Whether nothing has come yet.
    pub fn is_empty(&self) -> bool
        ensures { result ≡ (length self.now.bytes == 0) }
    {
        self.come.is_empty()
    }

    /// Whether the request that has come is a POST, by its head.
    pub fn is_post(&self) -> bool
        ensures head { (h : RequestHead) → HasHead self.now.bytes h
            → result ≡ allow Post h.method }
        ensures none { HasNoHead self.now.bytes → result ≡ false }
    {
        match &self.stage {
            Stage::Lacks(head, _) => is_post(head, self.come.as_slice()),
            Stage::Found(head) => is_post(head, self.come.as_slice()),
            Stage::Begins(_) => false,
            Stage::Broken => false,
        }
    }

    /// The request of the bytes that have come, if no more come. Reading it takes no memory.
    pub fn request(&self, routes: &Routes) -> HttpRequest<'_>
        ensures { IsHttpRequest self.now.offered self.now.bytes (request_of result) }
    {
        match self.stage {
            Stage::Lacks(head, _) => {
                request_from(routes, self.offered, &head, self.come.as_slice())
            }
            Stage::Found(head) => request_from(routes, self.offered, &head, self.come.as_slice()),
            Stage::Begins(_) => NO_HEAD,
            Stage::Broken => NO_HEAD,
        }
    }
}
