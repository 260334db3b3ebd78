//! A response on its way out.

ghost use Rattle.std.specs.Prelude.{◌≡◌, ◌≤◌, ◌<◌, ◌+◌, ◌++◌, ◌==◌, [], drop, length, take};
ghost use Rattle.std.specs.Prelude.{IfOk, OnErr};
ghost use Rattle.std.specs.Io.KnownBytes.{Appends};
ghost use Rattle.relay_http.specs.Counting.{after_write};
ghost use Rattle.relay_http.specs.Outgoing.{body_bytes};
ghost use Rattle.relay_http.specs.Response.{written};

use crate::body::Body;
use crate::counted::Counted;
use crate::response_head::{BUFFER_SIZE, MOST_RESPONSE_HEAD, blank_buffer, put, put_head};
use crate::status::ResponseStatus;
use std::alloc::Global;
use std::io::{self, ErrorKind, Write};
use std::marker::Model;
use sudo_words::NoMemory;

/// A buffer for what one read brings. A short response is put together there too, so that one write
/// sends it. What an earlier use left in the buffer is never looked at.
#[derive(Drop)]
pub struct ExchangeBuffer {
    pub(crate) bytes: Vec<u8>,
    ghost whole: { length bytes.items ≡ 4_096 },
}

impl ExchangeBuffer {
    /// An empty buffer.
    pub fn new(alloc: Global) -> Result<ExchangeBuffer, NoMemory> {
        Ok(ExchangeBuffer {
            bytes: blank_buffer(alloc)?,
        })
    }
}

/// A response on its way out. Contracts see it as the bytes that did not go out yet.
#[derive(Drop)]
pub struct Outgoing {
    head: [u8; MOST_RESPONSE_HEAD],
    /// How many bytes the head has.
    end: usize,
    body: Body,
    with_body: bool,
    /// How many bytes of the head and the body went out.
    sent: usize,
}

impl Model for Outgoing {
    ghost use Rattle.std.specs.Prelude.{◌≤◌, ◌++◌, ℕ, List, drop, length, take};
    ghost use Rattle.relay_http.specs.Outgoing.{part_of};

    ghost Value = { List ℕ };

    ghost view = { λ o. drop o.sent (take o.end o.head ++ part_of o.body o.with_body) };

    ghost invariant = { λ o. (o.end ≤ 256)
        × (o.sent ≤ length (take o.end o.head ++ part_of o.body o.with_body)) };
}

/// One write of the rest of a head and a body, after the bytes that were sent. A write that begins
/// in the head goes on with the body, if both fit in the buffer.
fn write_on<W: Write>(
    writer: &mut Counted<W>,
    buffer: &mut [u8],
    head: &[u8],
    body: &[u8],
    sent: usize,
) -> io::Result<usize>
    requires buffer { length buffer.old ≡ 4_096 }
    requires head { length head.now ≤ 256 }
    requires sent { sent ≤ length (head.now ++ body.now) }
    ensures len { length buffer.new ≡ length buffer.old }
    ensures within { IfOk result (λ n. sent + n ≤ length (head.now ++ body.now)) }
    ensures taken { IfOk result (λ n. Appends (W.contents writer.old.inner)
        (W.contents writer.new.inner) (take n (drop sent (head.now ++ body.now)))) }
    ensures none { OnErr result
        (Appends (W.contents writer.old.inner) (W.contents writer.new.inner) []) }
    ensures counted { writer.new.failures ≡ after_write result writer.old.failures }
{
    if sent >= head.len() {
        return writer.write(&body[sent - head.len()..]);
    }
    if body.len() > BUFFER_SIZE - head.len() {
        return writer.write(&head[sent..]);
    }
    let end = put(buffer, 0, head);
    let end = put(buffer, end, body);
    writer.write(&buffer[sent..end])
}

impl Outgoing {
    /// The response of a status with a body, or its head alone. It takes no memory.
    pub fn new(status: ResponseStatus, body: Body, with_body: bool) -> Outgoing
        ensures { result ≡ written status (body_bytes body) with_body }
    {
        let mut head = [0; MOST_RESPONSE_HEAD];
        let end = put_head(&mut head, status, body.as_bytes().len());
        Outgoing {
            head,
            end,
            body,
            with_body,
            sent: 0,
        }
    }

    /// Whether all of the response went out.
    pub fn is_out(&self) -> bool
        ensures { result ≡ (length self.now == 0) }
    {
        let head = &self.head[..self.end];
        self.sent >= head.len() + self.body.part(self.with_body).len()
    }

    /// Writes as much of the rest as the writer takes at once. Each byte goes out once, in order.
    pub fn send<W: Write>(
        &mut self,
        writer: &mut Counted<W>,
        buffer: &mut ExchangeBuffer,
    ) -> Result<usize, ErrorKind>
        ensures within { IfOk result (λ n. n ≤ length self.old) }
        ensures rest { IfOk result (λ n. self.new ≡ drop n self.old) }
        ensures taken { IfOk result (λ n. Appends (W.contents writer.old.inner)
            (W.contents writer.new.inner) (take n self.old)) }
        ensures kept { OnErr result (self.new ≡ self.old) }
        ensures none { OnErr result
            (Appends (W.contents writer.old.inner) (W.contents writer.new.inner) []) }
        ensures counted { writer.new.failures ≡ after_write result writer.old.failures }
    {
        match write_on(
            writer,
            &mut buffer.bytes,
            &self.head[..self.end],
            self.body.part(self.with_body),
            self.sent,
        ) {
            Ok(count) => {
                self.sent += count;
                Ok(count)
            }
            Err(error) => Err(error.kind()),
        }
    }
}
