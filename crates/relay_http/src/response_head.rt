//! The head of a response, written without taking memory.

ghost use Rattle.std.specs.Prelude.{◌≡◌, ◌≤◌, ◌+◌, ◌++◌, IfOk, decimal, length, take};
ghost use Rattle.relay_http.specs.Response.{response_head, status_text};

use crate::status::{ResponseStatus, allow_line, phrase};
use itoa::Buffer;
use std::alloc::{AllocError, Global};

/// The bytes of a buffer, in which most responses have room.
pub const BUFFER_SIZE: usize = 4_096;

/// The room for the head of a response.
pub const MOST_RESPONSE_HEAD: usize = 256;

/// The zeros of an empty buffer.
const ZEROS: [u8; BUFFER_SIZE] = [0; BUFFER_SIZE];

/// An empty buffer.
pub fn blank_buffer(alloc: Global) -> Result<Vec<u8>, AllocError>
    ensures { IfOk result (λ buffer. length buffer.items ≡ 4_096) }
{
    Vec::from_slice(alloc, &ZEROS)
}

/// Puts a part after what is there, and answers where it ends.
pub fn put(buffer: &mut [u8], at: usize, part: &[u8]) -> usize
    requires { at + length part.now ≤ length buffer.old }
    ensures len { length buffer.new ≡ length buffer.old }
    ensures end { result ≡ at + length part.now }
    ensures put { take result buffer.new ≡ take at buffer.old ++ part.now }
{
    let end = at + part.len();
    buffer[at..end].copy_from_slice(part);
    end
}

/// Puts a number after what is there, in decimal digits.
fn put_decimal(buffer: &mut [u8], at: usize, n: usize) -> usize
    requires { at + 20 ≤ length buffer.old }
    ensures len { length buffer.new ≡ length buffer.old }
    ensures end { result ≤ at + 20 }
    ensures put { take result buffer.new ≡ take at buffer.old ++ decimal n }
{
    let mut digits = Buffer::new();
    put(buffer, at, digits.format(n).as_bytes())
}

/// Puts the code of a status and its phrase after what is there.
fn put_status(buffer: &mut [u8], at: usize, status: ResponseStatus) -> usize
    requires { at + 40 ≤ length buffer.old }
    ensures len { length buffer.new ≡ length buffer.old }
    ensures end { result ≤ at + 40 }
    ensures put { take result buffer.new ≡ take at buffer.old ++ status_text status }
{
    let at = put(buffer, at, status.code().as_str().as_bytes());
    let at = put(buffer, at, b" ");
    put(buffer, at, phrase(status))
}

/// Puts the head of a response, whose body has so many bytes, at the beginning, and answers where
/// it ends.
pub fn put_head(buffer: &mut [u8], status: ResponseStatus, size: usize) -> usize
    requires { length buffer.old ≡ 256 }
    ensures len { length buffer.new ≡ length buffer.old }
    ensures within { result ≤ length buffer.new }
    ensures head { take result buffer.new ≡ response_head status size }
{
    let at = put(buffer, 0, b"HTTP/1.1 ");
    let at = put_status(buffer, at, status);
    let at = put(buffer, at, b"\r\nContent-Type: text/plain\r\n");
    let at = put(buffer, at, allow_line(status));
    let at = put(buffer, at, b"Content-Length: ");
    let at = put_decimal(buffer, at, size);
    put(buffer, at, b"\r\nConnection: close\r\n\r\n")
}
