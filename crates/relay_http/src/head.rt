//! A request's head, by places in the bytes.

ghost use Rattle.std.specs.Prelude.{◌≡◌, ◌≤◌, ℕ, List, length, map, All};
ghost use Rattle.httparse.specs.Spans.{IsHeaderWithin, header_bytes};
ghost use Rattle.relay_http.specs.Fields.{is_bad_host, values};
ghost use Rattle.relay_http.specs.Stages.{IsSeen, size_of};
ghost use Rattle.std.specs.Prelude.{codes};

use crate::content::content_size;
use crate::fault::RequestFault;
use crate::fields::is_bad_host;
use crate::values::values_of;
use httparse::Status;
use httparse::spans::{EMPTY_HEADER_SPAN, HeaderSpan, RequestSpans, Span, parse_request};

/// The most bytes of a head.
pub(crate) const MOST_HEAD_BYTES: usize = 8192;

/// The most fields of a head.
const MOST_FIELDS: usize = 32;

/// What is kept of a head, so that it is not parsed again.
#[derive(Clone, Copy)]
pub struct Head {
    pub method: Span,
    pub target: Span,
    /// How many bytes the head has.
    pub len: usize,
    /// Whether a Host field is missing, or there is more than one.
    pub is_bad_host: bool,
    /// The length of the content, by the head's fields.
    pub size: Result<u64, RequestFault>,
}

/// What a look at the first bytes of a connection sees.
#[derive(Clone, Copy)]
pub enum Looked {
    /// A head.
    Found(Head),
    /// No head, but maybe the beginning of one.
    Partial,
    /// No head, whatever follows.
    Never,
}

/// The length of the content, by the fields of a head.
fn size_of(buf: &[u8], headers: &[HeaderSpan]) -> Result<u64, RequestFault>
    requires { All (IsHeaderWithin (length buf.now)) headers.now }
    ensures { result ≡ size_of (map (header_bytes buf.now) headers.now) }
{
    let codings = values_of(buf, headers, b"transfer-encoding");
    let lengths = values_of(buf, headers, b"content-length");
    content_size(codings, lengths)
}

/// Whether the Host fields of a head are too few or too many.
fn has_bad_host(minor: u8, buf: &[u8], headers: &[HeaderSpan]) -> bool
    requires { All (IsHeaderWithin (length buf.now)) headers.now }
    ensures { result
        ≡ is_bad_host minor (values (codes "host") (map (header_bytes buf.now) headers.now)) }
{
    is_bad_host(minor, values_of(buf, headers, b"host"))
}

/// What is kept of a head that the parser found.
fn kept(spans: &RequestSpans, buf: &[u8], headers: &[HeaderSpan]) -> Head
    requires { All (IsHeaderWithin (length buf.now)) headers.now }
    ensures method { result.method ≡ spans.now.method }
    ensures target { result.target ≡ spans.now.path }
    ensures len { result.len ≡ spans.now.len }
    ensures host { result.is_bad_host ≡ is_bad_host spans.now.version
        (values (codes "host") (map (header_bytes buf.now) headers.now)) }
    ensures size { result.size ≡ size_of (map (header_bytes buf.now) headers.now) }
{
    Head {
        method: spans.method,
        target: spans.path,
        len: spans.len,
        is_bad_host: has_bad_host(spans.version, buf, headers),
        size: size_of(buf, headers),
    }
}

/// Looks for a head at the beginning of the bytes. It takes no memory.
pub fn look(bytes: &[u8]) -> Looked
    ensures { IsSeen bytes.now result }
{
    let front = &bytes[..bytes.len().min(MOST_HEAD_BYTES)];
    let mut headers = [EMPTY_HEADER_SPAN; MOST_FIELDS];
    match parse_request(front, &mut headers) {
        Ok(Status::Complete(spans)) => {
            Looked::Found(kept(&spans, front, &headers[..spans.headers]))
        }
        Ok(Status::Partial) => Looked::Partial,
        Err(_) => Looked::Never,
    }
}
