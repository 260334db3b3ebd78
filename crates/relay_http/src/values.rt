//! The values of a head's fields.

ghost use Rattle.std.specs.Prelude.{◌≡◌, length, map, All};
ghost use Rattle.std.specs.Str.{str_eq_ignore_ascii_case};
ghost use Rattle.httparse.specs.Spans.{IsHeaderWithin, header_bytes};
ghost use Rattle.relay_http.specs.Fields.{values};
ghost use Rattle.relay_http.specs.Seen.{AreValues, and_all, nothing, one_more, seen_of};

use httparse::spans::HeaderSpan;

/// The values of a name's fields, as far as they matter.
#[derive(Clone, Copy)]
pub enum Values<'b> {
    /// The head has no such field.
    Nothing,
    /// The head has one such field, with this value.
    One(&'b [u8]),
    /// The head has more than one such field.
    Many,
}

fn same_name(a: &[u8], b: &[u8]) -> bool
    ensures { result ≡ str_eq_ignore_ascii_case a.now b.now }
{
    a.eq_ignore_ascii_case(b)
}

fn and_one<'b>(found: Values<'b>, value: &'b [u8]) -> Values<'b>
    ensures { seen_of result ≡ one_more (seen_of found.entry) value.now }
{
    match found {
        Values::Nothing => Values::One(value),
        _ => Values::Many,
    }
}

fn count<'b>(buf: &'b [u8], headers: &[HeaderSpan], name: &[u8]) -> Values<'b>
    requires { All (IsHeaderWithin (length buf.now)) headers.now }
    ensures { seen_of result
        ≡ and_all nothing (values name.now (map (header_bytes buf.now) headers.now)) }
{
    let mut found = Values::Nothing;
    for header in headers {
        if same_name(header.name.of(buf), name) {
            found = and_one(found, header.value.of(buf));
        }
    }
    found
}

/// The values of the fields of this name.
pub fn values_of<'b>(buf: &'b [u8], headers: &[HeaderSpan], name: &[u8]) -> Values<'b>
    requires { All (IsHeaderWithin (length buf.now)) headers.now }
    ensures { AreValues result (values name.now (map (header_bytes buf.now) headers.now)) }
{
    count(buf, headers, name)
}
