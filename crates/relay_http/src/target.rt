//! The targets that the desk reads.

ghost use Rattle.std.specs.Prelude.{◌≡◌};
ghost use Rattle.relay_http.specs.Target.{is_plain, is_plain_byte};

/// Whether a byte is ASCII and does not mark a query, a fragment or an encoded byte.
fn is_plain_byte(b: u8) -> bool
    ensures { result ≡ is_plain_byte b }
{
    b < 128 && b != b'?' && b != b'#' && b != b'%'
}

/// Whether a target begins with a slash, and all its bytes are plain.
pub fn is_plain(target: &[u8]) -> bool
    ensures { result ≡ is_plain target.now }
{
    if target.is_empty() || target[0] != b'/' {
        return false;
    }
    for b in target {
        if !is_plain_byte(*b) {
            return false;
        }
    }
    true
}
