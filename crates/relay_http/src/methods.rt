//! The methods that the desk knows.

ghost use Rattle.std.specs.Prelude.{◌≡◌};
ghost use Rattle.relay_http.specs.RequestBytes.{allow, is_head};

use crate::route::Methods;
use http::Method;

/// Whether the method is HEAD.
pub fn is_head(method: &[u8]) -> bool
    ensures { result ≡ is_head method.now }
{
    method == Method::HEAD.as_str().as_bytes()
}

/// Whether this is one of the methods.
pub fn allow(methods: Methods, method: &[u8]) -> bool
    ensures { result ≡ allow methods method.now }
{
    match methods {
        Methods::Post => method == Method::POST.as_str().as_bytes(),
        Methods::GetOrHead => method == Method::GET.as_str().as_bytes() || is_head(method),
    }
}
