//! A request that has come.

ghost use Rattle.std.specs.Prelude.{◌≡◌, false, true};
ghost use Rattle.httparse.specs.Grammar.{RequestHead};
ghost use Rattle.relay_http.specs.Needs.{HasNoHead, IsSettled};
ghost use Rattle.relay_http.specs.RequestBytes.{HasHead, allow};
ghost use Rattle.relay_http.specs.declared.route.Methods.TheVariants.{Post};

use crate::exchange::Exchange;

/// A request that has come: whole, or as far as its stream went. To answer it is to use it up.
#[derive(Drop)]
pub struct Received {
    pub(crate) come: Exchange,
    /// Whether the stream ended, so that some of the request may be missing.
    pub(crate) is_ended: bool,
}

impl Received {
    /// A request that came whole: no bytes that follow change what it asks for.
    pub(crate) fn whole(come: Exchange) -> Received
        requires { IsSettled come.offered come.bytes }
        ensures come { result.come ≡ come }
        ensures whole { result.is_ended ≡ false }
    {
        Received {
            come,
            is_ended: false,
        }
    }

    /// A request as far as it came before its stream ended.
    pub(crate) fn ended(come: Exchange) -> Received
        ensures come { result.come ≡ come }
        ensures ended { result.is_ended ≡ true }
    {
        Received {
            come,
            is_ended: true,
        }
    }

    /// Whether the request is a POST, by its head.
    pub fn is_post(&self) -> bool
        ensures head { (h : RequestHead) → HasHead self.now.come.bytes h
            → result ≡ allow Post h.method }
        ensures none { HasNoHead self.now.come.bytes → result ≡ false }
    {
        self.come.is_post()
    }
}
