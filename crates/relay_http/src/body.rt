//! The bodies of responses.

ghost use Rattle.std.specs.Prelude.{◌≡◌};
ghost use Rattle.relay_http.specs.Outgoing.{body_bytes, part_of};

/// The body of a response: one of the program's own lines, or a text that was made for it.
#[derive(Debug, Drop)]
pub enum Body {
    Fixed(&'static [u8]),
    Made(String),
}

impl Body {
    /// The body's bytes.
    pub fn as_bytes(&self) -> &[u8]
        ensures { result.now ≡ body_bytes self.now }
    {
        match self {
            Body::Fixed(bytes) => bytes,
            Body::Made(text) => text.as_bytes(),
        }
    }

    /// The body's bytes where the response has a body, and else none.
    pub fn part(&self, with_body: bool) -> &[u8]
        ensures { result.now ≡ part_of self.now with_body }
    {
        if with_body {
            return self.as_bytes();
        }
        b""
    }
}
