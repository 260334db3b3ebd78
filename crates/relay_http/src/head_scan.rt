//! A scan for the line ends of a head.

ghost use Rattle.std.specs.Prelude.{◌≡◌, ◌≢◌, false};
ghost use Rattle.relay_http.specs.Scan.{line_after, scanned};
ghost use Rattle.relay_http.specs.declared.head_scan.HeadScan.TheVariants.{Ended};

/// How far a scan for the empty line that ends a head has come.
#[derive(Clone, Copy, Debug, PartialEq, Eq)]
pub enum HeadScan {
    /// Before the first line that is not empty.
    Blank,
    /// Within that line, which is the request line.
    First,
    /// At the beginning of a later line.
    Begun,
    /// Within a later line.
    Within,
    /// Behind the empty line.
    Ended,
}

impl HeadScan {
    /// How far the scan has come after one more byte.
    fn after(self, byte: u8) -> HeadScan
        ensures { result ≡ line_after self byte }
    {
        match self {
            HeadScan::Blank => {
                if byte == b'\r' || byte == b'\n' {
                    HeadScan::Blank
                } else {
                    HeadScan::First
                }
            }
            HeadScan::First => {
                if byte == b'\n' {
                    HeadScan::Begun
                } else {
                    HeadScan::First
                }
            }
            HeadScan::Begun => {
                if byte == b'\r' {
                    HeadScan::Begun
                } else if byte == b'\n' {
                    HeadScan::Ended
                } else {
                    HeadScan::Within
                }
            }
            HeadScan::Within => {
                if byte == b'\n' {
                    HeadScan::Begun
                } else {
                    HeadScan::Within
                }
            }
            HeadScan::Ended => HeadScan::Ended,
        }
    }

    /// Whether the request line is not there yet.
    fn is_before_fields(self) -> bool {
        matches!(self, HeadScan::Blank | HeadScan::First)
    }

    /// Whether the empty line is there.
    fn is_ended(self) -> bool
        ensures { result ≡ false → self ≢ Ended }
    {
        matches!(self, HeadScan::Ended)
    }

    /// Whether the bytes are worth another look once the scan has come to `next`: the request line
    /// has ended since, or the head has ended.
    pub fn is_due(self, next: HeadScan) -> bool
        ensures { result ≡ false → next ≢ Ended }
    {
        next.is_ended() || (self.is_before_fields() && !next.is_before_fields())
    }
}

/// How far the scan has come after more bytes.
pub fn scan(line: HeadScan, bytes: &[u8]) -> HeadScan
    ensures { result ≡ scanned line bytes.now }
{
    let mut line = line;
    for byte in bytes {
        line = line.after(*byte);
    }
    line
}
