//! The standard streams that the process lacks.

use std::fs::{File, OpenOptions};
use std::io;
use std::os::fd::{AsRawFd, IntoRawFd};

/// The last descriptor of a standard stream.
const LAST_STREAM: i32 = 2;

/// Opens `/dev/null` at the next free descriptor. A standard input that is missing is opened to
/// write, and an output to read, so that using the stream fails as if it were still missing.
fn open_next(rt: &HostRuntime) -> io::Result<File> {
    let file = File::open(rt, "/dev/null")?;
    if file.as_raw_fd() != 0 {
        return Ok(file);
    }
    drop(file);
    OpenOptions::new().write(true).open(rt, "/dev/null")
}

/// Takes up the descriptors of the standard streams that are closed, so that no file and no socket
/// gets one of them.
pub fn hold_streams(rt: &HostRuntime) {
    for _ in 0..=LAST_STREAM {
        match open_next(rt) {
            Ok(file) if file.as_raw_fd() <= LAST_STREAM => {
                let _ = file.into_raw_fd();
            }
            _ => return,
        }
    }
}
