//! The history of the site, which a served desk tells.

use crate::files::read_file;
use crate::log::Log;
use desk::{Desk, Keeper};
use std::{env, fmt, io, str};

/// The variable of the environment that names the file of the history.
const HISTORY_AT: &str = "DESK_HISTORY";

/// The most bytes of a history that a desk tells. Where there are more, it tells the last lines.
const MOST_TOLD: usize = 1_048_576;

/// The most bytes that are read of the file.
const MOST_READ: u64 = 16_777_216;

/// Why a desk does not tell the history of a file.
#[derive(Drop)]
enum Why {
    /// The file cannot be read.
    Unread(io::Error),
    /// The file's last line is not of what is served.
    Another,
    /// Memory ran out.
    NoMemory,
}

/// The line which says that no history is told, and why.
#[derive(Clone, Copy)]
struct Untold<'a> {
    path: &'a str,
    why: &'a Why,
}

impl fmt::Display for Untold<'_> {
    fn fmt<W: fmt::Write>(&self, f: &mut fmt::Formatter<W>) -> fmt::Result {
        let path = self.path;
        match self.why {
            Why::Unread(error) => write!(f, "no history is told: F1 FileFailed: {path}: {error}"),
            Why::Another => write!(
                f,
                "no history is told: F1 FileFailed: {path} does not end with what is served"
            ),
            Why::NoMemory => f.write_str("no history is told: K5 NoMemory"),
        }
    }
}

/// The last lines that a desk tells of these.
fn latest(lines: &[u8]) -> &[u8] {
    if lines.len() <= MOST_TOLD {
        return lines;
    }
    let fitting = &lines[lines.len() - MOST_TOLD..];
    match fitting.iter().position(|byte| *byte == b'\n') {
        Some(end) => &fitting[end + 1..],
        None => &[],
    }
}

/// Has the desk take the history of the file at this path.
fn take<K: Keeper>(rt: &HostRuntime, desk: &mut Desk<K>, path: &str) -> Result<(), Why> {
    let bytes = match read_file(rt, path, MOST_READ) {
        Ok(bytes) => bytes,
        Err(error) => return Err(Why::Unread(error)),
    };
    let Ok(text) = str::from_utf8(latest(bytes.as_slice())) else {
        return Err(Why::Another);
    };
    let Ok(text) = String::from_str(rt.alloc(), text) else {
        return Err(Why::NoMemory);
    };
    match desk.take_history(text) {
        Ok(true) => Ok(()),
        Ok(false) => Err(Why::Another),
        Err(_) => Err(Why::NoMemory),
    }
}

/// Has the desk take the history of the file that the environment names, if it names one. The log
/// says where the desk does not.
pub(crate) fn take_history<K: Keeper>(rt: &HostRuntime, desk: &mut Desk<K>, log: &mut Log) {
    let Ok(path) = env::var(rt, HISTORY_AT) else {
        return;
    };
    let path = path.as_str();
    if let Err(why) = take(rt, desk, path) {
        log.say(rt, &Untold { path, why: &why });
    }
}
