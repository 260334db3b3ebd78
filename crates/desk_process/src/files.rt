//! The files that a job names.

use crate::trouble::Trouble;
use desk_commands::{Job, JobRefusal, Text, paths};
use roster::RosterFault;
use std::fs::File;
use std::io::{self, Read};

/// The most bytes that are read of a policy: a longer one is `TooLong`, whatever comes after.
pub const MOST_POLICY: u64 = 16_777_216;

/// The most bytes that are read of a roster. Which fault a text of over 1 MiB has depends on the
/// whole text, but nobody writes a roster that is sixteen times as long.
pub const MOST_ROSTER: u64 = 16_777_216;

/// The bytes of a file, but at most one more than `most`, so that a device or a pipe that never
/// ends is read no further. Room that is left over is given back. A folder cannot be read at all.
pub fn read_file(rt: &HostRuntime, path: &str, most: u64) -> io::Result<Vec<u8>> {
    let mut bytes = Vec::new(rt.alloc());
    let mut file = File::open(rt, path)?.take(most.saturating_add(1));
    file.read_to_end(&mut bytes)?;
    bytes.shrink_to_fit();
    Ok(bytes)
}

/// The bytes of a file, but at most one more than `most`.
fn file(rt: &HostRuntime, path: &Text, most: u64) -> Result<Vec<u8>, Trouble> {
    match read_file(rt, path.as_str(), most) {
        Ok(bytes) => Ok(bytes),
        Err(error) => Err(Trouble::of_system(rt.alloc(), path.as_str(), error)),
    }
}

/// The bytes of a policy's file. A file that is too long is read far enough to show that.
fn policy_file(rt: &HostRuntime, path: &Text) -> Result<Vec<u8>, Trouble> {
    file(rt, path, MOST_POLICY)
}

/// The bytes of a roster's file. A file of over 16 MiB is refused as out of range, unparsed.
fn roster_file(rt: &HostRuntime, path: &Text) -> Result<Vec<u8>, Trouble> {
    let bytes = file(rt, path, MOST_ROSTER)?;
    if bytes.len() as u64 <= MOST_ROSTER {
        return Ok(bytes);
    }
    Err(Trouble::at(
        rt.alloc(),
        JobRefusal::Roster(RosterFault::OutOfRange),
        path.as_str(),
        &"more than 16 MiB",
    ))
}

/// The bytes of the file that the job names first: the roster's of a job on a desk, else a
/// policy's.
fn first_file(rt: &HostRuntime, job: &Job, path: &Text) -> Result<Vec<u8>, Trouble> {
    match job {
        Job::Check { .. } | Job::Decide { .. } | Job::Beyond { .. } => policy_file(rt, path),
        Job::Deliver { .. }
        | Job::Print { .. }
        | Job::Review { .. }
        | Job::Rebuild { .. }
        | Job::Serve { .. } => roster_file(rt, path),
    }
}

/// The bytes of the files that the job names, in the order of its words.
pub(crate) fn files(rt: &HostRuntime, job: &Job) -> Result<Vec<Vec<u8>>, Trouble> {
    let named = paths(job);
    let mut files = Vec::new(rt.alloc());
    files.push(first_file(rt, job, named.first)?)?;
    if let Some(second) = named.second {
        files.push(policy_file(rt, second)?)?;
    }
    Ok(files)
}
