//! The command `serve`.

use crate::listener::{Words, serve_at};
use crate::service::End;
use crate::stores::tell_new;
use crate::trouble::Trouble;
use desk::Keeper;
use desk_commands::{ExitStatus, JobRefusal, open_over};
use sha2::{Digest, Sha256};
use std::alloc::Global;

/// The SHA-256 digest of the roster's text, as hex.
pub(crate) fn digest_of(alloc: Global, roster: &[u8]) -> Result<String, JobRefusal> {
    match hex::encode(alloc, Sha256::digest(roster)) {
        Ok(text) => Ok(text),
        Err(_) => Err(JobRefusal::NoMemory),
    }
}

/// The status or the refusal with which the service ended.
fn status_of(served: Result<End, Trouble>) -> Result<ExitStatus, Trouble> {
    match served? {
        End::Served => Ok(ExitStatus::Done),
        End::StorageFailed => Err(Trouble::from(JobRefusal::Desk(desk::Refusal::Storage))),
    }
}

/// Serves the desk that the files make over what the keeper keeps, as the words say, and hands the
/// keeper on. Where the keeper keeps nothing yet, `new` is the path of the store that is made:
/// that path is said at once.
///
/// The command is refused where the files make no desk, where it cannot listen at an address or
/// accept connections there, and where the desk's storage failed and has to be opened again.
pub(crate) fn serve<K: Keeper>(
    rt: &HostRuntime,
    files: &[Vec<u8>],
    keeper: K,
    new: Option<&str>,
    words: Words<'_>,
) -> (Result<ExitStatus, Trouble>, K) {
    let [roster, base, ..] = files else {
        return (Err(Trouble::from(JobRefusal::FileFailed)), keeper);
    };
    let digest = match digest_of(rt.alloc(), roster.as_slice()) {
        Ok(digest) => digest,
        Err(refusal) => return (Err(Trouble::from(refusal)), keeper),
    };
    match open_over(rt.alloc(), roster.as_slice(), base.as_slice(), keeper) {
        Ok(mut desk) => {
            if let Some(path) = new {
                tell_new(rt, path);
            }
            let served = serve_at(rt, &mut desk, digest.as_str(), words);
            (status_of(served), desk.into_keeper())
        }
        Err((refusal, keeper)) => (Err(Trouble::from(refusal)), keeper),
    }
}
