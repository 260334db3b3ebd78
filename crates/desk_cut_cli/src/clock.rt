//! Whether a moment has passed on every host's clock.

use crate::trouble::Trouble;
use std::io;
use std::time::{SystemTime, UNIX_EPOCH};
use sudo_words::Moment;

/// How far behind this machine's clock a cut lies at least, in seconds: a host whose clock lags by
/// less has no file of a moment before the cut to ask for.
const MARGIN: u64 = 86_400;

/// The seconds since 1970 by this machine's clock.
fn seconds(rt: &HostRuntime) -> io::Result<u64> {
    match SystemTime::now(rt)?.duration_since(UNIX_EPOCH) {
        Ok(since) => Ok(since.as_secs()),
        Err(_) => Ok(0),
    }
}

/// Refuses a moment that is not a day behind this machine's clock. What was revoked may come into
/// force again if a history is cut ahead of time: the law of the cut says nothing of moments before
/// it.
pub(crate) fn refuse_early(rt: &HostRuntime, moment: Moment) -> Result<(), Trouble> {
    let now = match seconds(rt) {
        Ok(now) => now,
        Err(error) => return Err(Trouble::of_system(rt.alloc(), "clock", error)),
    };
    if moment.secs().saturating_add(MARGIN) <= now {
        return Ok(());
    }
    Err(Trouble::Early(Moment::from_secs(now)))
}
