//! Hosts and people that nobody knows: what is asked about one has no answer, since an empty one
//! would look as if nothing had been asked for.

use crate::trouble::Trouble;
use desk::{Desk, Keeper, Refusal};
use desk_audit::{Pick, audit};
use sudo_words::{HostName, Name};

/// Whether a message is about what is asked.
fn is_told<K: Keeper>(desk: &mut Desk<K>, pick: &Pick) -> Result<bool, Refusal> {
    Ok(!pick.among(audit(desk)?).is_empty())
}

/// Refuses a host that neither the roster has nor a request names.
fn known_host<K: Keeper>(desk: &mut Desk<K>, host: &HostName) -> Result<(), Trouble> {
    if desk.roster().has_host(host) {
        return Ok(());
    }
    let mut pick = Pick::all();
    pick.host = Some(host.clone()?);
    if is_told(desk, &pick)? {
        return Ok(());
    }
    Err(Trouble::NoHost(host.clone()?))
}

/// Refuses a person whom the roster does not list, and by whom no message is.
fn known_person<K: Keeper>(desk: &mut Desk<K>, person: &Name) -> Result<(), Trouble> {
    if desk.roster().has_person(person) {
        return Ok(());
    }
    let mut pick = Pick::all();
    pick.person = Some(person.clone()?);
    if is_told(desk, &pick)? {
        return Ok(());
    }
    Err(Trouble::NoPerson(person.clone()?))
}

/// Refuses a question about a host or a person that nobody knows.
pub(crate) fn known<K: Keeper>(desk: &mut Desk<K>, pick: &Pick) -> Result<(), Trouble> {
    if let Some(host) = &pick.host {
        known_host(desk, host)?;
    }
    if let Some(person) = &pick.person {
        known_person(desk, person)?;
    }
    Ok(())
}
