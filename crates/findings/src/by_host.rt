//! When grants are in force, by host.

ghost use Rattle.std.specs.Prelude.{◌≡◌, ◌++◌, IfOk, OnOk};
ghost use Rattle.std.specs.List.{flat_map};
ghost use Rattle.findings.specs.Windows as spec;

use crate::entry::AuditEntry;
use crate::pick::Pick;
use grants::{Status, Window};
use messages::Request;
use std::alloc::{AllocError, Global};
use sudo_words::{HostName, Moment, Name, NoMemory};

/// A window in which a grant is in force on a host. Windows are in the byte order of hosts, and
/// then by moment and name.
#[derive(Debug, Drop, PartialEq, Eq, PartialOrd, Ord)]
pub(crate) struct HostWindow {
    pub(crate) host: HostName,
    pub(crate) start: Moment,
    pub(crate) end: Moment,
    pub(crate) by: Name,
    pub(crate) no: u32,
}

/// The window of a grant on a host.
fn window_on(request: &Request, host: &HostName, window: &Window) -> Result<HostWindow, AllocError>
    ensures { IfOk result (λ w. w ≡ spec.window_on request.now window.now host.now) }
{
    Ok(HostWindow {
        host: host.clone()?,
        start: window.start,
        end: window.end,
        by: request.by().clone()?,
        no: request.no(),
    })
}

/// Adds the windows of a grant on those of its hosts that are asked about.
fn push_hosts(
    list: &mut Vec<HostWindow>,
    pick: &Pick,
    request: &Request,
    window: &Window,
) -> Result<(), NoMemory>
    ensures { OnOk result (list.new.items ≡ list.old.items
        ++ spec.windows_on pick.now request.now window.now request.now.hosts) }
{
    for host in request.hosts() {
        if pick.has_host(host) {
            list.push(window_on(request, host, window)?)?;
        }
    }
    Ok(())
}

/// Adds the windows of these requests.
fn push_requests(
    list: &mut Vec<HostWindow>,
    pick: &Pick,
    requests: &[Request],
    window: &Window,
) -> Result<(), NoMemory>
    ensures { OnOk result (list.new.items ≡ list.old.items
        ++ flat_map (λ q. spec.windows_on pick.now q window.now q.hosts) requests.now) }
{
    for request in requests {
        push_hosts(list, pick, request, window)?;
    }
    Ok(())
}

/// Adds the windows of an entry on the hosts that are asked about.
fn push_windows(list: &mut Vec<HostWindow>, pick: &Pick, entry: &AuditEntry) -> Result<(), NoMemory>
    ensures { OnOk result
        (list.new.items ≡ list.old.items ++ spec.windows_of pick.now entry.now) }
{
    match entry.status {
        Some(Status::Granted(window)) => {
            push_requests(list, pick, entry.about.requests.as_slice(), &window)
        }
        _ => Ok(()),
    }
}

/// The windows of the entries on the hosts that are asked about.
fn all_windows(
    alloc: Global,
    pick: &Pick,
    entries: &[AuditEntry],
) -> Result<Vec<HostWindow>, NoMemory>
    ensures { IfOk result (λ list. list.items ≡ flat_map (spec.windows_of pick.now) entries.now) }
{
    let mut list = Vec::new(alloc);
    for entry in entries {
        push_windows(&mut list, pick, entry)?;
    }
    Ok(list)
}

/// The windows of the entries on the hosts that are asked about, in their order.
pub(crate) fn windows(
    alloc: Global,
    pick: &Pick,
    entries: &[AuditEntry],
) -> Result<Vec<HostWindow>, NoMemory>
    ensures { IfOk result (λ list. spec.AreWindows pick.now entries.now list.items) }
{
    let mut list = all_windows(alloc, pick, entries)?;
    list.sort_unstable();
    Ok(list)
}
