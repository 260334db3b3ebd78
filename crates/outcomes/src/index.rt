//! The index: the names of requests by the ends that they ask for, at each host and of all.

ghost use Rattle.std.specs.Prelude.{◌≡◌, ℕ, List, IfOk, OnOk, Contains};
ghost use Rattle.messages.specs.Fields.{RequestFields};
ghost use Rattle.messages.specs.declared.request_name.RequestName.{RequestName as AnyName};
ghost use Rattle.outcomes.specs.declared.index.Ending.{Ending as AnyEnding};
ghost use Rattle.outcomes.specs.private.Index.{AreNamesLeft, IsListed, endings_at, is_left};
ghost use Rattle.outcomes.specs.private.Index.{names_lent};

use messages::{Request, RequestName};
use std::alloc::{AllocError, Global};
use std::collections::{BTreeMap, BTreeSet};
use sudo_words::{HostName, Moment, NoMemory};

/// A request's name under the last moment that the request asks for: no grant of the request ends
/// later. Endings are in the order of these moments, and then in that of the names.
#[derive(Debug, Drop, PartialEq, Eq, PartialOrd, Ord)]
pub struct Ending {
    pub(crate) until: Moment,
    pub(crate) name: RequestName,
}

impl Clone for Ending {
    ghost is_clone = { λ ending copy. copy ≡ ending };

    fn clone(&self) -> Result<Ending, AllocError> {
        Ok(Ending {
            until: self.until,
            name: self.name.clone()?,
        })
    }
}

/// The endings of the requests that list a host, for each host, and those of all requests.
#[derive(Drop)]
pub struct Index {
    pub(crate) hosts: BTreeMap<HostName, BTreeSet<Ending>>,
    pub(crate) all: BTreeSet<Ending>,
}

/// A copy of a host's name.
fn copied(host: &HostName) -> Result<HostName, AllocError>
    ensures { IfOk result (λ copy. copy ≡ host.now) }
{
    host.clone()
}

/// Lists an ending at a host. Whatever happens, what was listed stays.
fn list_host(
    alloc: Global,
    hosts: &mut BTreeMap<HostName, BTreeSet<Ending>>,
    host: &HostName,
    ending: &Ending,
) -> Result<(), NoMemory>
    ensures here { OnOk result (Contains (endings_at hosts.new host.now) ending.now) }
    ensures stays { (at : List ℕ) (other : AnyEnding)
        → Contains (endings_at hosts.old at) other → Contains (endings_at hosts.new at) other }
{
    let copy = ending.clone()?;
    match hosts.get_mut(host) {
        Some(endings) => {
            endings.insert(copy)?;
        }
        None => {
            let mut endings = BTreeSet::new(alloc);
            endings.insert(copy)?;
            hosts.insert(copied(host)?, endings)?;
        }
    }
    Ok(())
}

/// Lists an ending at each of these hosts. Whatever happens, what was listed stays.
fn list_hosts(
    alloc: Global,
    hosts: &mut BTreeMap<HostName, BTreeSet<Ending>>,
    of: &[HostName],
    ending: &Ending,
) -> Result<(), NoMemory>
    ensures here { OnOk result ((host : List ℕ)
        → Contains of.now host → Contains (endings_at hosts.new host) ending.now) }
    ensures stays { (at : List ℕ) (other : AnyEnding)
        → Contains (endings_at hosts.old at) other → Contains (endings_at hosts.new at) other }
{
    for host in of {
        list_host(alloc, hosts, host, ending)?;
    }
    Ok(())
}

/// Whether a grant that ends at the last moment that its request asks for is left.
fn is_left(after: &Option<Moment>, until: Moment) -> bool
    ensures { result ≡ is_left after.now until }
{
    match *after {
        None => true,
        Some(moment) => moment <= until,
    }
}

/// The names of the endings that are left, each once and in order: without a moment all names, and
/// with a moment the names of the requests that ask for an end then or later. The walk goes from
/// the latest end down to the moment and stops, so that ended requests cost nothing. The names are
/// lent: no text is copied.
pub(crate) fn names_left<'a>(
    alloc: Global,
    endings: &'a BTreeSet<Ending>,
    after: &Option<Moment>,
) -> Result<Vec<&'a RequestName>, NoMemory>
    ensures { IfOk result
        (λ names. AreNamesLeft after.now endings.now.keys (names_lent names.items)) }
{
    let mut names = Vec::new(alloc);
    for ending in endings.iter().rev() {
        if !is_left(after, ending.until) {
            break;
        }
        names.push(&ending.name)?;
    }
    names.sort_unstable();
    // After a failure a name may be listed under two ends.
    names.dedup();
    Ok(names)
}

impl Index {
    /// The index in which nothing is listed.
    pub(crate) fn new(alloc: Global) -> Index {
        Index {
            hosts: BTreeMap::new(alloc),
            all: BTreeSet::new(alloc),
        }
    }

    /// Lists a request under its name: at each of its hosts, and among all. Whatever happens, what
    /// was listed stays.
    pub(crate) fn list(
        &mut self,
        alloc: Global,
        request: &Request,
        name: &RequestName,
    ) -> Result<(), NoMemory>
        ensures here { OnOk result (IsListed self.new name.now request.now) }
        ensures stays { (other : AnyName) (q : RequestFields)
            → IsListed self.old other q → IsListed self.new other q }
    {
        let ending = Ending {
            until: request.until(),
            name: name.clone()?,
        };
        list_hosts(alloc, &mut self.hosts, request.hosts(), &ending)?;
        self.all.insert(ending)?;
        Ok(())
    }

    /// The names of the endings that are left at a host.
    pub(crate) fn names_at<'a>(
        &'a self,
        alloc: Global,
        host: &HostName,
        after: &Option<Moment>,
    ) -> Result<Vec<&'a RequestName>, NoMemory>
        ensures { IfOk result (λ names. AreNamesLeft after.now
            (endings_at self.now.hosts host.now) (names_lent names.items)) }
    {
        match self.hosts.get(host) {
            Some(endings) => names_left(alloc, endings, after),
            None => Ok(Vec::new(alloc)),
        }
    }

    /// The names of all endings that are left.
    pub(crate) fn names_of_all<'a>(
        &'a self,
        alloc: Global,
        after: &Option<Moment>,
    ) -> Result<Vec<&'a RequestName>, NoMemory>
        ensures { IfOk result
            (λ names. AreNamesLeft after.now self.now.all.keys (names_lent names.items)) }
    {
        names_left(alloc, &self.all, after)
    }
}
