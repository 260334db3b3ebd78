//! Which requests are asked about.

ghost use Rattle.std.specs.Prelude.{◌≡◌, filter};
ghost use Rattle.std.specs.List.{list_any};
ghost use Rattle.findings.specs.Picks as picks;
ghost use Rattle.findings.specs.Picks.{AsksAboutAll};

use crate::entry::{About, AuditEntry};
use grants::{Status, Window};
use messages::{Request, Verdict};
use sudo_words::{HostName, Moment, Name};

/// What is asked about. A part that is left out does not narrow the question.
#[derive(Drop)]
pub struct Pick {
    /// Windows that do not end before this moment.
    pub from: Option<Moment>,
    /// Windows that do not begin after this moment.
    pub until: Option<Moment>,
    /// Requests that name the host.
    pub host: Option<HostName>,
    /// Requests that the person asked for or gave a verdict on.
    pub person: Option<Name>,
}

impl Pick {
    /// A question that nothing narrows.
    pub fn all() -> Pick
        ensures { result ≡ picks.all }
    {
        Pick {
            from: None,
            until: None,
            host: None,
            person: None,
        }
    }

    /// The question about what does not end before the moment.
    pub fn after(at: Moment) -> Pick
        ensures { result ≡ picks.after at }
    {
        Pick {
            from: Some(at),
            until: None,
            host: None,
            person: None,
        }
    }

    /// A question that nothing narrows, where who may approve is told for the moment.
    pub fn told_at(at: Moment) -> Pick
        ensures { result ≡ picks.told_at at }
    {
        Pick {
            from: None,
            until: Some(at),
            host: None,
            person: None,
        }
    }

    /// Whether everything is asked about.
    fn is_whole(&self) -> bool
        ensures { result ≡ picks.is_whole self.now }
    {
        self.from.is_none() && self.until.is_none() && self.host.is_none() && self.person.is_none()
    }

    /// Whether something that starts at this moment begins early enough.
    fn begins_by(&self, start: Moment) -> bool
        ensures { result ≡ picks.begins_by self.now.until start }
    {
        match self.until {
            Some(until) => start <= until,
            None => true,
        }
    }

    /// Whether something that ends at this moment ends late enough.
    fn ends_from(&self, end: Moment) -> bool
        ensures { result ≡ picks.ends_from self.now.from end }
    {
        match self.from {
            Some(from) => from <= end,
            None => true,
        }
    }

    /// Whether something between the two moments, both included, is asked about.
    fn has_span(&self, start: Moment, end: Moment) -> bool
        ensures { result ≡ picks.has_span self.now start end }
    {
        self.begins_by(start) && self.ends_from(end)
    }

    /// Whether the host is asked about.
    pub(crate) fn has_host(&self, host: &HostName) -> bool
        ensures { result ≡ picks.has_host self.now host.now }
    {
        match &self.host {
            Some(wanted) => *wanted == *host,
            None => true,
        }
    }

    fn has_person(&self, person: &Name) -> bool
        ensures { result ≡ picks.wants self.now.person person.now }
    {
        match &self.person {
            Some(wanted) => *wanted == *person,
            None => true,
        }
    }

    fn has_host_of(&self, request: &Request) -> bool
        ensures { result ≡ list_any (picks.has_host self.now) request.now.hosts }
    {
        request.hosts().iter().any(|host| self.has_host(host))
    }

    fn has_some_host(&self, requests: &[Request]) -> bool
        ensures { result ≡ picks.has_host_among self.now requests.now }
    {
        self.host.is_none() || self.has_host_in(requests)
    }

    /// Whether one of the requests names a host that is asked about.
    fn has_host_in(&self, requests: &[Request]) -> bool
        ensures { result
            ≡ list_any (λ q. list_any (picks.has_host self.now) q.hosts) requests.now }
    {
        requests.iter().any(|request| self.has_host_of(request))
    }

    fn has_someone(&self, asker: &Name, verdicts: &[Verdict]) -> bool
        ensures { result ≡ picks.has_person_of self.now asker.now verdicts.now }
    {
        self.has_person(asker) || self.has_author(verdicts)
    }

    /// Whether the author of one of the verdicts is asked about.
    fn has_author(&self, verdicts: &[Verdict]) -> bool
        ensures { result ≡ list_any (λ v. picks.wants self.now.person v.by) verdicts.now }
    {
        verdicts.iter().any(|verdict| self.has_person(verdict.by()))
    }

    /// Whether the moment of a verdict is asked about.
    fn has_given(&self, verdicts: &[Verdict]) -> bool
        ensures { result ≡ list_any (λ v. picks.has_span self.now v.at v.at) verdicts.now }
    {
        verdicts
            .iter()
            .any(|verdict| self.has_span(verdict.at(), verdict.at()))
    }

    /// Whether a window that a request asks for is asked about.
    fn has_asked(&self, requests: &[Request]) -> bool
        ensures { result ≡ list_any (λ q. picks.has_span self.now q.from q.until) requests.now }
    {
        requests
            .iter()
            .any(|request| self.has_span(request.from(), request.until()))
    }

    /// Whether the time is asked about: a grant's window; else a window that a request asks for;
    /// or, if nobody asks, the moment of a verdict.
    fn has_some_span(&self, about: &About, status: &Option<Status>) -> bool
        ensures { result ≡ picks.has_span_of self.now about.now status.now }
    {
        match status {
            Some(Status::Granted(Window { start, end })) => self.has_span(*start, *end),
            Some(_) => self.has_asked(about.requests.as_slice()),
            None => self.has_given(about.verdicts.as_slice()),
        }
    }

    /// Whether the entry is asked about.
    fn has(&self, entry: &AuditEntry) -> bool
        ensures { result ≡ picks.asks_about self.now entry.now }
    {
        self.has_some_span(&entry.about, &entry.status)
            && self.has_some_host(entry.about.requests.as_slice())
            && self.has_someone(&entry.name.by, entry.about.verdicts.as_slice())
    }

    /// The entries that are asked about, in their order: all of them if nothing narrows the
    /// question.
    pub fn among(&self, entries: Vec<AuditEntry>) -> Vec<AuditEntry>
        ensures told { result.items ≡ filter (picks.is_told self.now) entries.items }
        ensures all { AsksAboutAll self.now → result ≡ entries }
    {
        if self.is_whole() {
            return entries;
        }
        let mut entries = entries;
        entries.retain(|entry| self.has(entry));
        entries
    }
}

/// Whether somebody asks under the name, and it does not end before the moment.
fn is_open(entry: &AuditEntry, at: Moment) -> bool
    ensures { result ≡ picks.is_open at entry.now }
{
    let after = Pick::after(at);
    entry.status.is_some() && after.has_some_span(&entry.about, &entry.status)
}

/// The entries of requests that do not end before the moment, in their order.
pub fn open_among(entries: Vec<AuditEntry>, at: Moment) -> Vec<AuditEntry>
    ensures { result.items ≡ filter (picks.is_open at) entries.items }
{
    let mut entries = entries;
    entries.retain(|entry| is_open(entry, at));
    entries
}
