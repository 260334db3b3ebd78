//! Requests.

ghost use Rattle.std.specs.Prelude.{◌≡◌, IfOk};
ghost use Rattle.messages.specs.Fields.{IsRequest};

use std::alloc::AllocError;
use std::marker::Model;
use sudo_words::{Cmnd, HostName, Label, Moment, Name};

/// A request for commands on hosts as a target, within a window of time and under a ceiling.
///
/// A request names 1 to 16 lawful commands and 1 to 16 hosts, each rising in byte order. Its number
/// is at most 999,999,999, and its window may be backwards.
#[derive(Debug, Drop)]
pub struct Request {
    pub(crate) at: Moment,
    pub(crate) by: Name,
    pub(crate) ceiling: Label,
    pub(crate) cmnds: Vec<Cmnd>,
    pub(crate) from: Moment,
    pub(crate) hosts: Vec<HostName>,
    pub(crate) no: u32,
    pub(crate) runas: Name,
    pub(crate) until: Moment,
}

impl Model for Request {
    ghost use Rattle.messages.specs.Fields.{RequestFields, IsRequest};

    ghost Value = { RequestFields };

    ghost use Rattle.messages.specs.Shown.{request_fields};

    ghost view = { request_fields };

    ghost invariant = { λ r. IsRequest (request_fields r) };
}

impl Request {
    /// When the request was made.
    pub fn at(&self) -> Moment
        ensures value { result ≡ self.now.at }
        ensures request { IsRequest self.now }
    {
        self.at
    }

    /// Who asks.
    pub fn by(&self) -> &Name
        ensures value { result.now ≡ self.now.by }
        ensures request { IsRequest self.now }
    {
        &self.by
    }

    /// The ceiling that the grant is to stay under.
    pub fn ceiling(&self) -> &Label
        ensures value { result.now ≡ self.now.ceiling }
        ensures request { IsRequest self.now }
    {
        &self.ceiling
    }

    /// The commands that are asked for.
    pub fn cmnds(&self) -> &[Cmnd]
        ensures value { result.now ≡ self.now.cmnds }
        ensures request { IsRequest self.now }
    {
        &self.cmnds
    }

    /// The window's first moment.
    pub fn from(&self) -> Moment
        ensures value { result ≡ self.now.from }
        ensures request { IsRequest self.now }
    {
        self.from
    }

    /// The hosts that are asked for.
    pub fn hosts(&self) -> &[HostName]
        ensures value { result.now ≡ self.now.hosts }
        ensures request { IsRequest self.now }
    {
        &self.hosts
    }

    /// The number that the asker gave the request.
    pub fn no(&self) -> u32
        ensures value { result ≡ self.now.no }
        ensures request { IsRequest self.now }
    {
        self.no
    }

    /// The target that the commands are to run as.
    pub fn runas(&self) -> &Name
        ensures value { result.now ≡ self.now.runas }
        ensures request { IsRequest self.now }
    {
        &self.runas
    }

    /// The window's last moment.
    pub fn until(&self) -> Moment
        ensures value { result ≡ self.now.until }
        ensures request { IsRequest self.now }
    {
        self.until
    }
}

fn copy_cmnds(cmnds: &Vec<Cmnd>) -> Result<Vec<Cmnd>, AllocError>
    ensures { IfOk result (λ copy. copy.items ≡ cmnds.now.items) }
{
    cmnds.clone()
}

fn copy_hosts(hosts: &Vec<HostName>) -> Result<Vec<HostName>, AllocError>
    ensures { IfOk result (λ copy. copy.items ≡ hosts.now.items) }
{
    hosts.clone()
}

impl Clone for Request {
    ghost is_clone = { λ request copy. copy ≡ request };

    fn clone(&self) -> Result<Request, AllocError> {
        Ok(Request {
            at: self.at,
            by: self.by.clone()?,
            ceiling: self.ceiling.clone()?,
            cmnds: copy_cmnds(&self.cmnds)?,
            from: self.from,
            hosts: copy_hosts(&self.hosts)?,
            no: self.no,
            runas: self.runas.clone()?,
            until: self.until,
        })
    }
}
