//! The names of requests.

ghost use Rattle.std.specs.Prelude.{◌≡◌, IfOk};
ghost use Rattle.messages.specs.Names as names;

use crate::request::Request;
use crate::verdict::Verdict;
use std::alloc::AllocError;
use sudo_words::Name;

/// A request's name: who asked, and the number that the asker gave it. Names are ordered by their
/// askers in byte order, and then by number.
#[derive(Debug, Drop, PartialEq, Eq, PartialOrd, Ord)]
pub struct RequestName {
    /// Who asked.
    pub by: Name,
    /// The number, which is the asker's own.
    pub no: u32,
}

impl Clone for RequestName {
    ghost is_clone = { λ name copy. copy ≡ name };

    fn clone(&self) -> Result<RequestName, AllocError> {
        Ok(RequestName {
            by: self.by.clone()?,
            no: self.no,
        })
    }
}

impl Request {
    /// The name of the request.
    pub fn name(&self) -> Result<RequestName, AllocError>
        ensures { IfOk result (λ name. name ≡ names.name_of self.now) }
    {
        Ok(RequestName {
            by: self.by.clone()?,
            no: self.no,
        })
    }
}

impl Verdict {
    /// The name of the request that the verdict is about.
    pub fn name_meant(&self) -> Result<RequestName, AllocError>
        ensures { IfOk result (λ name. name ≡ names.name_meant self.now) }
    {
        Ok(RequestName {
            by: self.of.clone()?,
            no: self.no,
        })
    }
}
