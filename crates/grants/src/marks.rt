//! The moments at which people gave verdicts of one kind.

ghost use Rattle.std.specs.Prelude.{◌≡◌, ◌++◌, map, IfOk, OnOk, OnErr};
ghost use Rattle.grants.specs.Marks.{verdict_of};
ghost use Rattle.grants.specs.private.Noting as spec;

use messages::{Request, Verdict, VerdictKind};
use std::alloc::{AllocError, Global};
use std::collections::BTreeSet;
use sudo_words::{Moment, Name, NoMemory};

/// A person, and when the person gave a verdict. Marks are in the byte order of people's names, and
/// then by moment.
#[derive(Debug, Drop, PartialEq, Eq, PartialOrd, Ord)]
pub struct Mark {
    pub person: Name,
    pub at: Moment,
}

impl Clone for Mark {
    ghost is_clone = { λ mark copy. copy ≡ mark };

    fn clone(&self) -> Result<Mark, AllocError> {
        Ok(Mark {
            person: self.person.clone()?,
            at: self.at,
        })
    }
}

/// A copy of the marks.
pub(crate) fn copied(marks: &BTreeSet<Mark>) -> Result<BTreeSet<Mark>, AllocError>
    ensures { IfOk result (λ copy. copy.keys ≡ marks.now.keys) }
{
    marks.clone()
}

/// Adds the mark of a verdict by the person. If memory runs out, nothing changes.
pub(crate) fn note(marks: &mut BTreeSet<Mark>, person: &Name, at: Moment) -> Result<(), NoMemory>
    ensures ok { OnOk result (marks.new.keys ≡ spec.noted person.now at marks.old.keys) }
    ensures err { OnErr result (marks.new.keys ≡ marks.old.keys) }
{
    let mark = Mark {
        person: person.clone()?,
        at,
    };
    marks.insert(mark)?;
    Ok(())
}

/// Each mark as its person and its moment, in the order of the marks.
pub(crate) fn shown(alloc: Global, marks: &BTreeSet<Mark>) -> Result<Vec<(Name, Moment)>, NoMemory>
    ensures { IfOk result (λ list. list.items ≡ map spec.shown marks.now.keys) }
{
    let mut list = Vec::new(alloc);
    for mark in marks {
        list.push((mark.person.clone()?, mark.at))?;
    }
    Ok(list)
}

/// The verdict of the kind on the request that a mark keeps.
fn verdict_about(request: &Request, kind: VerdictKind, mark: &Mark) -> Result<Verdict, NoMemory>
    ensures { IfOk result (λ verdict. verdict ≡ verdict_of request.now kind mark.now) }
{
    let of = request.by().clone()?;
    let by = mark.person.clone()?;
    // The number is a request's, so there is such a verdict.
    match Verdict::new(kind, of, request.no(), by, mark.at) {
        Some(verdict) => Ok(verdict),
        None => Err(NoMemory),
    }
}

/// Adds the verdict of the kind on the request that each mark keeps, in the order of the marks.
pub(crate) fn push_verdicts(
    list: &mut Vec<Verdict>,
    request: &Request,
    kind: VerdictKind,
    marks: &BTreeSet<Mark>,
) -> Result<(), NoMemory>
    ensures { OnOk result (list.new.items
        ≡ list.old.items ++ map (verdict_of request.now kind) marks.now.keys) }
{
    for mark in marks {
        list.push(verdict_about(request, kind, mark)?)?;
    }
    Ok(())
}
