//! Cutting a store: what stays goes into a new one, and what does not into an archive.

use crate::clock::refuse_early;
use crate::order::Places;
use crate::part::{Part, refuse_there};
use crate::trouble::Trouble;
use desk_cut::{Cut, CutRefusal, cut_into};
use messages::{Message, text};
use std::fs::Metadata;
use std::{fmt, fs, io};
use store_copies::{Sheet, copy_of, file_of, new_store, there};

/// How many messages stay, and how many do not.
#[derive(Clone, Copy)]
pub(crate) struct Counts {
    kept: usize,
    archived: usize,
}

impl fmt::Display for Counts {
    fn fmt<W: fmt::Write>(&self, f: &mut fmt::Formatter<W>) -> fmt::Result {
        write!(f, "{} messages stay, {} archived", self.kept, self.archived)
    }
}

/// The files that are written beside their places.
#[derive(Drop)]
struct Parts {
    new: Part,
    archive: Option<Part>,
}

/// Refuses a new store where another one's log or journal lies: the store would take it for its
/// own.
fn refuse_beside(rt: &HostRuntime, new: &str) -> Result<(), Trouble> {
    for end in ["-wal", "-journal"] {
        refuse_there(rt, format!(in rt.alloc(); "{new}{end}")?.as_str())?;
    }
    Ok(())
}

/// What the system says of the store that is cut.
fn metadata_of(rt: &HostRuntime, old: &str) -> Result<Metadata, Trouble> {
    match fs::metadata(rt, old) {
        Ok(found) => Ok(found),
        Err(error) if error.kind() == io::ErrorKind::NotFound => {
            Err(Trouble::NoStore(String::from_str(rt.alloc(), old)?))
        }
        Err(error) => Err(Trouble::of_system(rt.alloc(), old, error)),
    }
}

impl Parts {
    /// Begins the files.
    fn begin(rt: &HostRuntime, places: &Places) -> Result<Parts, Trouble> {
        let old = metadata_of(rt, places.old.as_str())?;
        refuse_beside(rt, places.new.as_str())?;
        let new = Part::begin(rt, places.new.as_str(), &old)?;
        let Some(archive) = &places.archive else {
            return Ok(Parts { new, archive: None });
        };
        match Part::begin(rt, archive.as_str(), &old) {
            Ok(archive) => Ok(Parts {
                new,
                archive: Some(archive),
            }),
            Err(trouble) => {
                new.remove(rt);
                Err(trouble)
            }
        }
    }

    /// Puts the files into their places, the archive first: what the new store lacks is on the disk
    /// before the store is there.
    fn put(&self, rt: &HostRuntime) -> Result<(), Trouble> {
        if let Some(archive) = &self.archive {
            archive.put(rt)?;
        }
        match self.new.put(rt) {
            Ok(()) => Ok(()),
            Err(trouble) => {
                if let Some(archive) = &self.archive {
                    archive.take_back(rt);
                }
                Err(trouble)
            }
        }
    }

    /// Removes the files that are not in their places.
    fn remove(&self, rt: &HostRuntime) {
        self.new.remove(rt);
        if let Some(archive) = &self.archive {
            archive.remove(rt);
        }
    }
}

/// Writes the messages' texts, each as a line.
fn write_archive(rt: &HostRuntime, part: &mut Part, messages: &[Message]) -> Result<(), Trouble> {
    for message in messages {
        part.write_line(rt, text(rt.alloc(), message)?.as_str())?;
    }
    part.sync(rt)
}

/// A cut in memory: what became of the history, and the new store's file.
#[derive(Drop)]
struct Done {
    cut: Cut,
    file: Sheet,
}

/// Cuts a copy of the old store.
fn cut_copy(rt: &HostRuntime, places: &Places) -> Result<Done, Trouble> {
    let mut old = copy_of(rt, places.old.as_str())?;
    let mut new = new_store(rt.alloc())?;
    let cut = cut_into(rt.alloc(), &mut old, &mut new, places.moment);
    let old = match &cut {
        Err(CutRefusal::NoDesk) => there(rt, places.old.as_str(), old)?,
        _ => old,
    };
    drop(old);
    Ok(Done {
        cut: cut?,
        file: file_of(new)?,
    })
}

/// Writes what was cut, and puts it into its places.
fn write(rt: &HostRuntime, places: &Places, parts: &mut Parts) -> Result<Counts, Trouble> {
    let done = cut_copy(rt, places)?;
    let archived = done.cut.archived.as_slice();
    if let Some(archive) = &mut parts.archive {
        write_archive(rt, archive, archived)?;
    }
    parts.new.write(rt, done.file.bytes())?;
    parts.new.sync(rt)?;
    parts.put(rt)?;
    Ok(Counts {
        kept: done.cut.kept,
        archived: archived.len(),
    })
}

/// Makes the cut. Where it is refused, nothing is left of it, and the old store is as it was. A cut
/// that is killed leaves files beside the places at most, which the next one writes over; or the
/// archive in its place, where the new store is not yet.
pub(crate) fn cut_store(rt: &HostRuntime, places: &Places) -> Result<Counts, Trouble> {
    refuse_early(rt, places.moment)?;
    let mut parts = Parts::begin(rt, places)?;
    let counts = write(rt, places, &mut parts);
    if counts.is_err() {
        parts.remove(rt);
    }
    counts
}
