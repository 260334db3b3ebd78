//! What the words on the command line say to do.

use crate::trouble::Trouble;
use std::alloc::Global;
use sudo_words::Moment;

/// What a cut reads and writes.
#[derive(Drop)]
pub(crate) struct Places {
    /// The path of the store that is cut.
    pub(crate) old: String,
    /// The path of the store that begins.
    pub(crate) new: String,
    /// The moment of the cut.
    pub(crate) moment: Moment,
    /// The path of the archive.
    pub(crate) archive: Option<String>,
}

/// What is to be done.
#[derive(Drop)]
pub(crate) enum Order {
    /// Tell the usage.
    Help,
    /// Cut a store.
    Cut(Places),
}

/// What the words have said so far.
#[derive(Drop)]
struct Said {
    places: Vec<String>,
    archive: Option<String>,
    /// Whether the next word is the archive.
    is_archive: bool,
    /// Whether all further words are places: `--` has come.
    is_ended: bool,
    asks_help: bool,
}

impl Said {
    /// Takes a word of an option.
    fn flag(&mut self, word: &str) -> Result<(), Trouble> {
        match word {
            "--" => self.is_ended = true,
            "--archive" if self.archive.is_none() => self.is_archive = true,
            "-h" | "--help" => self.asks_help = true,
            _ => return Err(Trouble::Usage),
        }
        Ok(())
    }

    fn take(&mut self, alloc: Global, word: &str) -> Result<(), Trouble> {
        if self.is_archive {
            self.is_archive = false;
            self.archive = Some(String::from_str(alloc, word)?);
        } else if self.is_ended || !word.starts_with('-') {
            self.places.push(String::from_str(alloc, word)?)?;
        } else {
            return self.flag(word);
        }
        Ok(())
    }
}

/// Whether a store may begin at the path, or an archive: a name that ends like those of the files
/// beside a store, or of one that is being written, would be taken for such a file.
fn may_be_made(path: &str) -> bool {
    let ends = ["-wal", "-journal", "-shm", ".part", "/"];
    !path.is_empty() && !ends.iter().any(|end| path.ends_with(*end))
}

/// What a cut reads and writes, by the words.
fn places_in(alloc: Global, said: &Said) -> Result<Places, Trouble> {
    let [old, new, moment] = said.places.as_slice() else {
        return Err(Trouble::Usage);
    };
    let Some(moment) = Moment::read_stamp(moment.as_str()) else {
        return Err(Trouble::BadWord);
    };
    let archive = match &said.archive {
        Some(archive) if archive.as_str() == new.as_str() => return Err(Trouble::BadWord),
        Some(archive) if !may_be_made(archive.as_str()) => return Err(Trouble::BadWord),
        Some(archive) => Some(String::from_str(alloc, archive.as_str())?),
        None => None,
    };
    if !may_be_made(new.as_str()) {
        return Err(Trouble::BadWord);
    }
    Ok(Places {
        old: String::from_str(alloc, old.as_str())?,
        new: String::from_str(alloc, new.as_str())?,
        moment,
        archive,
    })
}

/// What the words say to do. They are `OLD NEW T`, with options before, between and after, and
/// without the program's own name at the front.
pub(crate) fn ordered_by(alloc: Global, words: &[String]) -> Result<Order, Trouble> {
    let mut said = Said {
        places: Vec::new(alloc),
        archive: None,
        is_archive: false,
        is_ended: false,
        asks_help: false,
    };
    for word in words {
        said.take(alloc, word.as_str())?;
    }
    if said.asks_help {
        return Ok(Order::Help);
    }
    if said.is_archive {
        return Err(Trouble::Usage);
    }
    Ok(Order::Cut(places_in(alloc, &said)?))
}
