//! Which words of the command line name archives.

use std::alloc::{AllocFailed, Global};

/// How many places `findings::asked_by` reads: those of the roster, the base and the store.
const PLACES: usize = 3;

/// Whether the word is an option whose value is the next word.
fn takes_a_value(word: &str) -> bool {
    matches!(word, "--from" | "--until" | "--host" | "--person")
}

/// What the words have said so far.
#[derive(Drop)]
struct Split {
    /// The words but for the archives.
    words: Vec<String>,
    archives: Vec<String>,
    /// How many places the words have named.
    places: usize,
    /// Whether this word is the value of an option.
    is_value: bool,
    /// Whether all further words name places: `--` has come.
    is_ended: bool,
}

impl Split {
    /// Takes a word that names a place.
    fn put(&mut self, word: String) -> Result<(), AllocFailed<String>> {
        if self.places < PLACES {
            self.places += 1;
            return self.words.push(word);
        }
        self.archives.push(word)
    }

    /// Takes a word of an option.
    fn flag(&mut self, word: String) -> Result<(), AllocFailed<String>> {
        self.is_ended = word.as_str() == "--";
        self.is_value = takes_a_value(word.as_str());
        self.words.push(word)
    }

    fn take(&mut self, word: String) -> Result<(), AllocFailed<String>> {
        if self.is_value {
            self.is_value = false;
            return self.words.push(word);
        }
        if self.is_ended || word.as_str() == "-" || !word.as_str().starts_with('-') {
            return self.put(word);
        }
        self.flag(word)
    }
}

/// The words but for the archives, and the archives: the places behind that of the store. A word
/// that is taken for the wrong one leaves the others with too many places, or too few, and so is
/// refused with them.
pub(crate) fn apart(
    alloc: Global,
    words: Vec<String>,
) -> Result<(Vec<String>, Vec<String>), AllocFailed<String>> {
    let mut said = Split {
        words: Vec::new(alloc),
        archives: Vec::new(alloc),
        places: 0,
        is_value: false,
        is_ended: false,
    };
    for word in words {
        said.take(word)?;
    }
    let Split {
        words,
        archives,
        ..
    } = said;
    Ok((words, archives))
}
