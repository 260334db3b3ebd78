//! What the words on the command line ask.

ghost use Rattle.std.specs.Prelude.{◌≡◌, [], ◌∷◌, ◌++◌, map, Some, None, IfOk, OnOk, string_bytes};
ghost use Rattle.sudo_words.specs.Moment.{IsStamp};
ghost use Rattle.findings.specs.Asking as asking;
ghost use Rattle.findings.specs.private.Hearing.{Hears};

use crate::pick::Pick;
use std::alloc::{AllocError, AllocFailed, Global};
use sudo_words::{HostName, Moment, Name, WordFault};

/// What is asked, of which desk, and how the answer is told.
#[derive(Drop)]
pub struct Question {
    /// The path of the roster's file.
    pub roster: String,
    /// The path of the base policy's file.
    pub base: String,
    /// The path of the store, or `-`.
    pub store: String,
    /// What is asked about.
    pub pick: Pick,
    /// Whether the answer is told as JSON.
    pub as_json: bool,
}

/// Why the words are not a question.
#[derive(Clone, Copy, Debug, PartialEq, Eq)]
pub enum WordsFault {
    /// The words ask for help.
    Help,
    /// The words do not fit the program's usage.
    Usage,
    /// A word does not have the form that its place requires.
    BadWord,
    /// Memory ran out.
    NoMemory,
}

impl From<AllocError> for WordsFault {
    fn from(_e: AllocError) -> WordsFault {
        WordsFault::NoMemory
    }
}

impl<T: Drop> From<AllocFailed<T>> for WordsFault {
    fn from(_e: AllocFailed<T>) -> WordsFault {
        WordsFault::NoMemory
    }
}

impl From<WordFault> for WordsFault {
    fn from(e: WordFault) -> WordsFault {
        match e {
            WordFault::BadWord => WordsFault::BadWord,
            WordFault::NoMemory => WordsFault::NoMemory,
        }
    }
}

/// An option that takes a value, the next word.
#[derive(Clone, Copy, Debug, PartialEq, Eq)]
enum Choice {
    From,
    Until,
    Host,
    Person,
}

/// The option with this text.
fn choice_of(word: &str) -> Option<Choice>
    ensures { result ≡ asking.choice_of word.now }
{
    if word == "--from" {
        Some(Choice::From)
    } else if word == "--until" {
        Some(Choice::Until)
    } else if word == "--host" {
        Some(Choice::Host)
    } else if word == "--person" {
        Some(Choice::Person)
    } else {
        None
    }
}

/// The moment with this stamp.
fn moment_of(word: &str) -> Result<Moment, WordsFault>
    ensures { IfOk result (λ moment. IsStamp word.now moment) }
{
    match Moment::read_stamp(word) {
        Some(moment) => Ok(moment),
        None => Err(WordsFault::BadWord),
    }
}

/// What the words have said so far.
#[derive(Drop)]
struct Said {
    places: Vec<String>,
    pick: Pick,
    as_json: bool,
    /// The option whose value is the next word.
    choice: Option<Choice>,
    /// Whether all further words are positional arguments: `--` has come.
    is_ended: bool,
}

/// Sets the value. A second value for the same option is `Usage`.
fn once<T: Drop>(place: &mut Option<T>, value: T) -> Result<(), WordsFault>
    ensures { OnOk result (place.new ≡ Some value) }
{
    if place.is_some() {
        return Err(WordsFault::Usage);
    }
    *place = Some(value);
    Ok(())
}

/// Whether the word begins with `-` and is longer.
fn is_flag(word: &str) -> bool
    ensures { result ≡ asking.is_flag word.now }
{
    word != "-" && begins_with_dash(word.as_bytes())
}

fn begins_with_dash(word: &[u8]) -> bool
    ensures { result ≡ asking.begins_with_dash word.now }
{
    match word {
        [first, ..] => *first == b'-',
        [] => false,
    }
}

impl Said {
    /// Takes the word of an option.
    fn choose(&mut self, alloc: Global, choice: Choice, word: &str) -> Result<(), WordsFault>
        ensures { (h : asking.Heard) → Hears self.old h → h.choice ≡ None
            → OnOk result (Hears self.new (asking.with_choice choice h word.now)) }
    {
        match choice {
            Choice::From => once(&mut self.pick.from, moment_of(word)?),
            Choice::Until => once(&mut self.pick.until, moment_of(word)?),
            Choice::Host => once(&mut self.pick.host, HostName::read(alloc, word)?),
            Choice::Person => once(&mut self.pick.person, Name::read(alloc, word)?),
        }
    }

    /// Takes a word that is no option.
    fn put(&mut self, alloc: Global, word: &str) -> Result<(), WordsFault>
        ensures { (h : asking.Heard) → Hears self.old h → OnOk result (Hears self.new
            (record h { places = h.places ++ word.now ∷ [] })) }
    {
        let place = String::from_str(alloc, word)?;
        self.places.push(place)?;
        Ok(())
    }

    /// Takes a word that begins with `-` and is longer.
    fn flag(&mut self, word: &str) -> Result<(), WordsFault>
        ensures { (h : asking.Heard) → Hears self.old h
            → OnOk result (Hears self.new (asking.with_flag h word.now)) }
    {
        if word == "--" {
            self.is_ended = true;
        } else if word == "--json" {
            self.as_json = true;
        } else if word == "--help" || word == "-h" {
            return Err(WordsFault::Help);
        } else {
            self.choice = choice_of(word);
            if self.choice.is_none() {
                return Err(WordsFault::Usage);
            }
        }
        Ok(())
    }

    fn take(&mut self, alloc: Global, word: &str) -> Result<(), WordsFault>
        ensures { (h : asking.Heard) → Hears self.old h
            → OnOk result (Hears self.new (asking.hear h word.now)) }
    {
        match self.choice.take() {
            Some(choice) => self.choose(alloc, choice, word),
            None if self.is_ended || !is_flag(word) => self.put(alloc, word),
            None => self.flag(word),
        }
    }
}

/// What is said before the first word.
fn nothing(alloc: Global) -> Said
    ensures { Hears result asking.nothing_heard }
{
    Said {
        places: Vec::new(alloc),
        pick: Pick {
            from: None,
            until: None,
            host: None,
            person: None,
        },
        as_json: false,
        choice: None,
        is_ended: false,
    }
}

/// The question, if the words are complete: three positional arguments, and no option without its
/// value.
fn finish(said: Said) -> Result<Question, WordsFault>
    ensures { (h : asking.Heard) → Hears said h → IfOk result (asking.WordsAsk h) }
{
    let Said {
        places,
        pick,
        as_json,
        choice,
        is_ended: _,
    } = said;
    match (choice, places.as_slice()) {
        (None, [roster, base, store]) => Ok(Question {
            roster: roster.clone()?,
            base: base.clone()?,
            store: store.clone()?,
            pick,
            as_json,
        }),
        _ => Err(WordsFault::Usage),
    }
}

/// What the words ask. The words are `ROSTER BASE STORE`, with options before, between and after,
/// and without the program's own name at the front.
pub fn asked_by(alloc: Global, words: &[String]) -> Result<Question, WordsFault>
    ensures { IfOk result
        (asking.WordsAsk (asking.hear_all asking.nothing_heard (map string_bytes words.now))) }
{
    let mut said = nothing(alloc);
    for word in words {
        said.take(alloc, word.as_str())?;
    }
    finish(said)
}
