//! The rows of tables, each found by binary search.

ghost use Rattle.std.specs.Prelude.{◌≡◌, Contains, IfOk, IfSome};

use crate::names::NameKey;
use crate::places::{Places, VerdictKey, key_in, key_of, name_in, name_key, text_in};
use crate::stored::Stored;
use sqlite::Row;
use std::alloc::Global;
use sudo_words::NoMemory;

/// Rows of `names`, and where each name is among them.
#[derive(Debug, Drop)]
pub(crate) struct Named<'a> {
    pub(crate) rows: &'a [Row],
    places: Places<NameKey<'a>>,
}

impl<'a> Named<'a> {
    /// The rows, looked up by their names.
    pub(crate) fn new(alloc: Global, rows: &'a [Row]) -> Result<Named<'a>, NoMemory>
        ensures { IfOk result (λ t. t.rows.now ≡ rows.now) }
    {
        let mut keyed = Vec::with_capacity(alloc, rows.len())?;
        for at in 0..rows.len() {
            keyed.push((name_in(&rows[at]), at))?;
        }
        Ok(Named {
            rows,
            places: Places::of(keyed),
        })
    }

    /// A row of the name.
    pub(crate) fn row_of(&self, asker: &str, number: u32) -> Option<&Row>
        ensures { IfSome result (λ r. Contains self.now.rows.now r.now) }
    {
        let name = name_key(asker, number);
        self.rows.get(self.places.find(&name)?)
    }
}

/// Rows of `verdicts`, and where each verdict is among them.
#[derive(Debug, Drop)]
pub(crate) struct Counted<'a> {
    pub(crate) rows: &'a [Row],
    places: Places<VerdictKey<'a>>,
}

impl<'a> Counted<'a> {
    /// The rows, looked up by what they say.
    pub(crate) fn new(alloc: Global, rows: &'a [Row]) -> Result<Counted<'a>, NoMemory>
        ensures { IfOk result (λ t. t.rows.now ≡ rows.now) }
    {
        let mut keyed = Vec::with_capacity(alloc, rows.len())?;
        for at in 0..rows.len() {
            keyed.push((key_in(&rows[at]), at))?;
        }
        Ok(Counted {
            rows,
            places: Places::of(keyed),
        })
    }

    /// A row of the message, if it is a verdict.
    pub(crate) fn row_of(&self, stored: &Stored) -> Option<&Row>
        ensures { IfSome result (λ r. Contains self.now.rows.now r.now) }
    {
        let key = key_of(stored)?;
        self.rows.get(self.places.find(&key)?)
    }
}

/// Rows of `parked`, and where each text is among them.
#[derive(Debug, Drop)]
pub(crate) struct Waiting<'a> {
    pub(crate) rows: &'a [Row],
    places: Places<&'a [u8]>,
}

impl<'a> Waiting<'a> {
    /// The rows, looked up by their texts.
    pub(crate) fn new(alloc: Global, rows: &'a [Row]) -> Result<Waiting<'a>, NoMemory>
        ensures { IfOk result (λ t. t.rows.now ≡ rows.now) }
    {
        let mut keyed = Vec::with_capacity(alloc, rows.len())?;
        for at in 0..rows.len() {
            keyed.push((text_in(&rows[at], 1), at))?;
        }
        Ok(Waiting {
            rows,
            places: Places::of(keyed),
        })
    }

    /// A row of the text.
    pub(crate) fn row_of(&self, text: &str) -> Option<&Row>
        ensures { IfSome result (λ r. Contains self.now.rows.now r.now) }
    {
        let text = text.as_bytes();
        self.rows.get(self.places.find(&text)?)
    }
}
