//! Lines for a terminal.

ghost use Rattle.std.specs.Prelude.{◌≡◌, ◌++◌, ◌==◌, false, map, IfOk, OnOk, string_bytes};
ghost use Rattle.std.specs.List.{slice_split};
ghost use Rattle.sudo_words.specs.Bytes.{space, spaces};
ghost use Rattle.findings.specs.Terminal as terminal;

use std::alloc::{AllocError, Global};
use sudo_words::NoMemory;

/// How wide a line may be, unless a single word does not fit.
const WIDTH: usize = 100;

/// The column at which the text beside a heading begins.
const SECOND: usize = 12;

/// The column at which a line that was too long goes on.
const THIRD: usize = 14;

/// A new line, up to the column at which it goes on.
const NEW_LINE: &str = "\n              ";

fn push_spaces(out: &mut String, count: usize) -> Result<(), NoMemory>
    ensures { OnOk result (string_bytes out.new ≡ string_bytes out.old ++ spaces count) }
{
    for _place in 0..count {
        out.push_str(" ")?;
    }
    Ok(())
}

/// Begins a line: its heading, in its column.
pub(crate) fn push_heading(out: &mut String, heading: &str) -> Result<(), NoMemory>
    ensures { OnOk result
        (string_bytes out.new ≡ string_bytes out.old ++ terminal.headed heading.now) }
{
    out.push_str("  ")?;
    out.push_str(heading)?;
    push_spaces(out, (SECOND - 2).saturating_sub(heading.len()))
}

/// Adds a line with a text after the heading.
pub(crate) fn push_plain(out: &mut String, heading: &str, text: &str) -> Result<(), NoMemory>
    ensures { OnOk result (string_bytes out.new
        ≡ string_bytes out.old ++ terminal.plain_line heading.now text.now) }
{
    push_heading(out, heading)?;
    out.push_str(text)?;
    out.push_str("\n")?;
    Ok(())
}

/// Where a line with words ends: how many columns it has left, and whether its first word is still
/// to come.
#[derive(Clone, Copy)]
pub(crate) struct Place {
    room: usize,
    is_first: bool,
}

/// The place behind a heading.
pub(crate) const BEHIND_HEADING: Place = Place {
    room: WIDTH - SECOND,
    is_first: true,
};

impl Place {
    /// Adds what stands before a word: a space, or a new line where there is no room for it.
    fn push_gap(self, out: &mut String, word: &str) -> Result<(), NoMemory>
        ensures { OnOk result (string_bytes out.new
            ≡ string_bytes out.old ++ terminal.gap self.room self.is_first word.now) }
    {
        if self.is_first {
            return Ok(());
        }
        if word.len() < self.room {
            out.push_str(" ")?;
        } else {
            out.push_str(NEW_LINE)?;
        }
        Ok(())
    }

    /// How many columns are left behind a word.
    fn room_after(self, word: &str) -> usize
        ensures { result ≡ terminal.room_after self.room self.is_first word.now }
    {
        if self.is_first {
            self.room.saturating_sub(word.len())
        } else if word.len() < self.room {
            self.room - (word.len() + 1)
        } else {
            (WIDTH - THIRD).saturating_sub(word.len())
        }
    }

    /// Adds a word after a space, or on a line of its own where there is no room for it, and gives
    /// the place behind it.
    pub(crate) fn push(self, out: &mut String, word: &str) -> Result<Place, NoMemory>
        ensures text { OnOk result (string_bytes out.new ≡ string_bytes out.old
            ++ terminal.gap self.room self.is_first word.now ++ word.now) }
        ensures place { IfOk result (λ p. p ≡ record {
          room = terminal.room_after self.room self.is_first word.now;
          is_first = false;
        }) }
    {
        self.push_gap(out, word)?;
        out.push_str(word)?;
        Ok(Place {
            room: self.room_after(word),
            is_first: false,
        })
    }
}

/// Adds a line with these words after the heading.
pub(crate) fn push_line(out: &mut String, heading: &str, words: &[&str]) -> Result<(), NoMemory>
    ensures { OnOk result (string_bytes out.new
        ≡ string_bytes out.old ++ terminal.line heading.now (map (λ w. w.now) words.now)) }
{
    let mut place = BEHIND_HEADING;
    push_heading(out, heading)?;
    for word in words {
        place = place.push(out, word)?;
    }
    out.push_str("\n")?;
    Ok(())
}

/// The words of a text, cut at each space.
pub(crate) fn words(alloc: Global, text: &str) -> Result<Vec<&str>, AllocError>
    ensures { IfOk result (λ v. map (λ w. w.now) v.items ≡ slice_split (λ b. b == space) text.now) }
{
    text.split(' ').collect(alloc)
}
