//! The columns of a report's lines.

ghost use Rattle.std.specs.Prelude.{◌≡◌, ◌++◌, OnOk, codes, string_bytes};
ghost use Rattle.sudo_words.specs.Bytes.{spaces};
ghost use Rattle.messages.specs.Names.{name_of};
ghost use Rattle.review.specs.Columns as columns;

use messages::Request;
use std::alloc::Global;
use sudo_words::NoMemory;

/// How wide the column of a word is.
const WORD_WIDTH: usize = 32;

/// How wide the column of a number is.
const NUMBER_WIDTH: usize = 9;

fn push_spaces(out: &mut String, count: usize) -> Result<(), NoMemory>
    ensures { OnOk result (string_bytes out.new ≡ string_bytes out.old ++ spaces count) }
{
    for _place in 0..count {
        out.push_str(" ")?;
    }
    Ok(())
}

/// Adds a word, left-aligned in its column.
pub(crate) fn push_left(out: &mut String, word: &str) -> Result<(), NoMemory>
    ensures { OnOk result (string_bytes out.new ≡ string_bytes out.old ++ columns.left word.now) }
{
    out.push_str(word)?;
    push_spaces(out, WORD_WIDTH.saturating_sub(word.len()))
}

/// Adds a number, right-aligned in its column.
fn push_right(alloc: Global, out: &mut String, number: u32) -> Result<(), NoMemory>
    ensures { OnOk result (string_bytes out.new ≡ string_bytes out.old ++ columns.right number) }
{
    let digits = format!(in alloc; "{number}")?;
    push_spaces(out, NUMBER_WIDTH.saturating_sub(digits.len()))?;
    out.push_str(digits.as_str())?;
    Ok(())
}

/// Adds who asked, the number of the request, and a space.
pub(crate) fn push_name(alloc: Global, out: &mut String, request: &Request) -> Result<(), NoMemory>
    ensures { OnOk result (string_bytes out.new
        ≡ string_bytes out.old ++ columns.name_columns (name_of request.now) ++ codes " ") }
{
    push_left(out, request.by().as_str())?;
    out.push_str(" ")?;
    push_right(alloc, out, request.no())?;
    out.push_str(" ")?;
    Ok(())
}
