//! The output of a program that tries a desk.

use crate::trouble::Trouble;
use std::io::Write;

/// Writes the text, or the trouble; answers whether the text is written and has no `OTHERWISE`.
pub fn write_told<W: Write>(out: &mut W, told: String, done: Result<(), Trouble>) -> bool {
    let is_right = done.is_ok() && !told.as_str().contains("OTHERWISE");
    let is_written = match done {
        Ok(()) => out.write_all(told.as_bytes()).is_ok() && out.flush().is_ok(),
        Err(trouble) => writeln!(out, "{trouble}").is_ok(),
    };
    drop(told);
    is_written && is_right
}
