//! Calls that take no memory, made as often as the standard input says. Whoever runs the program
//! counts its requests for memory: one round has to make as many of them as a thousand do.
//!
//! The input has five parts with a line `%%` between them: `lend` or `copy` and the rounds in ten
//! digits; a roster; a base; messages, one a line; and the words of an invocation. With `copy` a
//! text is copied in each round, so that a count which misses requests is seen.
#![tactic(auto)]

mod asked;
mod given;
mod input;
mod trouble;

use crate::input::said;
use crate::trouble::Trouble;
use std::io::{BufReader, Read, Write};
use std::process::ExitCode;
use std::str;

/// All of the standard input.
fn whole(rt: &HostRuntime) -> Result<Vec<u8>, Trouble> {
    let Ok(mut input) = BufReader::new(rt.alloc(), rt.stdin()) else {
        return Err(Trouble::NoMemory);
    };
    let mut bytes = Vec::new(rt.alloc());
    match input.read_to_end(&mut bytes) {
        Ok(_) => Ok(bytes),
        Err(_) => Err(Trouble::BadInput),
    }
}

/// How much all calls say together, with the input from the standard input.
fn count(rt: &HostRuntime) -> Result<u64, Trouble> {
    let bytes = whole(rt)?;
    match str::from_utf8(bytes.as_slice()) {
        Ok(text) => said(rt.alloc(), text),
        Err(_) => Err(Trouble::BadInput),
    }
}

fn main(rt: HostRuntime) -> ExitCode {
    let counted = count(&rt);
    let mut out = rt.stdout();
    let is_written = match &counted {
        Ok(said) => writeln!(out, "{said}").is_ok(),
        Err(trouble) => writeln!(out, "{trouble}").is_ok(),
    };
    if is_written && counted.is_ok() {
        ExitCode::SUCCESS
    } else {
        ExitCode::FAILURE
    }
}
