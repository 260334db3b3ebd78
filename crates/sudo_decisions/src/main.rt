//! Asks both functions that decide about the policies on the standard input: `decide` of
//! `sudo_decide`, which follows each alias where it meets it, and `Compiled::decide` of
//! `sudo_compiled`, for which all aliases are written out first.
//!
//! The input has a policy's lines, then a line `? USER HOST TARGET MOMENT PATH [ARGUMENT ..]` for
//! each invocation that is asked about, and `%%` before the next policy. Each decision is a line of
//! the output, which begins with `OTHERWISE` if the two functions differ. The program fails if they
//! differ, or if `print_policy` and `print_owned` differ for a policy that was asked about.
#![tactic(auto)]

mod asking;
mod trouble;

use crate::asking::Asking;
use crate::trouble::Trouble;
use std::alloc::Global;
use std::fmt::Write as _;
use std::io::{BufReader, Read, Write};
use std::process::ExitCode;
use std::str;

/// All of the standard input.
fn whole(rt: &HostRuntime) -> Result<Vec<u8>, Trouble> {
    let Ok(mut input) = BufReader::new(rt.alloc(), rt.stdin()) else {
        return Err(Trouble::NoMemory);
    };
    let mut bytes = Vec::new(rt.alloc());
    match input.read_to_end(&mut bytes) {
        Ok(_) => Ok(bytes),
        Err(_) => Err(Trouble::BadInput),
    }
}

/// Adds the answer to each question, and then how many questions were asked and how many times two
/// functions differed. Returns whether they never did.
fn say_all(alloc: Global, said: &mut String, input: &[u8]) -> Result<bool, Trouble> {
    let Ok(text) = str::from_utf8(input) else {
        return Err(Trouble::BadInput);
    };
    let mut asking = Asking::new(alloc);
    for line in text.split('\n') {
        asking.take(alloc, said, line)?;
    }
    asking.end(alloc, said)?;
    let (asked, otherwise) = (asking.asked, asking.otherwise);
    drop(asking);
    write!(said, "{asked} asked, {otherwise} otherwise\n")?;
    Ok(otherwise == 0)
}

/// Reads the input, and adds the answers and their counts, as `say_all` does.
fn say(rt: &HostRuntime, said: &mut String) -> Result<bool, Trouble> {
    let input = whole(rt)?;
    say_all(rt.alloc(), said, &input)
}

fn main(rt: HostRuntime) -> ExitCode {
    let mut said = String::new(rt.alloc());
    let done = say(&rt, &mut said);
    let mut out = rt.stdout();
    let is_written = match &done {
        Ok(_) => out.write_all(said.as_bytes()).is_ok() && out.flush().is_ok(),
        Err(trouble) => writeln!(out, "{trouble}").is_ok(),
    };
    drop(said);
    if is_written && matches!(done, Ok(true)) {
        ExitCode::SUCCESS
    } else {
        ExitCode::FAILURE
    }
}
