//! The auditor's program: reads its command line, and tells what became of each request that a desk
//! holds.
#![tactic(auto)]

mod archives;
mod asking;
mod help;
mod known;
mod places;
mod sources;
mod trouble;

use crate::asking::told;
use crate::help::usage;
use crate::places::apart;
use crate::trouble::Trouble;
use desk_audit::{WordsFault, asked_by};
use desk_process::hold_streams;
use std::io::{BufWriter, Write};
use std::process::ExitCode;
use std::{env, io};

/// The exit status of a question that has no answer.
const REFUSED: u8 = 2;

/// The words on the command line after the program's own name.
fn words(rt: &HostRuntime) -> Result<Vec<String>, WordsFault> {
    match env::args(rt) {
        Ok(mut words) => {
            let _name = words.next();
            Ok(words.collect(rt.alloc())?)
        }
        Err(error) if error.kind() == io::ErrorKind::OutOfMemory => Err(WordsFault::NoMemory),
        Err(_) => Err(WordsFault::BadWord),
    }
}

/// Writes the whole text to the standard output.
fn write_out(rt: &HostRuntime, text: &str) -> Result<(), Trouble> {
    let Ok(mut out) = BufWriter::new(rt.alloc(), rt.stdout()) else {
        return Err(Trouble::NoMemory);
    };
    let mut written = out.write_all(text.as_bytes());
    if written.is_ok() {
        written = out.flush();
    }
    match written {
        Ok(()) => Ok(()),
        Err(error) => Err(Trouble::of_system(rt.alloc(), "standard output", error)),
    }
}

/// Does what the words say.
fn answered(rt: &HostRuntime) -> Result<(), Trouble> {
    let (words, archives) = apart(rt.alloc(), words(rt)?)?;
    match asked_by(rt.alloc(), words.as_slice()) {
        Ok(question) => write_out(rt, told(rt, &question, archives.as_slice())?.as_str()),
        Err(WordsFault::Help) => write_out(rt, usage()),
        Err(fault) => Err(fault.into()),
    }
}

fn main(rt: HostRuntime) -> ExitCode {
    hold_streams(&rt);
    match answered(&rt) {
        Ok(()) => ExitCode::SUCCESS,
        Err(trouble) => {
            let mut err = rt.stderr();
            let _ = writeln!(err, "{trouble}");
            let _ = err.flush();
            ExitCode::from(REFUSED)
        }
    }
}
