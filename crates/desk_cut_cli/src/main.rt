//! The program that cuts a desk's history: reads its command line, and begins a store with what
//! stays of another one's messages.
#![tactic(auto)]

mod clock;
mod cutting;
mod help;
mod order;
mod part;
mod trouble;

use crate::cutting::cut_store;
use crate::help::usage;
use crate::order::{Order, ordered_by};
use crate::trouble::Trouble;
use desk_process::hold_streams;
use std::io::Write;
use std::process::ExitCode;
use std::{env, io};

/// The exit status of a cut that was not made.
const REFUSED: u8 = 2;

/// The words on the command line after the program's own name.
fn words(rt: &HostRuntime) -> Result<Vec<String>, Trouble> {
    match env::args(rt) {
        Ok(mut words) => {
            let _name = words.next();
            Ok(words.collect(rt.alloc())?)
        }
        Err(error) if error.kind() == io::ErrorKind::OutOfMemory => Err(Trouble::NoMemory),
        Err(_) => Err(Trouble::BadWord),
    }
}

/// Does what the words say. The answer is what the program prints.
fn said(rt: &HostRuntime) -> Result<String, Trouble> {
    match ordered_by(rt.alloc(), words(rt)?.as_slice())? {
        Order::Help => Ok(String::from_str(rt.alloc(), usage())?),
        Order::Cut(places) => {
            let counts = cut_store(rt, &places)?;
            Ok(format!(in rt.alloc(); "{counts}\n")?)
        }
    }
}

/// Writes the text to the standard output. A cut that was made stays made where this fails, so
/// nothing is said of that.
fn write_out(rt: &HostRuntime, text: &str) {
    let mut out = rt.stdout();
    let _ = out.write_all(text.as_bytes());
    let _ = out.flush();
}

fn main(rt: HostRuntime) -> ExitCode {
    hold_streams(&rt);
    match said(&rt) {
        Ok(text) => {
            write_out(&rt, text.as_str());
            ExitCode::SUCCESS
        }
        Err(trouble) => {
            let mut err = rt.stderr();
            let _ = writeln!(err, "{trouble}");
            let _ = err.flush();
            ExitCode::from(REFUSED)
        }
    }
}
