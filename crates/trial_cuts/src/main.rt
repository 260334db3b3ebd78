//! Cuts the history on the standard input: its first line is a moment, and each other line is a
//! message's text. It prints the messages that stay, a line `%%`, and those of the archive.
#![tactic(auto)]

mod trouble;

use crate::trouble::Trouble;
use archive::cut;
use messages::{Message, read_message, text};
use std::alloc::Global;
use std::io::{BufReader, Read, Write};
use std::process::ExitCode;
use std::str;
use sudo_words::Moment;

/// All of the standard input.
fn whole(rt: &HostRuntime) -> Result<Vec<u8>, Trouble> {
    let Ok(mut input) = BufReader::new(rt.alloc(), rt.stdin()) else {
        return Err(Trouble::NoMemory);
    };
    let mut bytes = Vec::new(rt.alloc());
    match input.read_to_end(&mut bytes) {
        Ok(_) => Ok(bytes),
        Err(_) => Err(Trouble::BadInput),
    }
}

/// The messages of the lines that are not empty.
fn messages_of(alloc: Global, lines: &str) -> Result<Vec<Message>, Trouble> {
    let mut messages = Vec::new(alloc);
    for line in lines.split('\n') {
        if !line.is_empty() {
            messages.push(read_message(alloc, line.as_bytes())?)?;
        }
    }
    Ok(messages)
}

/// Adds the messages' texts, each as a line.
fn add_lines(alloc: Global, said: &mut String, messages: &[Message]) -> Result<(), Trouble> {
    for message in messages {
        said.push_str(text(alloc, message)?.as_str())?;
        said.push_str("\n")?;
    }
    Ok(())
}

/// Cuts the input, and adds what stays and what does not.
fn say_all(alloc: Global, said: &mut String, input: &[u8]) -> Result<(), Trouble> {
    let Ok(input) = str::from_utf8(input) else {
        return Err(Trouble::BadInput);
    };
    let Some((first, lines)) = input.split_once('\n') else {
        return Err(Trouble::BadInput);
    };
    let Some(moment) = Moment::read_stamp(first) else {
        return Err(Trouble::BadInput);
    };
    let cut = cut(alloc, messages_of(alloc, lines)?, moment)?;
    add_lines(alloc, said, &cut.kept)?;
    said.push_str("%%\n")?;
    add_lines(alloc, said, &cut.archived)
}

/// Reads the input, and adds what the program prints.
fn say(rt: &HostRuntime, said: &mut String) -> Result<(), Trouble> {
    let input = whole(rt)?;
    say_all(rt.alloc(), said, &input)
}

fn main(rt: HostRuntime) -> ExitCode {
    let mut said = String::new(rt.alloc());
    let done = say(&rt, &mut said);
    let mut out = rt.stdout();
    let is_written = match &done {
        Ok(()) => out.write_all(said.as_bytes()).is_ok() && out.flush().is_ok(),
        Err(trouble) => writeln!(out, "{trouble}").is_ok(),
    };
    drop(said);
    if is_written && done.is_ok() {
        ExitCode::SUCCESS
    } else {
        ExitCode::FAILURE
    }
}
