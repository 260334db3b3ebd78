//! Files that are missing, and inputs and outputs that fail in the middle or at their end.

use desk::MemoryKeeper;
use desk_commands::{Job, Places, Store, Sync, Text, code, finish, run};
use std::alloc::Global;
use std::io::{BufWriter, Read, Write};
use std::test::Fail;
use std::{io, str};
use sudo_words::HostName;

/// A reader with so many bytes, which then fails, or ends where there are no more.
#[derive(Drop)]
struct Input<'a> {
    bytes: &'a [u8],
    fails: bool,
}

impl<'a> Read for Input<'a> {
    fn read(&mut self, buf: &mut [u8]) -> io::Result<usize> {
        if self.fails && self.bytes.is_empty() {
            return Err(io::Error::from(io::ErrorKind::BrokenPipe));
        }
        self.bytes.read(buf)
    }
}

/// A writer with room for so many bytes, whose flush may fail.
#[derive(Drop)]
struct Output {
    bytes: Vec<u8>,
    room: usize,
    flushes: bool,
}

impl Write for Output {
    fn write(&mut self, buf: &[u8]) -> io::Result<usize> {
        let n = self.room.min(buf.len());
        if n == 0 && !buf.is_empty() {
            return Err(io::Error::from(io::ErrorKind::BrokenPipe));
        }
        self.room -= n;
        self.bytes.write(&buf[..n])
    }

    fn flush(&mut self) -> io::Result<()> {
        if self.flushes {
            Ok(())
        } else {
            Err(io::Error::from(io::ErrorKind::BrokenPipe))
        }
    }
}

/// What goes wrong.
#[derive(Clone, Copy)]
enum Wrong {
    Nothing,
    NoFile,
    InputAfter(usize),
    OutputAfter(usize),
    OutputsFlush,
    ErrorAfter(usize),
    ErrorsFlush,
}

const BASE: &str = "bob db1 = ALL\n";

const ROSTER: &str =
    "relays = [\"web\"]\nhosts = [\"db1\"]\nduties = []\nconflicts = []\n[people]\n[ceilings]\n";

/// A line, and the beginning of another.
const GIVEN: &str = "{}\n{\"at\"";

fn input_of(wrong: Wrong) -> Input<'static> {
    match wrong {
        Wrong::InputAfter(room) => Input {
            bytes: &GIVEN.as_bytes()[..room.min(GIVEN.len())],
            fails: true,
        },
        _ => Input {
            bytes: GIVEN.as_bytes(),
            fails: false,
        },
    }
}

fn output_of(alloc: Global, wrong: Wrong) -> Output {
    Output {
        bytes: Vec::new(alloc),
        room: match wrong {
            Wrong::OutputAfter(room) => room,
            _ => usize::MAX,
        },
        flushes: !matches!(wrong, Wrong::OutputsFlush),
    }
}

fn error_of(alloc: Global, wrong: Wrong) -> Output {
    Output {
        bytes: Vec::new(alloc),
        room: match wrong {
            Wrong::ErrorAfter(room) => room,
            _ => usize::MAX,
        },
        flushes: !matches!(wrong, Wrong::ErrorsFlush),
    }
}

fn files_of(alloc: Global, texts: &[&str], wrong: Wrong) -> Result<Vec<Vec<u8>>, Fail> {
    let mut files = Vec::new(alloc);
    for text in texts {
        files.push(Vec::from_slice(alloc, text.as_bytes())?)?;
    }
    if matches!(wrong, Wrong::NoFile) {
        let _ = files.pop();
    }
    Ok(files)
}

fn places(alloc: Global) -> Result<Places, Fail> {
    Ok(Places {
        roster: Text::copy(alloc, "roster.toml")?,
        base: Text::copy(alloc, "base.sudo")?,
        store: Store::Memory,
        sync: Sync::Once,
    })
}

/// The exit status, what is on the output, and what is on the standard error.
fn ended(alloc: Global, job: &Job, texts: &[&str], wrong: Wrong) -> Result<String, Fail> {
    let mut files = files_of(alloc, texts, wrong)?;
    let mut input = input_of(wrong);
    let mut out = BufWriter::new(alloc, output_of(alloc, wrong))?;
    let mut err = error_of(alloc, wrong);
    let (status, _keeper) = run(
        alloc,
        job,
        files.as_mut_slice(),
        MemoryKeeper::new(alloc),
        &mut input,
        &mut out,
        &mut err,
    );
    let status = code(finish(status, &mut out, &mut err));
    let shown = shown(alloc, status, &out.get_ref().bytes, &err.bytes);
    drop(files);
    drop(out);
    drop(err);
    shown
}

/// A status and two texts, with marks between.
fn shown(alloc: Global, status: u8, out: &[u8], err: &[u8]) -> Result<String, Fail> {
    let (written, said) = (str::from_utf8(out)?, str::from_utf8(err)?);
    Ok(format!(in alloc; "{status}|{written}|{said}.")?)
}

/// The same for each thing that goes wrong, one after the other.
fn all_ended(alloc: Global, job: &Job, texts: &[&str], wrongs: &[Wrong]) -> Result<String, Fail> {
    let mut said = String::new(alloc);
    for wrong in wrongs {
        said.push_str(ended(alloc, job, texts, *wrong)?.as_str())?;
    }
    Ok(said)
}

#[test]
fn checks_that_fail(rt: HostRuntime) -> Result<(), Fail> {
    let check = Job::Check {
        file: Text::copy(rt.alloc(), "base.sudo")?,
    };
    let wrongs = [
        Wrong::Nothing,
        Wrong::NoFile,
        Wrong::OutputAfter(0),
        Wrong::OutputAfter(3),
        Wrong::OutputsFlush,
    ];
    let said = all_ended(rt.alloc(), &check, &[BASE], &wrongs);
    drop(check);
    assert_eq!(rt;
        said?.as_str(),
        "0|bob db1 = (root) ALL\n|.2||F1 FileFailed\n.2||F1 FileFailed\n.2|bob|F1 FileFailed\n.2|bob db1 = (root) ALL\n|F1 FileFailed\n."
    );
    Ok(())
}

#[test]
fn prints_that_fail(rt: HostRuntime) -> Result<(), Fail> {
    let print = Job::Print {
        places: places(rt.alloc())?,
        host: HostName::read(rt.alloc(), "db1")?,
        after: None,
    };
    // the input after its line, and in the middle of the next
    let wrongs = [
        Wrong::NoFile,
        Wrong::InputAfter(3),
        Wrong::InputAfter(8),
        Wrong::ErrorAfter(3),
        Wrong::ErrorsFlush,
    ];
    let said = all_ended(rt.alloc(), &print, &[ROSTER, BASE], &wrongs);
    drop(print);
    assert_eq!(rt;
        said?.as_str(),
        "2||F1 FileFailed\n.2||F1 FileFailed\n.2||F1 FileFailed\n.2||lin.2||line 1: M3 BadField\nline 2: M2 NotCanonical\nF1 FileFailed\n."
    );
    Ok(())
}

#[test]
fn deliveries_that_fail(rt: HostRuntime) -> Result<(), Fail> {
    let deliver = Job::Deliver {
        places: places(rt.alloc())?,
        relay: Text::copy(rt.alloc(), "web")?,
    };
    let wrongs = [
        Wrong::Nothing,
        Wrong::NoFile,
        Wrong::InputAfter(3),
        Wrong::OutputAfter(5),
        Wrong::OutputsFlush,
    ];
    let said = all_ended(rt.alloc(), &deliver, &[ROSTER, BASE], &wrongs);
    drop(deliver);
    assert_eq!(rt;
        said?.as_str(),
        "2|M3 BadField\nM2 NotCanonical\n|.2||F1 FileFailed\n.2||F1 FileFailed\n.2|M3 Ba|F1 FileFailed\n.2|M3 BadField\nM2 NotCanonical\n|F1 FileFailed\n."
    );
    Ok(())
}
