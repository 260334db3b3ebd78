//! Saying why the program refuses.

ghost use Rattle.std.specs.Prelude.{◌≡◌, IfOk, OnOk};
ghost use Rattle.std.specs.Fmt.InlineText.{inline_text};
ghost use Rattle.std.specs.Io.KnownBytes.{Appends};
ghost use Rattle.desk_commands.specs.Telling.{AppendsFront, refusal_line};

use crate::refusal::JobRefusal;
use desk_args::ExitStatus;
use std::fmt::{InlineText, Write as _};
use std::io::{ErrorKind, Write};
use std::{fmt, io};

/// The line of a refusal. The line takes no memory: a refusal may tell of want of memory.
fn line_of(refusal: JobRefusal) -> Result<InlineText<64>, fmt::Error>
    ensures { IfOk result (λ line. inline_text line ≡ refusal_line refusal) }
{
    let mut line = InlineText::new();
    writeln!(line, "{refusal}")?;
    Ok(line)
}

/// Writes the bytes on `err`, as far as `err` takes them. Where that fails, a beginning of the
/// bytes was written.
pub(crate) fn write_front<E: Write>(bytes: &[u8], err: &mut E) -> io::Result<()>
    ensures whole { OnOk result (Appends (E.contents err.old) (E.contents err.new) bytes.now) }
    ensures front { AppendsFront (E.contents err.old) (E.contents err.new) bytes.now }
{
    let mut done = 0;
    for _ in 0..u64::MAX {
        if done == bytes.len() {
            return Ok(());
        }
        match err.write(&bytes[done..]) {
            Ok(0) => return Err(io::Error::from(ErrorKind::WriteZero)),
            Ok(n) => done += n,
            Err(error) if error.kind() == ErrorKind::Interrupted => {}
            Err(error) => return Err(error),
        }
    }
    Err(io::Error::from(ErrorKind::Interrupted))
}

/// Writes the line of a refusal on `err`, as far as `err` takes the line.
fn say_line<E: Write>(refusal: JobRefusal, err: &mut E) -> io::Result<()>
    ensures whole { OnOk result
        (Appends (E.contents err.old) (E.contents err.new) (refusal_line refusal)) }
    ensures front { AppendsFront (E.contents err.old) (E.contents err.new) (refusal_line refusal) }
{
    let line = line_of(refusal)?;
    write_front(line.as_str().as_bytes(), err)?;
    err.flush()
}

/// Says on `err` why the program refuses: a line of the refusal's code and name. Answers the
/// status, and whether the line could be written.
///
/// Where the line could not be written, a beginning of it was written, and nothing else can be
/// done.
pub fn refuse<E: Write>(refusal: JobRefusal, err: &mut E) -> (ExitStatus, io::Result<()>)
    ensures status { result.0 ≡ ExitStatus.Refused }
    ensures told { OnOk result.1
        (Appends (E.contents err.old) (E.contents err.new) (refusal_line refusal)) }
    ensures front { AppendsFront (E.contents err.old) (E.contents err.new) (refusal_line refusal) }
{
    (ExitStatus::Refused, say_line(refusal, err))
}
