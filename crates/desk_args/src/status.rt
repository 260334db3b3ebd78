//! How a job ends.

ghost use Rattle.std.specs.Prelude.{◌≡◌};
ghost use Rattle.desk_args.specs.Ends.{exit_status};

/// How a job ends.
#[derive(Clone, Copy, Debug, PartialEq, Eq)]
pub enum ExitStatus {
    /// The job is done; if it was to decide, the command is allowed.
    Done,
    /// The job is done: the command is denied.
    Denied,
    /// The job is done: the first policy allows something that the second refuses.
    Found,
    /// The job is done: lines of the input are refused, and the answer says why.
    LinesRefused,
    /// The job is refused, and the standard error says why.
    Refused,
}

/// The exit status of the program.
pub fn code(status: ExitStatus) -> u8
    ensures { result ≡ exit_status status }
{
    match status {
        ExitStatus::Done => 0,
        ExitStatus::Denied => 1,
        ExitStatus::Found => 1,
        ExitStatus::LinesRefused => 2,
        ExitStatus::Refused => 2,
    }
}
