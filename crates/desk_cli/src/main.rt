//! The desk's program: reads its command line, and does what it says.
#![tactic(auto)]

#[cfg(test)]
mod tests;

use desk_commands::{ExitStatus, JobFault, JobRefusal, code, job, refuse, show};
use desk_process::{hold_streams, work};
use std::process::ExitCode;
use std::{env, io};

fn words(rt: &HostRuntime) -> Result<Vec<String>, JobRefusal> {
    match env::args(rt) {
        Ok(words) => Ok(words.collect(rt.alloc())?),
        Err(error) if error.kind() == io::ErrorKind::OutOfMemory => Err(JobRefusal::NoMemory),
        Err(_) => Err(JobRefusal::BadWord),
    }
}

/// How the program ends where the command line says nothing to do.
fn idle(rt: &HostRuntime, fault: JobFault) -> Result<ExitStatus, JobRefusal> {
    match fault {
        JobFault::BadWord => Err(JobRefusal::BadWord),
        JobFault::NoMemory => Err(JobRefusal::NoMemory),
        JobFault::Usage(error) => Ok(show(rt, &error)),
    }
}

fn outcome(rt: &HostRuntime) -> Result<ExitStatus, JobRefusal> {
    match job(rt.alloc(), words(rt)?) {
        Ok(job) => Ok(work(rt, &job)),
        Err(fault) => idle(rt, fault),
    }
}

fn main(rt: HostRuntime) -> ExitCode {
    hold_streams(&rt);
    let status = match outcome(&rt) {
        Ok(status) => status,
        Err(refusal) => refuse(refusal, &mut rt.stderr()).0,
    };
    ExitCode::from(code(status))
}
