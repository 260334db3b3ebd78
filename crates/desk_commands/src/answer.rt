//! Answers of jobs.

use desk_args::ExitStatus;

/// What a job answers.
#[derive(Drop)]
pub struct Answer {
    /// What is written.
    pub text: String,
    /// How the job ends.
    pub status: ExitStatus,
}
