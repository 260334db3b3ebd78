//! Which files a job reads.

ghost use Rattle.std.specs.Prelude.{◌≡◌};
ghost use Rattle.desk_args.specs.Files.{listed, paths_of};

use crate::task::Job;
use crate::text::Text;

/// The paths of the files that a job reads.
#[derive(Clone, Copy)]
pub struct FilePaths<'j> {
    /// The policy's file, the first of two policies', or the roster's.
    pub first: &'j Text,
    /// The second policy's file, or the base's.
    pub second: Option<&'j Text>,
}

/// The paths of the files that the job reads, in the order of its words.
pub fn paths(job: &Job) -> FilePaths<'_>
    ensures { listed result ≡ paths_of job.now }
{
    match job {
        Job::Check { file } | Job::Decide { file, .. } => FilePaths {
            first: file,
            second: None,
        },
        Job::Beyond { a, b, .. } => FilePaths {
            first: a,
            second: Some(b),
        },
        Job::Deliver { places, .. }
        | Job::Print { places, .. }
        | Job::Review { places, .. }
        | Job::Rebuild { places }
        | Job::Serve { places, .. } => FilePaths {
            first: &places.roster,
            second: Some(&places.base),
        },
    }
}
