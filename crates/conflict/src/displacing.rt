ghost use Rattle.std.specs.Prelude.{◌≡◌};
ghost use Rattle.job_protocol.specs.Conflicts.{checks_partitions, displaced};

use job_model::Displaced;
use s3_types::{Committer, Mode};

/// Returns which of the files that existed at a destination before the job its mode deletes. Takes
/// no memory.
pub fn displaced(committer: Committer, mode: Mode) -> Displaced
    ensures { result ≡ displaced committer mode }
{
    match (committer, mode) {
        (Committer::Directory, Mode::Replace) => Displaced::Everything,
        (Committer::Partitioned, Mode::Replace) => Displaced::Partitions,
        _ => Displaced::Nothing,
    }
}

/// Returns whether a job's mode fails if there are files in the partitions that the job writes.
/// Takes no memory.
pub fn checks_partitions(committer: Committer, mode: Mode) -> bool
    ensures { result ≡ checks_partitions committer mode }
{
    match (committer, mode) {
        (Committer::Partitioned, Mode::Fail) => true,
        _ => false,
    }
}
