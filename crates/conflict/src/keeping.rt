ghost use Rattle.std.specs.Prelude.{◌≡◌, ◌++◌, ◌∷◌, []};
ghost use Rattle.s3_types.specs.Pages.{begins};
ghost use Rattle.job_protocol.specs.Conflicts.{is_below_any, keeps};

use crate::displacing::displaced;
use job_model::Displaced;
use s3_types::{Committer, Mode, Text};

/// Returns whether a path is below a directory.
fn is_below(dir: &[u8], path: &[u8]) -> bool
    ensures { result ≡ begins (dir.now ++ 47 ∷ []) path.now }
{
    match path.strip_prefix(dir) {
        Some(rest) => rest.starts_with(b"/"),
        None => false,
    }
}

fn is_below_any(dirs: &[Text], path: &[u8]) -> bool
    ensures { result ≡ is_below_any dirs.now path.now }
{
    dirs.iter().any(|dir| is_below(dir.as_bytes(), path))
}

/// Returns whether a file that existed at a path below the destination before the job stays, if the
/// job writes these partitions. Takes no memory.
pub fn keeps(committer: Committer, mode: Mode, partitions: &[Text], path: &[u8]) -> bool
    ensures { result ≡ keeps committer mode partitions.now path.now }
{
    match displaced(committer, mode) {
        Displaced::Nothing => true,
        Displaced::Everything => false,
        Displaced::Partitions => !is_below_any(partitions, path),
    }
}
