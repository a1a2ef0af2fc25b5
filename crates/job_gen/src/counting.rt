ghost use Rattle.std.specs.Prelude.{◌≡◌, ◌≤◌, sum_by};
ghost use Rattle.s3_types.specs.declared.limits.TheConstants.{MOST_SCRIPT_BYTES};
ghost use Rattle.job_model.specs.Legal.{bytes_of};
ghost use Rattle.job_gen.specs.Summary.{pick_bytes};

use job_model::{AttemptName, FileList, Pick, Script};
use s3_types::MOST_SCRIPT_BYTES;

/// The number of bytes of all these files.
fn file_bytes(files: &FileList) -> u64
    requires { bytes_of files.now ≤ MOST_SCRIPT_BYTES }
    ensures { result ≡ bytes_of files.now }
{
    let mut sum = 0u64;
    for (_, bytes) in files.held() {
        sum += bytes.as_slice().len() as u64;
    }
    sum
}

/// The number of bytes of all files of a chosen attempt.
fn pick_bytes(script: &Script, pick: Pick) -> u64
    ensures bytes { result ≡ pick_bytes script.now pick }
    ensures most { result ≤ MOST_SCRIPT_BYTES }
{
    let name = AttemptName {
        task: pick.task,
        attempt: pick.attempt,
    };
    match script.attempts.held().get(&name) {
        Some(files) => file_bytes(files),
        None => 0,
    }
}

/// The number of bytes of all files of the chosen attempts.
pub fn picked_bytes(script: &Script, picks: &[Pick]) -> u128
    ensures { result ≡ sum_by (pick_bytes script.now) picks.now }
{
    let mut sum = 0u128;
    for pick in picks {
        sum += u128::from(pick_bytes(script, *pick));
    }
    sum
}
