ghost use Rattle.std.specs.Prelude.{◌≡◌, string_bytes, IfOk};
ghost use Rattle.job_gen.specs.Summary.{shown_bytes, summary};

use crate::counting::picked_bytes;
use job_model::{PickList, Script};
use std::alloc::{AllocError, Global};

/// The number of bytes that the job's commit has published: those of the files of the chosen
/// attempts, or 0 if the status is not 0.
fn shown_bytes(due: u8, picks: &PickList, script: &Script) -> u128
    ensures { result ≡ shown_bytes due picks.now script.now }
{
    if due == 0 {
        picked_bytes(script, picks.as_slice())
    } else {
        0
    }
}

/// Returns the line `tasks T files F bytes B sent N status S` with its LF, for a job of `tasks`
/// tasks with `files` files each. F is the number of all files. B is the number of bytes of the
/// chosen attempts' files, or 0 if the status is not 0. N is the number of sends, and S the status.
/// Fails with AllocError only if memory runs out.
pub fn summary_text(
    alloc: Global,
    tasks: u32,
    files: u32,
    due: u8,
    sent: usize,
    picks: &PickList,
    script: &Script,
) -> Result<String, AllocError>
    ensures { IfOk result (λ text. string_bytes text ≡ summary tasks files due sent picks.now script.now) }
{
    let all = u64::from(tasks) * u64::from(files);
    let bytes = shown_bytes(due, picks, script);
    format!(in alloc; "tasks {tasks} files {all} bytes {bytes} sent {sent} status {due}\n")
}
