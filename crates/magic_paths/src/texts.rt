ghost use Rattle.std.specs.Prelude.{◌≡◌, ◌++◌, [], IfOk, string_bytes};
ghost use Rattle.magic_paths.specs.Layout as keys;

use std::alloc::{AllocError, Global};

/// The most bytes beside a destination and a job's id in the keys that are made again and again:
/// two numbers, and the pieces between them.
const MOST_BETWEEN: usize = 48;

/// Returns an empty text with room for such a key, so that making it takes one allocation.
fn with_room(alloc: Global, dest: &str, job: &str) -> Result<String, AllocError>
    ensures { IfOk result (λ text. string_bytes text ≡ []) }
{
    let named = dest.len().saturating_add(job.len());
    String::with_capacity(alloc, named.saturating_add(MOST_BETWEEN))
}

/// Returns the directory below which an attempt of the magic committer writes.
pub fn attempt_text(
    alloc: Global,
    dest: &str,
    job: &str,
    task: u32,
    attempt: u32,
) -> Result<String, AllocError>
    ensures { IfOk result (λ text. string_bytes text ≡ keys.attempt_key dest.now job.now task attempt) }
{
    let mut text = with_room(alloc, dest, job)?;
    text.push_str(dest)?;
    write!(text, "/__magic/job-{job}/tasks/{task}_{attempt}/__base")?;
    Ok(text)
}

/// Returns the key of a task's set.
pub fn set_text(alloc: Global, dest: &str, job: &str, task: u32) -> Result<String, AllocError>
    ensures { IfOk result (λ text. string_bytes text ≡ keys.set_key dest.now job.now task) }
{
    let mut text = with_room(alloc, dest, job)?;
    write!(text, "{dest}/__magic/job-{job}/sets/task_{task}.pendingset")?;
    Ok(text)
}

/// Returns the key of `_SUCCESS`.
pub fn success_text(alloc: Global, dest: &str) -> Result<String, AllocError>
    ensures { IfOk result (λ text. string_bytes text ≡ keys.success_key dest.now) }
{
    format!(in alloc; "{dest}/_SUCCESS")
}

/// Returns the prefix of all keys below the job's own magic directory.
pub fn prefix_text(alloc: Global, dest: &str, job: &str) -> Result<String, AllocError>
    ensures { IfOk result (λ text. string_bytes text ≡ keys.magic_prefix dest.now job.now) }
{
    format!(in alloc; "{dest}/__magic/job-{job}/")
}

/// Returns the prefix of all paths of the job in the cluster.
pub fn cluster_text(alloc: Global, job: &str) -> Result<String, AllocError>
    ensures { IfOk result (λ text. string_bytes text ≡ keys.cluster_prefix job.now) }
{
    format!(in alloc; "jobs/{job}/")
}

/// Returns the cluster path of an attempt's temporary file.
pub fn temporary_text(
    alloc: Global,
    job: &str,
    task: u32,
    attempt: u32,
) -> Result<String, AllocError>
    ensures { IfOk result (λ text. string_bytes text ≡ keys.temporary_path job.now task attempt) }
{
    format!(in alloc; "jobs/{job}/tmp/{task}_{attempt}.pendingset")
}

/// Returns the cluster path of a task's set.
pub fn staged_set_text(alloc: Global, job: &str, task: u32) -> Result<String, AllocError>
    ensures { IfOk result (λ text. string_bytes text ≡ keys.staged_set_path job.now task) }
{
    format!(in alloc; "jobs/{job}/sets/task_{task}.pendingset")
}

/// Returns the two texts, the second after the first.
pub fn final_text(alloc: Global, front: &str, kept: &str) -> Result<String, AllocError>
    ensures { IfOk result (λ text. string_bytes text ≡ front.now ++ kept.now) }
{
    format!(in alloc; "{front}{kept}")
}
