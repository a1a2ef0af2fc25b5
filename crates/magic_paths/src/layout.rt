ghost use Rattle.std.specs.Prelude.{◌≡◌, ◌≤◌, ◌++◌, true, IfOk, length, codes};
ghost use Rattle.s3_types.specs.Names.{are_elements, is_job_id};
ghost use Rattle.path_keys.specs.Paths.{below};
ghost use Rattle.magic_paths.specs.Layout as keys;
ghost use Rattle.s3_types.specs.declared.limits.TheConstants.{MOST_KEY_BYTES};

use crate::texts::{
    attempt_text, cluster_text, prefix_text, set_text, staged_set_text, success_text,
    temporary_text,
};
use path_keys::S3Path;
use s3_types::{Key, Text};
use std::alloc::{AllocError, Global};

/// Returns the directory below which a task attempt writes its files:
/// `DEST/__magic/job-ID/tasks/T_A/__base`. A destination's key has 1 to 400 bytes, and a job's id
/// 1 to 64 letters, digits, `_` and `-`.
pub fn attempt_dir(
    alloc: Global,
    dest: &S3Path,
    job: &Text,
    task: u32,
    attempt: u32,
) -> Result<S3Path, AllocError>
    requires some { 1 ≤ length dest.now.key }
    requires most { length dest.now.key ≤ 400 }
    requires id { is_job_id job.now ≡ true }
    ensures { IfOk result (λ p. p ≡ record {
      bucket = dest.now.bucket;
      key = keys.attempt_key dest.now.key job.now task attempt;
    }) }
{
    let text = attempt_text(alloc, dest.key().as_str(), job.as_str(), task, attempt)?;
    let key = Text::new(alloc, text)?;
    Ok(S3Path::new(dest.bucket().clone()?, key))
}

/// Returns the key of a committed task's set of pending uploads:
/// `DEST/__magic/job-ID/sets/task_T.pendingset`. A destination's key has 1 to 400 bytes, and a
/// job's id 1 to 64 letters, digits, `_` and `-`.
pub fn set_key(alloc: Global, dest: &S3Path, job: &Text, task: u32) -> Result<Key, AllocError>
    requires some { 1 ≤ length dest.now.key }
    requires most { length dest.now.key ≤ 400 }
    requires id { is_job_id job.now ≡ true }
    ensures { IfOk result (λ k. k ≡ keys.set_key dest.now.key job.now task) }
{
    let text = set_text(alloc, dest.key().as_str(), job.as_str(), task)?;
    Ok(Key::new(Text::new(alloc, text)?))
}

/// Returns the key of the marker of a committed job: `DEST/_SUCCESS`. A destination's key has 1 to
/// 400 bytes.
pub fn success_key(alloc: Global, dest: &S3Path) -> Result<Key, AllocError>
    requires some { 1 ≤ length dest.now.key }
    requires most { length dest.now.key ≤ 400 }
    ensures { IfOk result (λ k. k ≡ keys.success_key dest.now.key) }
{
    let text = success_text(alloc, dest.key().as_str())?;
    Ok(Key::new(Text::new(alloc, text)?))
}

/// Returns the prefix of all keys below a destination: its key and a `/`.
pub fn dest_prefix(alloc: Global, dest: &S3Path) -> Result<Text, AllocError>
    ensures { IfOk result (λ prefix. prefix ≡ dest.now.key ++ codes "/") }
{
    let key = dest.key().as_str();
    Text::new(alloc, format!(in alloc; "{key}/")?)
}

/// Returns the prefix of all keys below a job's magic directory: `DEST/__magic/job-ID/`.
pub fn magic_prefix(alloc: Global, dest: &S3Path, job: &Text) -> Result<Text, AllocError>
    ensures { IfOk result (λ t. t ≡ keys.magic_prefix dest.now.key job.now) }
{
    let text = prefix_text(alloc, dest.key().as_str(), job.as_str())?;
    Text::new(alloc, text)
}

/// Returns the prefix of all paths of a staging job in the cluster's file system: `jobs/ID/`.
pub fn cluster_prefix(alloc: Global, job: &Text) -> Result<Text, AllocError>
    ensures { IfOk result (λ t. t ≡ keys.cluster_prefix job.now) }
{
    let text = cluster_text(alloc, job.as_str())?;
    Text::new(alloc, text)
}

/// Returns the path of the temporary file into which a staging attempt puts its set, in the
/// cluster's file system: `jobs/ID/tmp/T_A.pendingset`.
pub fn temporary_path(
    alloc: Global,
    job: &Text,
    task: u32,
    attempt: u32,
) -> Result<Text, AllocError>
    ensures { IfOk result (λ t. t ≡ keys.temporary_path job.now task attempt) }
{
    let text = temporary_text(alloc, job.as_str(), task, attempt)?;
    Text::new(alloc, text)
}

/// Returns the path of a committed task's set, for a staging job, in the cluster's file system:
/// `jobs/ID/sets/task_T.pendingset`.
pub fn staged_set_path(alloc: Global, job: &Text, task: u32) -> Result<Text, AllocError>
    ensures { IfOk result (λ t. t ≡ keys.staged_set_path job.now task) }
{
    let text = staged_set_text(alloc, job.as_str(), task)?;
    Text::new(alloc, text)
}

/// Returns the key of a file with this path below a directory: the directory's key, a `/`, and the
/// path; at a bucket's root, the path alone.
pub fn file_key(alloc: Global, dir: &S3Path, path: &Text) -> Result<Key, AllocError>
    requires elements { are_elements path.now ≡ true }
    requires most { length (below dir.now.key path.now) ≤ MOST_KEY_BYTES }
    ensures { IfOk result (λ k. k ≡ below dir.now.key path.now) }
{
    let text = dir.text_below(alloc, path.as_str())?;
    Ok(Key::new(Text::new(alloc, text)?))
}
