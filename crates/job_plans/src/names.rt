ghost use Rattle.std.specs.Prelude.{◌≡◌, ◌++◌, ◌∷◌, IfOk, string_bytes};
ghost use Rattle.job_model.specs.Placed.{with_id, unique_name};

use s3_types::{Text, let_go};
use std::alloc::{AllocError, Global};

/// The name with `-` and the job's id before its first dot, or at its end.
fn named(alloc: Global, name: &str, job: &str) -> Result<String, AllocError>
    ensures { IfOk result (λ text. string_bytes text ≡ with_id job.now name.now) }
{
    match name.split_once('.') {
        Some((stem, ending)) => format!(in alloc; "{stem}-{job}.{ending}"),
        None => format!(in alloc; "{name}-{job}"),
    }
}

/// The path of such a name in a directory.
fn named_below(alloc: Global, dir: &str, name: &str, job: &str) -> Result<String, AllocError>
    ensures { IfOk result (λ text. string_bytes text ≡ dir.now ++ 47 ∷ with_id job.now name.now) }
{
    let name = named(alloc, name, job)?;
    let text = format!(in alloc; "{dir}/{name}");
    let_go(name);
    text
}

fn unique_text(alloc: Global, path: &str, job: &str) -> Result<String, AllocError>
    ensures { IfOk result (λ text. string_bytes text ≡ unique_name path.now job.now) }
{
    match path.rsplit_once('/') {
        Some((dir, name)) => named_below(alloc, dir, name, job),
        None => named(alloc, path, job),
    }
}

/// The path of a file, made unique to a job: `-` and the job's id come before the first dot of its
/// last element, or at its end, even if the path has the id already. (Hadoop, S3A committers,
/// fs.s3a.committer.staging.unique-filenames.)
pub fn unique_name(alloc: Global, path: &str, job: &str) -> Result<Text, AllocError>
    ensures { IfOk result (λ text. text ≡ unique_name path.now job.now) }
{
    Text::new(alloc, unique_text(alloc, path, job)?)
}
