ghost use Rattle.std.specs.Prelude.{◌≡◌, [], true, IfOk};
ghost use Rattle.s3_types.specs.Names.{is_job_id};
ghost use Rattle.job_model.specs.Legal.{AreFiles};
ghost use Rattle.job_model.specs.Placed as places;

use crate::names::unique_name;
use job_model::FileList;
use s3_types::{Text, both, let_go};
use std::alloc::{AllocError, Global};

/// The path of a file below the destination: made unique to the job, or as the script writes it. In
/// the second case it shares the script's memory.
pub fn path_of(alloc: Global, unique: bool, job: &Text, path: &Text) -> Result<Text, AllocError>
    ensures { IfOk result (λ text. text ≡ places.path_of unique job.now path.now) }
{
    if unique {
        unique_name(alloc, path.as_str(), job.as_str())
    } else {
        path.clone()
    }
}

/// The files at their paths below the destination. Their contents share the script's memory.
pub fn placed(
    alloc: Global,
    unique: bool,
    job: &Text,
    files: &FileList,
) -> Result<FileList, AllocError>
    requires id { is_job_id job.now ≡ true }
    requires files { AreFiles [] files.now }
    ensures { IfOk result (λ copy. copy ≡ places.placed unique job.now files.now) }
{
    let mut copy = FileList::new(alloc);
    for (path, bytes) in files.held() {
        let Ok((path, bytes)) = both(path_of(alloc, unique, job, path), bytes.clone()) else {
            let_go(copy);
            return Err(AllocError);
        };
        let Ok(()) = copy.add(path, bytes) else {
            let_go(copy);
            return Err(AllocError);
        };
    }
    Ok(copy)
}
