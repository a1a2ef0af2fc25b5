ghost use Rattle.std.specs.Prelude.{◌≡◌, ◌++◌, map, length, IfOk, OnOk};
ghost use Rattle.job_model.specs.Placed.{placed};
ghost use Rattle.job_protocol.specs.Conflicts.{partitions};
ghost use Rattle.job_protocol.specs.Outputs.{paths_of};
ghost use Rattle.job_protocol.specs.Rechecks.{files_of_all};
ghost use Rattle.job_plans.specs.Reported.{those};

use crate::files::path_of;
use crate::plans::attempt_at;
use conflict::partitions;
use job_model::{FileList, Script};
use s3_types::{Sequence, Text, TextList, let_go};
use std::alloc::{AllocError, Global};

/// Appends the paths of files below the destination.
fn add_paths(
    alloc: Global,
    unique: bool,
    job: &Text,
    files: &FileList,
    paths: &mut TextList,
) -> Result<(), AllocError>
    ensures { OnOk result (paths.new ≡ paths.old ++ map (λ f. f.0) (placed unique job.now files.now)) }
{
    for (path, _) in files.held() {
        let Ok(path) = path_of(alloc, unique, job, path) else {
            return Err(AllocError);
        };
        paths.push(path)?;
    }
    Ok(())
}

/// The paths below the destination of the files of the reported attempts, attempt by attempt.
fn reported_paths(alloc: Global, script: &Script, reported: &[bool]) -> Result<TextList, AllocError>
    requires { length reported.now ≡ length script.now.attempts }
    ensures { IfOk result (λ paths. paths ≡ map (λ f. f.0) (files_of_all script.now (those script.now.attempts reported.now))) }
{
    let mut paths = Sequence::new(alloc);
    for (place, is_reported) in reported.iter().enumerate() {
        if *is_reported {
            let (_, files) = attempt_at(&script.attempts, place);
            let Ok(()) = add_paths(alloc, script.unique, &script.job, files, &mut paths) else {
                let_go(paths);
                return Err(AllocError);
            };
        }
    }
    Ok(paths)
}

/// The partitions of the files of the reported attempts: the directories of the files' paths below
/// the destination, each once, rising by their bytes. `reported` tells for each attempt, by its
/// place in the script, whether it is reported. The paths are made unique to the job if the script
/// says so. Fails with AllocError only if memory runs out. Takes O(a + f log f) for a attempts and
/// f files.
pub fn reported_partitions(
    alloc: Global,
    script: &Script,
    reported: &[bool],
) -> Result<TextList, AllocError>
    requires { length reported.now ≡ length script.now.attempts }
    ensures { IfOk result (λ dirs. dirs ≡ partitions (paths_of (files_of_all script.now (those script.now.attempts reported.now)))) }
{
    let paths = reported_paths(alloc, script, reported)?;
    let dirs = partitions(alloc, paths.as_slice());
    let_go(paths);
    dirs
}
