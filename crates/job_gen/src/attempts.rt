ghost use Rattle.std.specs.Prelude.{◌≡◌, ◌++◌, ◌∷◌, [], ◌≤◌, false, IfOk, OnOk};
ghost use Rattle.job_model.specs.Attempts.{declares};
ghost use Rattle.job_model.specs.Legal.{AreFiles};
ghost use Rattle.job_gen.specs.Made.{attempt_of, is_twice, attempts_of, made_attempts};

use crate::files::task_files;
use crate::numbers::Numbers;
use job_model::{AttemptName, Attempts, FileList};
use std::alloc::{AllocError, Global};

/// Declares one more attempt with these files, whose paths and contents it shares.
fn declare_with(
    alloc: Global,
    attempts: &mut Attempts,
    name: AttemptName,
    files: &FileList,
) -> Result<(), AllocError>
    requires new { declares attempts.old name ≡ false }
    requires files { AreFiles [] files.now }
    ensures { OnOk result (attempts.new ≡ attempts.old ++ (name, files.now) ∷ []) }
{
    attempts.declare(alloc, name)?;
    for (path, bytes) in files.held() {
        attempts.add_file(path.clone()?, bytes.clone()?)?;
    }
    Ok(())
}

/// True if a task has a second attempt.
pub fn is_twice(task: u32) -> bool
    ensures { result ≡ is_twice task }
{
    task % 5 == 4
}

/// Declares the attempts of a task with these files, after those of other tasks.
fn declare_task(
    alloc: Global,
    attempts: &mut Attempts,
    task: u32,
    files: &FileList,
) -> Result<(), AllocError>
    requires first { declares attempts.old (attempt_of task 0) ≡ false }
    requires second { declares attempts.old (attempt_of task 1) ≡ false }
    requires files { AreFiles [] files.now }
    ensures { OnOk result (attempts.new ≡ attempts.old ++ attempts_of files.now task) }
{
    declare_with(alloc, attempts, AttemptName { task, attempt: 0 }, files)?;
    if is_twice(task) {
        declare_with(alloc, attempts, AttemptName { task, attempt: 1 }, files)?;
    }
    Ok(())
}

/// The attempts of all tasks.
pub fn all_attempts(
    alloc: Global,
    seed: u32,
    tasks: u32,
    files: u32,
) -> Result<Attempts, AllocError>
    requires tasks { tasks ≤ 1000 }
    requires files { files ≤ 100 }
    ensures { IfOk result (λ attempts. attempts ≡ made_attempts seed tasks files) }
{
    let mut numbers = Numbers::of(seed);
    let mut attempts = Attempts::new(alloc);
    for task in 0..tasks {
        let made = task_files(alloc, &mut numbers, task, files)?;
        declare_task(alloc, &mut attempts, task, &made)?;
    }
    Ok(attempts)
}
