ghost use Rattle.std.specs.Prelude.{◌≡◌, ◌≤◌, IfOk};
ghost use Rattle.s3_types.specs.declared.request.Committer.TheVariants.{Magic};
ghost use Rattle.job_model.specs.Legal.{IsLegal};
ghost use Rattle.job_gen.specs.Made.{made_dest, made_script};

use crate::attempts::all_attempts;
use crate::events::all_events;
use job_model::Script;
use path_keys::{PathFault, S3Path};
use s3_types::{Committer, Fates, Mode, Text};
use std::alloc::{AllocError, Global};

/// The destination of every job that is made.
fn dest(alloc: Global) -> Result<S3Path, AllocError>
    ensures { IfOk result (λ path. path ≡ made_dest) }
{
    match S3Path::read(alloc, "s3a://lake/gen") {
        Ok(path) => Ok(path),
        Err(fault) => match fault {
            PathFault::NoMemory => Err(AllocError),
            _ => unreachable!(),
        },
    }
}

/// Makes the script of a magic job of `tasks` tasks with `files` files each. The numbers of the
/// seed's sequence give the lengths and contents of the files. The events are, in order:
///
/// 1. the set-up
/// 2. the writes of the first attempt of each task
/// 3. for every fifth task: its first attempt is killed, and a second one writes the same files
/// 4. the commits of one attempt of each task
/// 5. the driver's commit and its clean
///
/// The first writes are mixed by the seed, modulo 2^31, and so are the commits of attempts. Other
/// head lines have their defaults. Two attempts of a task share the contents of their files. Fails
/// with AllocError only if memory runs out.
pub fn make_script(alloc: Global, seed: u32, tasks: u32, files: u32) -> Result<Script, AllocError>
    requires some_tasks { 1 ≤ tasks }
    requires few_tasks { tasks ≤ 200 }
    requires some_files { 1 ≤ files }
    requires few_files { files ≤ 50 }
    ensures exact { IfOk result (λ script. script ≡ made_script seed tasks files) }
    ensures legal { IfOk result (λ script. IsLegal script) }
    ensures magic { IfOk result (λ script. script.committer ≡ Magic) }
{
    let job = Text::copied(alloc, "gen")?;
    let dest = dest(alloc)?;
    let attempts = all_attempts(alloc, seed, tasks, files)?;
    let events = all_events(alloc, seed, tasks)?;
    Ok(Script {
        job,
        dest,
        committer: Committer::Magic,
        mode: Mode::Append,
        unique: false,
        tasks,
        retries: 3,
        block: 0,
        lanes: 1,
        stamp: None,
        fates: Fates::new(alloc),
        attempts,
        events,
    })
}
