ghost use Rattle.std.specs.Prelude.{◌≡◌, ◌<◌, ◌^◌, ◌-◌, true, false, Some, IfOk, IfErr};
ghost use Rattle.s3a_words.specs.Words.{IsBounded};
ghost use Rattle.s3a_shell.specs.Commanded.{plays};
ghost use Rattle.s3a_top.specs.Openings.{AreJobsOf};
ghost use Rattle.s3a_top.specs.Commands.{may_read};
ghost use Rattle.s3a_top.specs.inner.Reads.{reader, AreJobsIn, IsReadStop, IsNone, CountsReads};

use crate::input::{InputFault, read_input};
use crate::stop::Stop;
use devices::Source;
use durable_job::Jobs;
use job_gen::make_script;
use job_script::{ScriptFault, read_script};
use s3a_words::Command;
use std::alloc::Global;
use twin_script::{TwinFault, read_twins};

/// Reads these bytes as the script of one job.
fn script_in(alloc: Global, bytes: &[u8]) -> Result<Jobs, Stop>
    ensures jobs { IfOk result (λ jobs. AreJobsIn false bytes.now jobs) }
    ensures stop { IfErr result (λ stop. IsNone stop false bytes.now) }
{
    match read_script(alloc, bytes) {
        Ok(script) => Ok(Jobs::One(script)),
        Err(ScriptFault::NoMemory) => Err(Stop::NoMemory),
        Err(fault) => Err(Stop::Script(fault)),
    }
}

/// Reads these bytes as two scripts and the order of their turns.
fn twins_in(alloc: Global, bytes: &[u8]) -> Result<Jobs, Stop>
    ensures jobs { IfOk result (λ jobs. AreJobsIn true bytes.now jobs) }
    ensures stop { IfErr result (λ stop. IsNone stop true bytes.now) }
{
    match read_twins(alloc, bytes) {
        Ok(twins) => Ok(Jobs::Two(twins)),
        Err(TwinFault::NoMemory) => Err(Stop::NoMemory),
        Err(fault) => Err(Stop::Twins(fault)),
    }
}

/// Reads these bytes as one job, or as two if `both` is set.
fn jobs_in(alloc: Global, both: bool, bytes: &[u8]) -> Result<Jobs, Stop>
    ensures jobs { IfOk result (λ jobs. AreJobsIn both bytes.now jobs) }
    ensures stop { IfErr result (λ stop. IsNone stop both bytes.now) }
{
    if both {
        twins_in(alloc, bytes)
    } else {
        script_in(alloc, bytes)
    }
}

/// Reads one job from the input, or two if `both` is set. At most `MOST_SCRIPT_BYTES + 1` bytes are
/// taken from the input.
fn read_jobs<Q: Source>(alloc: Global, input: &mut Q, both: bool) -> Result<Jobs, Stop>
    requires { Q.faults input.old < 2 ^ 64 - 1 }
    ensures jobs { IfOk result (λ jobs. AreJobsOf (reader both) (Q.left input.old) (Q.left input.new) jobs) }
    ensures stop { IfErr result (λ stop. IsReadStop stop (reader both) (Q.left input.old) (Q.left input.new)) }
    ensures counted { CountsReads result (Q.faults input.old) (Q.faults input.new) }
{
    match read_input(alloc, input) {
        Ok(bytes) => jobs_in(alloc, both, bytes.as_slice()),
        Err(InputFault::Failed) => Err(Stop::ReadFault),
        Err(InputFault::NoMemory) => Err(Stop::NoMemory),
    }
}

/// The jobs that a command runs. `job` and `twins` read them from the input. `gen` makes one from
/// its numbers and takes nothing from the input.
pub fn jobs_for<Q: Source>(alloc: Global, input: &mut Q, command: &Command) -> Result<Jobs, Stop>
    requires count { Q.faults input.old < 2 ^ 64 - 1 }
    requires one { plays command.now ≡ true }
    requires fit { IsBounded command.now }
    ensures jobs { IfOk result (λ jobs. AreJobsOf command.now (Q.left input.old) (Q.left input.new) jobs) }
    ensures stop { IfErr result (λ stop. IsReadStop stop command.now (Q.left input.old) (Q.left input.new)) }
    ensures unread { may_read (Some command.now) ≡ false → input.new ≡ input.old }
    ensures counted { CountsReads result (Q.faults input.old) (Q.faults input.new) }
{
    match command {
        Command::Job => read_jobs(alloc, input, false),
        Command::Twins => read_jobs(alloc, input, true),
        Command::Gen { seed, tasks, files } => match make_script(alloc, *seed, *tasks, *files) {
            Ok(script) => Ok(Jobs::One(script)),
            Err(_) => Err(Stop::NoMemory),
        },
        _ => unreachable!(),
    }
}
