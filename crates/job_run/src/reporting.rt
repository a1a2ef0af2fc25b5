ghost use Rattle.std.specs.Prelude.{length, IfOk};
ghost use Rattle.s3_types.specs.declared.request.Actor.TheVariants.{Driver};
ghost use Rattle.job_run.specs.inner.Reporting.{AreFlags, ArePartitions};
ghost use Rattle.job_run.specs.Reporting.{IsTold, IsUntold};

use crate::body::Body;
use crate::sending::actor_at;
use job_actor::Reported;
use job_model::{Op, Script, TaskSet};
use job_plans::reported_partitions;
use job_states::States;
use s3_types::{Sequence, TextList};
use std::alloc::{AllocError, Global};

/// For each attempt, in script order: whether it has reported since the last restart.
fn reported_flags(alloc: Global, script: &Script, states: &States) -> Result<Vec<bool>, AllocError>
    ensures { IfOk result (λ flags. AreFlags script.now states.now (length script.now.attempts) flags.items) }
{
    let mut flags = Vec::new(alloc);
    for place in 0..script.attempts.len() {
        let actor = actor_at(script, place + 1);
        flags.push(states.has_reported(script, actor))?;
    }
    Ok(flags)
}

impl<W: Drop> Body<W> {
    /// The partitions of the files of all attempts that have reported, or None if no other job
    /// shares the destination.
    fn reported_dirs(&self) -> Result<Option<TextList>, AllocError>
        ensures { IfOk result (ArePartitions self.now.side.shares self.now.side.script self.now.side.states) }
    {
        if !self.side.shares {
            return Ok(None);
        }
        let alloc = self.shared.alloc;
        let flags = reported_flags(alloc, &self.side.script, &self.side.states)?;
        let dirs = reported_partitions(alloc, &self.side.script, flags.as_slice())?;
        Ok(Some(dirs))
    }

    /// A report without any task; its list of partitions is empty, or None if no other job shares
    /// the destination.
    pub fn untold(&self) -> Reported
        ensures { IsUntold self.now result }
    {
        let alloc = self.shared.alloc;
        let partitions = if self.side.shares {
            Some(Sequence::new(alloc))
        } else {
            None
        };
        Reported {
            tasks: TaskSet::new(alloc),
            partitions,
        }
    }

    /// What the driver receives of its tasks when it begins this operation. For the job's commit,
    /// these are the tasks that have reported, and their partitions if another job shares the
    /// destination.
    pub fn told(&self, op: Op) -> Result<Reported, AllocError>
        ensures { IfOk result (IsTold self.now Driver op) }
    {
        match op {
            Op::Commit => {
                let tasks = self.side.states.reported(self.shared.alloc)?;
                let partitions = self.reported_dirs()?;
                Ok(Reported { tasks, partitions })
            }
            _ => Ok(self.untold()),
        }
    }
}
