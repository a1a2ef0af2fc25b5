ghost use Rattle.std.specs.Prelude.{◌≡◌, ⊤};
ghost use Rattle.s3_types.specs.declared.request.Committer.TheVariants.{Magic};

use job_model::{TaskEnd, TaskPlan};
use machine::Asked;
use s3_types::{Reply, put};
use std::alloc::{AllocError, Global};
use std::marker::Model;
use task_operation::{TaskMachine, TaskState, TheWrite};

/// A write whose files stay where the plan has them, and how it ended.
#[derive(Drop)]
pub struct Keeping {
    end: TaskEnd,
}

impl Model for Keeping {
    ghost use Rattle.job_protocol.specs.Writes as writes;

    ghost Value = { writes.Write };

    ghost view = { λ k. writes.WriteOver k.end };
}

/// A staging attempt's write of its files. They stay where the plan has them, and nothing is sent.
/// (Hadoop, S3A committer architecture: the staging committers write local files.)
pub type WriteFiles = TaskMachine<TheWrite, Keeping>;

impl TaskState<TheWrite> for Keeping {
    ghost goes_by = { λ plan. plan.job.committer ≡ Magic → ⊥ };

    ghost keeps = { λ _ _. ⊤ };

    ghost operation = { λ _ held. held };

    fn begin(_alloc: Global, plan: &TaskPlan) -> Result<Keeping, AllocError> {
        let _ = plan;
        Ok(Keeping { end: TaskEnd::Done })
    }

    fn ask(&self, _alloc: Global, plan: &TaskPlan) -> Asked {
        let _ = plan;
        let _end = &self.end;
        Ok(None)
    }

    fn hear(
        &mut self,
        _alloc: Global,
        plan: &mut TaskPlan,
        _reply: &Reply,
        _repeated: bool,
    ) -> Asked {
        let _ = plan;
        let _end = &self.end;
        unreachable!()
    }

    fn wear(&mut self, plan: &mut TaskPlan) {
        let _ = plan;
        let _end = &self.end;
        unreachable!()
    }

    fn finish(&mut self, end: TaskEnd) {
        put(&mut self.end, end);
    }

    fn end(&self, plan: &TaskPlan) -> Option<&TaskEnd> {
        let _ = plan;
        Some(&self.end)
    }
}
