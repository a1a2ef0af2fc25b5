ghost use Rattle.std.specs.Prelude.{⊤};
ghost use Rattle.job_protocol.specs.AtWork.{sparing_wants, sparing_told};
ghost use Rattle.job_protocol.specs.Sparing.{sparing_start, sparing_over};
ghost use Rattle.cleanup.specs.SparingFits.{FitsSparingDriving, sparing_standing};
ghost use Rattle.cleanup.specs.SparingLeft.{sparing_left};
ghost use Rattle.cleanup.specs.SparingAskingLaws.{sparing_laws};

use crate::sparing_state::{SparingStage, SparingState};
use job_model::{CleanEnd, JobPlan};
use machine::{Asked, PlannedMachine, PlannedOperation};
use s3_types::{Reply, let_go};
use std::alloc::{AllocError, Global};
use std::marker::Model;

/// A clean or an abort of a job at a destination that other jobs use too, with the job's plan. It
/// aborts the uploads that the job's own records or sets name, and no others. (Hadoop, S3A
/// committer architecture: cleanup by the job's own pending files.)
///
/// - For the magic committer these are the uploads of the records below the job's magic directory,
///   whose keys it then deletes.
/// - For the staging committers these are the uploads of the sets among the job's files in the
///   cluster, which it then deletes.
#[derive(Drop)]
pub struct SparingClean {
    plan: JobPlan,
    held: SparingState,
}

impl Model for SparingClean {
    ghost use Rattle.std.specs.Prelude.{◌≡◌, true};
    ghost use Rattle.job_protocol.specs.AtWork.{Driving};
    ghost use Rattle.job_protocol.specs.Sparing.{Sparing};
    ghost use Rattle.cleanup.specs.SparingHeld.{sparing_of};
    ghost use Rattle.cleanup.specs.inner.SparingHeld.{within_of};

    ghost Value = { Driving Sparing };

    ghost view = { λ c. record { plan = c.plan; operation = sparing_of c.plan.committer c.held } };

    ghost invariant = { λ c. within_of c.plan.committer c.held ≡ true };
}

/// A clean or an abort of a job at a destination that other jobs use too.
pub type SparingJob = PlannedMachine<SparingClean>;

impl PlannedOperation for SparingClean {
    type Plan = JobPlan;

    type End = CleanEnd;

    ghost goes_by = { λ _. ⊤ };

    ghost begun = { λ plan. record { plan = plan; operation = sparing_start plan.committer } };

    ghost plan_of = { λ m. m.plan };

    ghost end_of = { λ m. sparing_over m.operation };

    ghost wants = { sparing_wants };

    ghost after = { sparing_told };

    ghost fits = { FitsSparingDriving };

    ghost left = { sparing_left };

    ghost standing = { sparing_standing };

    ghost laws = { sparing_laws };

    fn begin(alloc: Global, plan: JobPlan) -> Result<SparingClean, AllocError> {
        let held = SparingState::new(alloc, plan.committer);
        Ok(SparingClean { plan, held })
    }

    fn ask(&self, alloc: Global) -> Asked {
        self.held.request(alloc, &self.plan)
    }

    fn wear(&mut self, _alloc: Global) -> Asked {
        self.held.stage = SparingStage::Over(CleanEnd::StoreFault);
        Ok(None)
    }

    fn hear(&mut self, alloc: Global, reply: &Reply, _repeated: bool) -> Asked {
        self.held.hear(alloc, &self.plan, reply)?;
        self.ask(alloc)
    }

    fn break_off(&mut self) {
        self.held.stage = SparingStage::Over(CleanEnd::NoMemory);
    }

    fn plan(&self) -> &JobPlan {
        &self.plan
    }

    fn into_plan(self) -> JobPlan {
        let SparingClean { plan, held } = self;
        let_go(held);
        plan
    }

    fn end(&self) -> Option<&CleanEnd> {
        match &self.held.stage {
            SparingStage::Over(end) => Some(end),
            _ => None,
        }
    }
}
