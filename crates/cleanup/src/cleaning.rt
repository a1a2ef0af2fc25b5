ghost use Rattle.std.specs.Prelude.{⊤};
ghost use Rattle.job_protocol.specs.AtWork.{clean_wants, clean_told};
ghost use Rattle.job_protocol.specs.Cleanups.{clean_start, clean_over};
ghost use Rattle.cleanup.specs.Fits.{FitsDriving, standing};
ghost use Rattle.cleanup.specs.Left.{clean_left};
ghost use Rattle.cleanup.specs.AskingLaws.{clean_laws};

use crate::clean_state::{CleanStage, CleanState};
use job_model::{CleanEnd, JobPlan};
use machine::{Asked, PlannedMachine, PlannedOperation};
use s3_types::{Reply, Request, let_go};
use std::alloc::{AllocError, Global};
use std::marker::Model;

/// A clean or an abort of a job, with the job's plan. It aborts each live upload below the
/// destination. Then, for the magic committer, it empties the job's magic directory; for the
/// staging committers, it deletes each of the job's files in the cluster. (Hadoop, S3A committer
/// architecture: job abort and cleanup.)
#[derive(Drop)]
pub struct Cleaning {
    plan: JobPlan,
    held: CleanState,
}

impl Model for Cleaning {
    ghost use Rattle.std.specs.Prelude.{◌≡◌, true};
    ghost use Rattle.job_protocol.specs.AtWork.{Driving};
    ghost use Rattle.job_protocol.specs.Cleanups.{Clean};
    ghost use Rattle.cleanup.specs.Held.{clean_of};
    ghost use Rattle.cleanup.specs.inner.Held.{within_of};

    ghost Value = { Driving Clean };

    ghost view = { λ c. record { plan = c.plan; operation = clean_of c.held } };

    ghost invariant = { λ c. within_of c.held ≡ true };
}

/// A clean of a job.
pub type CleanJob = PlannedMachine<Cleaning>;

/// An abort of a job, which sends the same requests as a clean.
pub type AbortJob = PlannedMachine<Cleaning>;

impl PlannedOperation for Cleaning {
    type Plan = JobPlan;

    type End = CleanEnd;

    ghost goes_by = { λ _. ⊤ };

    ghost begun = { λ plan. record { plan = plan; operation = clean_start } };

    ghost plan_of = { λ m. m.plan };

    ghost end_of = { λ m. clean_over m.operation };

    ghost wants = { clean_wants };

    ghost after = { clean_told };

    ghost fits = { FitsDriving };

    ghost left = { clean_left };

    ghost standing = { standing };

    ghost laws = { clean_laws };

    fn begin(alloc: Global, plan: JobPlan) -> Result<Cleaning, AllocError> {
        Ok(Cleaning {
            plan,
            held: CleanState::new(alloc),
        })
    }

    fn ask(&self, alloc: Global) -> Asked {
        self.held.request(alloc, &self.plan)
    }

    fn wear(&mut self, _alloc: Global) -> Asked {
        self.held.stage = CleanStage::Over(CleanEnd::StoreFault);
        Ok(None)
    }

    fn hear(&mut self, alloc: Global, reply: &Reply, _repeated: bool) -> Asked {
        self.held.hear(alloc, &self.plan, reply)?;
        self.ask(alloc)
    }

    fn break_off(&mut self) {
        self.held.stage = CleanStage::Over(CleanEnd::NoMemory);
    }

    fn plan(&self) -> &JobPlan {
        &self.plan
    }

    fn into_plan(self) -> JobPlan {
        let Cleaning { plan, held } = self;
        let_go(held);
        plan
    }

    fn end(&self) -> Option<&CleanEnd> {
        match &self.held.stage {
            CleanStage::Over(end) => Some(end),
            _ => None,
        }
    }
}
