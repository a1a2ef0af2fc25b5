ghost use Rattle.std.specs.Prelude.{⊤};
ghost use Rattle.job_protocol.specs.AtWork.{setup_wants, setup_told};
ghost use Rattle.job_protocol.specs.Setup.{setup_start, setup_over};
ghost use Rattle.job_setup.specs.Fits.{FitsDriving, standing};
ghost use Rattle.job_setup.specs.Left.{setup_left};
ghost use Rattle.job_setup.specs.AskingLaws.{setup_laws};

use crate::setup_state::{SetupStage, SetupState};
use job_model::{JobPlan, SetupEnd};
use machine::{Asked, PlannedMachine, PlannedOperation};
use s3_types::{Reply, Request, let_go};
use std::alloc::{AllocError, Global};
use std::marker::Model;

/// A set-up of a job, with the job's plan. It looks at the destination's own key. For the directory
/// committer in mode `fail` it looks for a file of the destination. It deletes the marker of an
/// earlier job, and for the magic committer it empties the job's magic directory. (Hadoop, S3A
/// committers: job setup.)
#[derive(Drop)]
pub struct SettingUp {
    plan: JobPlan,
    held: SetupState,
}

impl Model for SettingUp {
    ghost use Rattle.job_protocol.specs.AtWork.{Driving};
    ghost use Rattle.job_protocol.specs.Setup.{Setup};
    ghost use Rattle.job_setup.specs.Held.{setup_of};

    ghost Value = { Driving Setup };

    ghost view = { λ s. record { plan = s.plan; operation = setup_of s.held } };
}

/// A set-up of a job as a machine. It ends with:
///
/// - DestIsFile exactly if there is an object at the destination's own key;
/// - NoSuchBucket if the bucket does not exist;
/// - Conflict and the first path on a page at which readers see a file;
/// - StoreFault exactly if a request exhausted its retries.
pub type SetupJob = PlannedMachine<SettingUp>;

impl PlannedOperation for SettingUp {
    type Plan = JobPlan;

    type End = SetupEnd;

    ghost goes_by = { λ _. ⊤ };

    ghost begun = { λ plan. record { plan = plan; operation = setup_start } };

    ghost plan_of = { λ m. m.plan };

    ghost end_of = { λ m. setup_over m.operation };

    ghost wants = { setup_wants };

    ghost after = { setup_told };

    ghost fits = { FitsDriving };

    ghost left = { setup_left };

    ghost standing = { standing };

    ghost laws = { setup_laws };

    fn begin(alloc: Global, plan: JobPlan) -> Result<SettingUp, AllocError> {
        Ok(SettingUp {
            plan,
            held: SetupState::new(alloc),
        })
    }

    fn ask(&self, alloc: Global) -> Asked {
        self.held.request(alloc, &self.plan)
    }

    fn wear(&mut self, _alloc: Global) -> Asked {
        self.held.finish(SetupEnd::StoreFault);
        Ok(None)
    }

    fn hear(&mut self, alloc: Global, reply: &Reply, _repeated: bool) -> Asked {
        self.held.hear(alloc, &self.plan, reply)?;
        self.ask(alloc)
    }

    fn break_off(&mut self) {
        self.held.finish(SetupEnd::NoMemory);
    }

    fn plan(&self) -> &JobPlan {
        &self.plan
    }

    fn into_plan(self) -> JobPlan {
        let SettingUp { plan, held } = self;
        let_go(held);
        plan
    }

    fn end(&self) -> Option<&SetupEnd> {
        match self.held.stage {
            SetupStage::Over => Some(&self.held.end),
            _ => None,
        }
    }
}
