ghost use Rattle.std.specs.Prelude.{⊤};
ghost use Rattle.job_protocol.specs.Rechecks.{check_over};
ghost use Rattle.conflict.specs.Rechecks.{check_begun, check_wants, check_told};
ghost use Rattle.conflict.specs.Fits.{FitsCheck, standing};
ghost use Rattle.conflict.specs.Left.{check_left};
ghost use Rattle.conflict.specs.AskingLaws.{check_laws};

use crate::check_plan::CheckPlan;
use crate::check_state::CheckState;
use job_model::CheckEnd;
use machine::{Asked, PlannedMachine, PlannedOperation};
use s3_types::{Reply, let_go};
use std::alloc::{AllocError, Global};
use std::marker::Model;

/// A check before the commit of a job at a shared destination, with its plan. (Hadoop, S3A
/// committers: fs.s3a.committer.staging.conflict-mode.)
///
/// - The directory committer in mode `fail` looks for a file of the destination.
/// - The partitioned committer in mode `fail` looks for a key below each of the partitions, in
///   their order.
/// - The others check nothing.
#[derive(Drop)]
pub struct Rechecking {
    plan: CheckPlan,
    held: CheckState,
}

impl Model for Rechecking {
    ghost use Rattle.conflict.specs.Rechecks.{PlannedCheck};
    ghost use Rattle.conflict.specs.Held.{check_of};

    ghost Value = { PlannedCheck };

    ghost view = { λ c. record { plan = c.plan; operation = check_of c.held } };
}

/// A check before a commit. It ends with:
///
/// - Conflict and the first path on a page at which readers see a file, or the first partition that
///   has a key;
/// - StoreFault exactly if a request exhausted its retries;
/// - else Clear.
pub type Recheck = PlannedMachine<Rechecking>;

impl PlannedOperation for Rechecking {
    type Plan = CheckPlan;

    type End = CheckEnd;

    ghost goes_by = { λ _. ⊤ };

    ghost begun = { check_begun };

    ghost plan_of = { λ m. m.plan };

    ghost end_of = { λ m. check_over m.operation };

    ghost wants = { check_wants };

    ghost after = { check_told };

    ghost fits = { FitsCheck };

    ghost left = { check_left };

    ghost standing = { standing };

    ghost laws = { check_laws };

    fn begin(alloc: Global, plan: CheckPlan) -> Result<Rechecking, AllocError> {
        let held = CheckState::new(alloc, &plan)?;
        Ok(Rechecking { plan, held })
    }

    fn ask(&self, alloc: Global) -> Asked {
        self.held.request(alloc, &self.plan.job)
    }

    fn wear(&mut self, _alloc: Global) -> Asked {
        self.held.finish(CheckEnd::StoreFault);
        Ok(None)
    }

    fn hear(&mut self, alloc: Global, reply: &Reply, _repeated: bool) -> Asked {
        self.held.hear(alloc, &self.plan.job, reply)?;
        self.ask(alloc)
    }

    fn break_off(&mut self) {
        self.held.finish(CheckEnd::NoMemory);
    }

    fn plan(&self) -> &CheckPlan {
        &self.plan
    }

    fn into_plan(self) -> CheckPlan {
        let Rechecking { plan, held } = self;
        let_go(held);
        plan
    }

    fn end(&self) -> Option<&CheckEnd> {
        self.held.end()
    }
}
