ghost use Rattle.task_operation.specs.Tasks.{at};

use crate::operation::TaskOperation;
use crate::task_state::TaskState;
use job_model::{TaskEnd, TaskPlan};
use machine::{Asked, PlannedMachine, PlannedOperation};
use s3_types::{Reply, let_go};
use std::alloc::{AllocError, Global};
use std::marker::{Model, PhantomData};

/// An attempt's operation together with the attempt's plan.
#[derive(Drop)]
pub struct AtWork<O: TaskOperation, H: TaskState<O>> {
    plan: TaskPlan,
    held: H,
    operation: PhantomData<O>,
}

impl<O: TaskOperation, H: TaskState<O>> Model for AtWork<O, H> {
    ghost use Rattle.job_protocol.specs.AtWork.{Attempting};
    ghost use Rattle.task_operation.specs.Tasks.{at};

    ghost Value = { Attempting O };

    ghost view = { λ w. at w.plan (H.operation w.plan w.held) };

    ghost invariant = { λ w. H.keeps w.plan w.held };
}

/// An attempt's operation as a machine.
pub type TaskMachine<O, H> = PlannedMachine<AtWork<O, H>>;

impl<O: TaskOperation, H: TaskState<O>> PlannedOperation for AtWork<O, H> {
    type Plan = TaskPlan;

    type End = TaskEnd;

    ghost goes_by = { H.goes_by };

    ghost begun = { λ plan. at plan (O.start plan) };

    ghost plan_of = { λ m. m.plan };

    ghost end_of = { λ m. O.over m.operation };

    ghost wants = { O.wants };

    ghost after = { O.after };

    ghost fits = { O.fits };

    ghost left = { O.left };

    ghost standing = { O.standing };

    ghost laws = { O.laws.asks };

    fn begin(alloc: Global, plan: TaskPlan) -> Result<AtWork<O, H>, AllocError> {
        match H::begin(alloc, &plan) {
            Ok(held) => Ok(AtWork {
                plan,
                held,
                operation: PhantomData,
            }),
            Err(error) => {
                let_go(plan);
                Err(error)
            }
        }
    }

    fn ask(&self, alloc: Global) -> Asked {
        self.held.ask(alloc, &self.plan)
    }

    fn hear(&mut self, alloc: Global, reply: &Reply, repeated: bool) -> Asked {
        self.held.hear(alloc, &mut self.plan, reply, repeated)
    }

    fn wear(&mut self, _alloc: Global) -> Asked {
        self.held.wear(&mut self.plan);
        Ok(None)
    }

    fn break_off(&mut self) {
        self.held.finish(TaskEnd::NoMemory);
    }

    fn plan(&self) -> &TaskPlan {
        &self.plan
    }

    fn into_plan(self) -> TaskPlan {
        let AtWork {
            plan,
            held,
            operation: _,
        } = self;
        let_go(held);
        plan
    }

    fn end(&self) -> Option<&TaskEnd> {
        self.held.end(&self.plan)
    }
}
