ghost use Rattle.std.specs.Prelude.{◌≡◌, IfOk, OnOk, OnErr, Option, Some, None};
ghost use Rattle.operations.specs.Operations.{wanted, led, after, any_reply, left, standing, IsReady};

use crate::plan::{Plan, Step};
use machine::Machine;
use s3_types::{Reply, Request, let_go, put};
use std::alloc::AllocError;
use std::marker::Model;
use std::mem;

/// The stage of an operation: in a phase, ended with an answer, or stopped.
#[derive(Drop)]
pub enum OperationStage<P, A> {
    On(P),
    Over(A),
    /// A request exhausted its retries.
    StoreFault,
    NoMemory,
}

/// An operation as a machine.
#[derive(Drop)]
pub struct Operation<P: Plan> {
    stage: OperationStage<P, P::Answer>,
    asked: Option<Request>,
}

impl<P: Plan> Model for Operation<P> {
    ghost use Rattle.std.specs.Prelude.{◌≡◌};
    ghost use Rattle.operations.specs.declared.operation.OperationStage.{OperationStage};
    ghost use Rattle.operations.specs.Operations.{wanted};

    ghost Value = { OperationStage P P.Answer };

    ghost view = { λ o. o.stage };

    ghost invariant = { λ o. o.asked ≡ wanted P.asks o.stage };
}

impl<P: Plan> Operation<P> {
    /// An operation before anything was sent.
    pub fn new(plan: P) -> Result<Operation<P>, AllocError>
        ensures { IfOk result (λ operation. operation ≡ OperationStage.On plan) }
    {
        let asked = plan.ask()?;
        Ok(Operation {
            stage: OperationStage::On(plan),
            asked: Some(asked),
        })
    }

    /// Returns its stage. Takes no memory.
    pub fn stage(&self) -> &OperationStage<P, P::Answer>
        ensures { result.now ≡ self.now }
    {
        &self.stage
    }

    /// Gives its stage up. Takes no memory.
    pub fn into_stage(self) -> OperationStage<P, P::Answer>
        ensures { result ≡ self }
    {
        let Operation { stage, asked } = self;
        let_go(asked);
        stage
    }

    fn stop(&mut self, stage: OperationStage<P, P::Answer>)
        requires { wanted P.asks stage ≡ None }
        ensures { self.new ≡ stage }
    {
        put(&mut self.asked, None);
        put(&mut self.stage, stage);
    }

    fn go_on(&mut self, plan: P, asked: Request)
        requires { asked ≡ P.asks plan }
        ensures { self.new ≡ OperationStage.On plan }
    {
        put(&mut self.asked, Some(asked));
        put(&mut self.stage, OperationStage::On(plan));
    }

    fn step(&mut self, step: Step<P, P::Answer>) -> Result<(), AllocError>
        requires { wanted P.asks self.old ≡ None }
        ensures ok { OnOk result (self.new ≡ led step) }
        ensures err { OnErr result (self.new ≡ self.old) }
    {
        match step {
            Step::Next(plan) => {
                let asked = plan.ask()?;
                self.go_on(plan, asked);
            }
            Step::End(answer) => self.stop(OperationStage::Over(answer)),
        }
        Ok(())
    }

    /// Takes the stage out, and leaves NoMemory in its place.
    fn taken(&mut self) -> OperationStage<P, P::Answer>
        ensures result { result ≡ self.old }
        ensures rest { self.new ≡ OperationStage.NoMemory }
    {
        put(&mut self.asked, None);
        mem::replace(&mut self.stage, OperationStage::NoMemory)
    }
}

impl<P: Plan> Machine for Operation<P> {
    ghost wants = { wanted P.asks };

    ghost after = { after P.goes };

    ghost fits = { any_reply };

    ghost ready = { IsReady P.holds P.gives P.always };

    ghost left = { left P.left };

    ghost standing = { standing };

    fn request(&self) -> Option<&Request> {
        self.asked.as_ref()
    }

    fn take(&mut self, reply: &Reply, repeated: bool) -> Result<(), AllocError> {
        match self.taken() {
            OperationStage::On(plan) => {
                let step = plan.next(reply, repeated)?;
                self.step(step)
            }
            stage => {
                self.stop(stage);
                Ok(())
            }
        }
    }

    fn worn(&mut self) -> Result<(), AllocError> {
        self.stop(OperationStage::StoreFault);
        Ok(())
    }

    fn laws() {
        P::laws();
    }
}
