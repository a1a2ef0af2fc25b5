ghost use Rattle.std.specs.Prelude.{◌≡◌, IfOk, OnOk, OnErr, IsOk, IsErr};
ghost use Rattle.std.specs.Option.{option_copied};
ghost use Rattle.retries.specs.Retries.{OutOfMemory};
ghost use Rattle.machine.specs.Asks.{never};

use crate::Machine;
use crate::planned_operation::{Asked, PlannedOperation};
use s3_types::{Reply, Request, let_go, put};
use std::alloc::{AllocError, Global};
use std::marker::Model;

/// An operation that an actor holds, as a machine. It runs among others that send, so it promises
/// nothing of a scene.
#[derive(Drop)]
pub struct PlannedMachine<O: PlannedOperation> {
    alloc: Global,
    operation: O,
    asked: Option<Request>,
}

impl<O: PlannedOperation> Model for PlannedMachine<O> {
    ghost use Rattle.std.specs.Prelude.{◌≡◌};

    ghost Value = { O };

    ghost view = { λ a. a.operation };

    ghost invariant = { λ a. a.asked ≡ O.wants a.operation };
}

/// Keeps the request that an operation gave, or breaks the operation off if memory ran out.
fn settle<O: PlannedOperation>(
    operation: &mut O,
    asked: &mut Option<Request>,
    given: Asked,
) -> Result<(), AllocError>
    requires { IfOk given (λ request. request ≡ O.wants operation.old) }
    ensures asked { asked.new ≡ O.wants operation.new }
    ensures given { OnOk result (IsOk given) }
    ensures ok { OnOk result (operation.new ≡ operation.old) }
    ensures broken { OnErr result (IsErr given) }
    ensures err { OnErr result (operation.new ≡ O.after operation.old OutOfMemory) }
{
    match given {
        Ok(request) => {
            put(asked, request);
            Ok(())
        }
        Err(error) => {
            operation.break_off();
            put(asked, None);
            Err(error)
        }
    }
}

impl<O: PlannedOperation> PlannedMachine<O> {
    /// The operation of a plan. Nothing was sent yet.
    pub fn new(alloc: Global, plan: O::Plan) -> Result<PlannedMachine<O>, AllocError>
        requires { O.goes_by plan }
        ensures { IfOk result (λ operation. operation ≡ O.begun plan) }
    {
        let operation = O::begin(alloc, plan)?;
        match operation.ask(alloc) {
            Ok(asked) => Ok(PlannedMachine {
                alloc,
                operation,
                asked,
            }),
            Err(error) => Err(error),
        }
    }

    /// Returns the plan as the operation has it now. Takes no memory.
    pub fn plan(&self) -> &O::Plan
        ensures { result.now ≡ O.plan_of self.now }
    {
        self.operation.plan()
    }

    /// Gives the plan back as the operation has it now. Takes no memory.
    pub fn into_plan(self) -> O::Plan
        ensures { result ≡ O.plan_of self }
    {
        let PlannedMachine {
            alloc: _,
            operation,
            asked,
        } = self;
        let_go(asked);
        operation.into_plan()
    }

    /// Returns the operation. Takes no memory.
    pub fn operation(&self) -> &O
        ensures { result.now ≡ self.now }
    {
        &self.operation
    }

    /// Returns how it ended, or None while it has a next request. Takes no memory.
    pub fn end(&self) -> Option<&O::End>
        ensures { option_copied result ≡ O.end_of self.now }
    {
        self.operation.end()
    }
}

impl<O: PlannedOperation> Machine for PlannedMachine<O> {
    ghost wants = { O.wants };

    ghost after = { O.after };

    ghost fits = { O.fits };

    ghost ready = { never };

    ghost left = { O.left };

    ghost standing = { O.standing };

    fn request(&self) -> Option<&Request> {
        self.asked.as_ref()
    }

    fn take(&mut self, reply: &Reply, repeated: bool) -> Result<(), AllocError> {
        let given = self.operation.hear(self.alloc, reply, repeated);
        settle(&mut self.operation, &mut self.asked, given)
    }

    fn worn(&mut self) -> Result<(), AllocError> {
        let given = self.operation.wear(self.alloc);
        settle(&mut self.operation, &mut self.asked, given)
    }

    fn laws() {}
}
