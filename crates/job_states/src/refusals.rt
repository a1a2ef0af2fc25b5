ghost use Rattle.std.specs.Prelude.{◌≡◌, ◌&&◌};
ghost use Rattle.job_spec.specs.States.{is_new, driver_may, attempt_may, may, needs_set, refuse_op, refuse_begin, refuse_move, refuse_kill, refuse_restart};

use job_model::{ActorStage, EventFault, Life, Op};
use s3_types::Actor;

/// True if the driver may begin the operation at this stage.
fn driver_may(op: Op, stage: ActorStage) -> bool
    ensures { result ≡ driver_may op stage }
{
    match op {
        Op::Setup => matches!(stage, ActorStage::New),
        Op::Commit => matches!(stage, ActorStage::Set),
        Op::Abort => matches!(
            stage,
            ActorStage::Set | ActorStage::Failed | ActorStage::Aborted
        ),
        Op::Clean => matches!(
            stage,
            ActorStage::Committed | ActorStage::Failed | ActorStage::Aborted
        ),
        Op::Write => false,
    }
}

/// True if an attempt may begin the operation at this stage.
fn attempt_may(op: Op, stage: ActorStage) -> bool
    ensures { result ≡ attempt_may op stage }
{
    match op {
        Op::Write => matches!(stage, ActorStage::New),
        Op::Commit => matches!(stage, ActorStage::Written),
        Op::Abort => !matches!(stage, ActorStage::Aborted),
        Op::Setup | Op::Clean => false,
    }
}

fn may(actor: Actor, op: Op, stage: ActorStage) -> bool
    ensures { result ≡ may actor op stage }
{
    match actor {
        Actor::Driver => driver_may(op, stage),
        Actor::Attempt {
            task: _,
            attempt: _,
        } => attempt_may(op, stage),
        Actor::Shell => false,
    }
}

/// True if the operation must wait for the end of the driver's set-up.
fn waits(actor: Actor, op: Op, driver: ActorStage) -> bool
    ensures { result ≡ (needs_set actor op && is_new driver) }
{
    match (actor, op) {
        (Actor::Driver, Op::Setup) => false,
        _ => matches!(driver, ActorStage::New),
    }
}

/// Why an actor at stage `stage` may not begin an operation, if the driver is at stage `driver`.
fn refuse_op(driver: ActorStage, actor: Actor, op: Op, stage: ActorStage) -> Option<EventFault>
    ensures { result ≡ refuse_op driver actor op stage }
{
    if waits(actor, op, driver) {
        return Some(EventFault::NotSet);
    }
    if may(actor, op, stage) {
        return None;
    }
    Some(EventFault::WrongState)
}

/// Why an actor may not begin an operation, by its life and stage and the driver's stage.
pub fn refuse_begin(
    life: Life,
    driver: ActorStage,
    actor: Actor,
    op: Op,
    stage: ActorStage,
) -> Option<EventFault>
    ensures { result ≡ refuse_begin life (refuse_op driver actor op stage) }
{
    match life {
        Life::Dead => Some(EventFault::Dead),
        Life::Busy => Some(EventFault::Busy),
        Life::Idle => refuse_op(driver, actor, op, stage),
    }
}

/// Why an actor may not send.
pub fn refuse_move(life: Life) -> Option<EventFault>
    ensures { result ≡ refuse_move life }
{
    match life {
        Life::Dead => Some(EventFault::Dead),
        Life::Idle => Some(EventFault::Idle),
        Life::Busy => None,
    }
}

/// Why an actor may not be killed.
pub fn refuse_kill(life: Life) -> Option<EventFault>
    ensures { result ≡ refuse_kill life }
{
    match life {
        Life::Dead => Some(EventFault::Dead),
        Life::Idle | Life::Busy => None,
    }
}

/// Why a driver with this life may not be replaced by a new one.
pub fn refuse_restart(life: Life) -> Option<EventFault>
    ensures { result ≡ refuse_restart life }
{
    match life {
        Life::Dead => None,
        Life::Idle | Life::Busy => Some(EventFault::NotDead),
    }
}
