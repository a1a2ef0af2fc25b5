ghost use Rattle.std.specs.Prelude.{◌≡◌, ◌&&◌};
ghost use Rattle.job_spec.specs.States.{Decided, stage_begun, stage_done, restarted, task_ended, ended, is_committing, is_done, setup_begun, commit_begun, decide, end_verdict, verdict_or};
ghost use Rattle.job_states.specs.Standing.{decision, began};
ghost use Rattle.job_states.specs.inner.Standing.{begun_in, ended_in, killed_in, renewed_in, unreported_in};

use job_model::{
    ActorStage, ActorState, CheckEnd, CleanEnd, CommitEnd, Life, Op, OpEnd, SetupEnd, TaskEnd,
};
use s3_types::Actor;

/// An actor's state, the operation that it began last, and whether it has reported a task since the
/// last restart.
#[derive(Clone, Copy, PartialEq, Eq)]
pub struct Standing {
    pub state: ActorState,
    pub begun: Option<Op>,
    pub reported: bool,
}

/// What is known of the driver's last set-up or of its commit.
#[derive(Clone, Copy, PartialEq, Eq)]
pub enum Decision {
    NotBegun,
    /// It was begun and has not ended.
    Unended,
    /// It ended. The number is the status for that end: 0, 1, 8 or 9.
    Ended(u8),
}

/// The standing of an actor that has begun nothing.
pub const FRESH: Standing = Standing {
    state: ActorState {
        life: Life::Idle,
        stage: ActorStage::New,
    },
    begun: None,
    reported: false,
};

/// The stage of an actor that begins an operation.
fn stage_begun(actor: Actor, op: Op, stage: ActorStage) -> ActorStage
    ensures { result ≡ stage_begun actor op stage }
{
    match (actor, op) {
        (Actor::Driver, Op::Abort) => ActorStage::Aborted,
        (_, Op::Commit) => ActorStage::Committing,
        (_, Op::Write) => ActorStage::Writing,
        _ => stage,
    }
}

/// The stage of an attempt whose operation ended with Done, by its stage before.
fn stage_done(stage: ActorStage) -> ActorStage
    ensures { result ≡ stage_done stage }
{
    match stage {
        ActorStage::Writing => ActorStage::Written,
        ActorStage::Committing => ActorStage::Committed,
        _ => ActorStage::Aborted,
    }
}

/// The stage of a new driver.
fn restarted(stage: ActorStage) -> ActorStage
    ensures { result ≡ restarted stage }
{
    match stage {
        ActorStage::Committing => ActorStage::Failed,
        _ => stage,
    }
}

/// The state of an attempt after the end of its operation.
fn after_task(end: &TaskEnd, stage: ActorStage) -> ActorState
    ensures { result ≡ task_ended end.now stage }
{
    let (life, stage) = match end {
        TaskEnd::Done => (Life::Idle, stage_done(stage)),
        TaskEnd::Kept => (Life::Idle, stage),
        TaskEnd::NoMemory => (Life::Dead, stage),
        _ => (Life::Idle, ActorStage::Failed),
    };
    ActorState { life, stage }
}

/// The state of an actor after the end of its operation.
fn ended(end: &OpEnd, stage: ActorStage) -> ActorState
    ensures { result ≡ ended end.now stage }
{
    let (life, stage) = match end {
        OpEnd::Task(end) => return after_task(end, stage),
        OpEnd::Setup(SetupEnd::Done) => (Life::Idle, ActorStage::Set),
        OpEnd::Commit(CommitEnd::Committed) => (Life::Idle, ActorStage::Committed),
        OpEnd::Setup(SetupEnd::NoMemory)
        | OpEnd::Check(CheckEnd::NoMemory)
        | OpEnd::Commit(CommitEnd::NoMemory)
        | OpEnd::Clean(CleanEnd::NoMemory)
        | OpEnd::NoMemory => (Life::Dead, stage),
        OpEnd::Setup(_) => (Life::Idle, ActorStage::New),
        OpEnd::Check(_) | OpEnd::Commit(_) => (Life::Idle, ActorStage::Failed),
        OpEnd::Clean(_) => (Life::Idle, stage),
    };
    ActorState { life, stage }
}

/// The standing of an actor that begins an operation.
pub fn begun(actor: Actor, op: Op, standing: Standing) -> Standing
    ensures { result ≡ begun_in actor op standing }
{
    Standing {
        state: ActorState {
            life: Life::Busy,
            stage: stage_begun(actor, op, standing.state.stage),
        },
        begun: Some(op),
        reported: standing.reported,
    }
}

/// The standing of an actor after the end of its operation.
pub fn after_end(end: &OpEnd, standing: Standing) -> Standing
    ensures { result ≡ ended_in end.now standing }
{
    Standing {
        state: ended(end, standing.state.stage),
        begun: standing.begun,
        reported: standing.reported || is_reporting(standing.state.stage, end),
    }
}

/// The standing of an actor that was killed.
pub fn killed(standing: Standing) -> Standing
    ensures { result ≡ killed_in standing }
{
    Standing {
        state: ActorState {
            life: Life::Dead,
            stage: standing.state.stage,
        },
        begun: standing.begun,
        reported: standing.reported,
    }
}

/// The standing of an actor whose reports are forgotten.
pub fn unreported(standing: Standing) -> Standing
    ensures { result ≡ unreported_in standing }
{
    Standing {
        state: standing.state,
        begun: standing.begun,
        reported: false,
    }
}

/// The standing of a new driver in place of the old one.
pub fn renewed(standing: Standing) -> Standing
    ensures { result ≡ renewed_in standing }
{
    Standing {
        state: ActorState {
            life: Life::Idle,
            stage: restarted(standing.state.stage),
        },
        begun: standing.begun,
        reported: standing.reported,
    }
}

/// True if an attempt reports its task when its operation ends so at this stage.
pub fn is_reporting(stage: ActorStage, end: &OpEnd) -> bool
    ensures { result ≡ (is_committing stage && is_done end.now) }
{
    match (stage, end) {
        (ActorStage::Committing, OpEnd::Task(TaskEnd::Done)) => true,
        _ => false,
    }
}

/// What is known of the last set-up, after an actor begins an operation.
pub fn setup_begun(actor: Actor, op: Op, setup: Decision) -> Decision
    ensures { (d : Decided) → setup ≡ decision d → result ≡ decision (setup_begun actor op d) }
{
    match (actor, op) {
        (Actor::Driver, Op::Setup) => Decision::Unended,
        _ => setup,
    }
}

/// What is known of the commit, after an actor begins an operation.
pub fn commit_begun(actor: Actor, op: Op, commit: Decision) -> Decision
    ensures { (d : Decided) → commit ≡ decision d → result ≡ decision (commit_begun actor op d) }
{
    match (actor, op) {
        (Actor::Driver, Op::Commit) => Decision::Unended,
        _ => commit,
    }
}

/// The status for an operation's end.
fn status_of(end: &OpEnd) -> u8
    ensures { result ≡ end_verdict end.now }
{
    match end {
        OpEnd::Commit(CommitEnd::Committed) => 0,
        OpEnd::Commit(CommitEnd::StoreFault(_))
        | OpEnd::Check(CheckEnd::StoreFault)
        | OpEnd::Setup(SetupEnd::StoreFault) => 8,
        OpEnd::Commit(CommitEnd::NoMemory)
        | OpEnd::Check(CheckEnd::NoMemory)
        | OpEnd::Setup(SetupEnd::NoMemory)
        | OpEnd::NoMemory => 9,
        _ => 1,
    }
}

/// What is known of an operation of the driver, after an actor's operation ends. `is_that` tells
/// whether it is this one.
pub fn decided(actor: Actor, is_that: bool, end: &OpEnd, before: Decision) -> Decision
    ensures { (d : Decided) → before ≡ decision d → result ≡ decision (decide actor is_that end.now d) }
{
    match (actor, is_that) {
        (Actor::Driver, true) => Decision::Ended(status_of(end)),
        _ => before,
    }
}

impl Standing {
    /// True if this operation is the one that the actor began last.
    pub fn began(&self, op: Op) -> bool
        ensures { result ≡ began op self.now.begun }
    {
        match self.begun {
            Some(last) => last == op,
            None => false,
        }
    }
}

impl Decision {
    /// The status of this set-up or commit, or `other` if it was never begun.
    pub fn status_or(self, other: u8) -> u8
        ensures { (d : Decided) → self ≡ decision d → result ≡ verdict_or other d }
    {
        match self {
            Decision::NotBegun => other,
            Decision::Unended => 1,
            Decision::Ended(status) => status,
        }
    }
}
