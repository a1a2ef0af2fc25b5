ghost use Rattle.std.specs.Prelude.{Some};
ghost use Rattle.job_model.specs.Words.{life_word, stage_word};

use std::fmt;

/// Whether an actor runs an operation, is idle, or is dead.
#[derive(Clone, Copy, PartialEq, Eq)]
pub enum Life {
    Idle,
    Busy,
    Dead,
}

impl fmt::Display for Life {
    ghost output = { λ life. Some (life_word life) };

    fn fmt<W: fmt::Write>(&self, f: &mut fmt::Formatter<W>) -> fmt::Result {
        let word = match self {
            Life::Idle => "idle",
            Life::Busy => "busy",
            Life::Dead => "dead",
        };
        f.write_str(word)
    }
}

/// How far an actor has come. The driver has all stages but `Writing` and `Written`, an attempt all
/// but `Set`.
#[derive(Clone, Copy, PartialEq, Eq)]
pub enum ActorStage {
    New,
    Set,
    Writing,
    Written,
    Committing,
    Committed,
    Failed,
    Aborted,
}

impl fmt::Display for ActorStage {
    ghost output = { λ stage. Some (stage_word stage) };

    fn fmt<W: fmt::Write>(&self, f: &mut fmt::Formatter<W>) -> fmt::Result {
        let word = match self {
            ActorStage::New => "new",
            ActorStage::Set => "set",
            ActorStage::Writing => "writing",
            ActorStage::Written => "written",
            ActorStage::Committing => "committing",
            ActorStage::Committed => "committed",
            ActorStage::Failed => "failed",
            ActorStage::Aborted => "aborted",
        };
        f.write_str(word)
    }
}

/// The life and the stage of an actor.
#[derive(Clone, Copy, PartialEq, Eq)]
pub struct ActorState {
    pub life: Life,
    pub stage: ActorStage,
}
