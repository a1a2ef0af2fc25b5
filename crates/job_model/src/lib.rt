//! The plain data of a job: its script, the plans of its actors, the ends of their operations, and
//! their states.
//!
//! # What is proved
//!
//! - Attempts and files keep their order, and each name occurs once.
//! - A script keeps the bounds of `Legal.antt`, and plans keep those of `Plans.antt`.
//! - Events, ends and states are written with the words of `Words.antt`.
#![tactic(auto)]

mod attempts;
mod displaced;
mod ends;
mod events;
mod files;
mod known;
mod plan;
mod script;
mod states;

pub use attempts::{AttemptName, Attempts};
pub use displaced::Displaced;
pub use ends::{
    ActorEnd, ActorEndList, CheckEnd, CleanEnd, CommitEnd, EndList, EventEnd, EventFault,
    FaultStage, OpEnd, Pick, PickList, SetupEnd, TaskEnd,
};
pub use events::{Event, EventList, Op};
pub use files::FileList;
pub use known::{DrawnPart, DrawnUpload, Knowledge};
pub use plan::{JobPlan, TaskPlan, TaskSet};
pub use script::Script;
pub use states::{ActorStage, ActorState, Life};
