ghost use Rattle.std.specs.Prelude.{◌≡◌, ◌+◌, ◌<◌, ◌^◌, Some, None};
ghost use Rattle.job_commit.specs.inner.Stages.{missed_in, lost_in, counted, wanting};

use commit_lanes::{Lanes, UndoList};
use conflict::DeleteKept;
use job_model::CommitEnd;
use s3_types::{Request, put};
use std::mem;

/// The current step of a job's commit. Each number counts the sends of the current request that got
/// no answer.
#[derive(Drop)]
pub enum Step {
    /// Reads the next task's set.
    Fetching(u32),
    /// Deletes what the job's mode does not keep.
    Replacing(DeleteKept, u32),
    /// Completes uploads.
    Completing(Lanes),
    /// Puts the marker.
    Marking(u32),
    /// Reverts, because a completion exhausted its retries.
    Reverting(UndoList, u32),
    Over(CommitEnd),
}

/// The next step of a commit, and the request that it sends.
#[derive(Drop)]
pub struct Next {
    pub step: Step,
    pub asked: Option<Request>,
}

impl Next {
    /// Returns the step of a commit that ended because memory ran out.
    pub fn wanting() -> Next
        ensures { result ≡ wanting }
    {
        Next {
            step: Step::Over(CommitEnd::NoMemory),
            asked: None,
        }
    }

    /// Goes on with this step and this request.
    pub fn go_on(&mut self, step: Step, asked: Request)
        ensures { self.new ≡ record { step = step; asked = Some asked } }
    {
        put(&mut self.step, step);
        put(&mut self.asked, Some(asked));
    }

    /// Ends the commit with `end`.
    pub fn end(&mut self, end: CommitEnd)
        ensures { self.new ≡ record { step = Step.Over end; asked = None } }
    {
        put(&mut self.step, Step::Over(end));
        put(&mut self.asked, None);
    }

    /// Returns the step, and leaves in its place the end NoMemory.
    pub fn taken(&mut self) -> Step
        ensures result { result ≡ self.old.step }
        ensures rest { self.new ≡ wanting }
    {
        put(&mut self.asked, None);
        mem::replace(&mut self.step, Step::Over(CommitEnd::NoMemory))
    }
}

impl Step {
    /// Returns how many sends of the current request got no answer. Takes no memory.
    pub fn missed(&self) -> u32
        ensures { result ≡ missed_in self.now }
    {
        match self {
            Step::Fetching(missed) => *missed,
            Step::Replacing(_, missed) => *missed,
            Step::Completing(lanes) => match lanes.first() {
                Some(turn) => turn.missed(),
                None => 0,
            },
            Step::Marking(missed) => *missed,
            Step::Reverting(_, missed) => *missed,
            Step::Over(_) => 0,
        }
    }

    /// Returns whether a send of the current completion was lost. Takes no memory.
    pub fn lost(&self) -> bool
        ensures { result ≡ lost_in self.now }
    {
        match self {
            Step::Completing(lanes) => match lanes.first() {
                Some(turn) => turn.lost(),
                None => false,
            },
            _ => false,
        }
    }

    /// Counts one more send of the current request that got no answer. Lanes keep their own counts.
    /// Takes no memory.
    pub fn counted(self) -> Step
        requires { missed_in self + 1 < 2 ^ 32 }
        ensures { result ≡ counted self }
    {
        match self {
            Step::Fetching(missed) => Step::Fetching(missed + 1),
            Step::Replacing(deletion, missed) => Step::Replacing(deletion, missed + 1),
            Step::Completing(lanes) => Step::Completing(lanes),
            Step::Marking(missed) => Step::Marking(missed + 1),
            Step::Reverting(undo, missed) => Step::Reverting(undo, missed + 1),
            Step::Over(end) => Step::Over(end),
        }
    }
}
