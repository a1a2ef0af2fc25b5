ghost use Rattle.std.specs.Prelude.{◌≡◌};
ghost use Rattle.trace_reader.specs.Operations.{may_come};

use crate::operation::Operation;

/// How far a trace has come: the facts that decide which lines may follow.
#[derive(Clone, Copy, PartialEq, Eq, Debug)]
pub struct TraceStage {
    /// How many tasks the job has, once its line has come.
    pub tasks: Option<u32>,
    /// Whether an attempt's line has come.
    pub attempted: bool,
    /// Whether a change or the commit has come, so that attempts, files and opening objects may not
    /// follow.
    pub running: bool,
}

impl TraceStage {
    /// Returns whether a line of this operation may come next.
    pub fn may_come(self, operation: Operation) -> bool
        ensures { result ≡ may_come self operation }
    {
        match operation {
            Operation::Job => self.tasks.is_none(),
            Operation::Attempt => self.tasks.is_some() && !self.running,
            Operation::File => self.tasks.is_some() && (self.attempted && !self.running),
            Operation::Object => self.tasks.is_some() && !self.running,
            _ => self.tasks.is_some(),
        }
    }
}
