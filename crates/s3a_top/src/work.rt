ghost use Rattle.std.specs.Prelude.{◌≡◌};
ghost use Rattle.exit_status.specs.Statuses.{written_text};
ghost use Rattle.durable_job.specs.Jobs.{nothing_told};
ghost use Rattle.s3a_top.specs.inner.Workings.{IsQuiet};

use durable_job::Told;
use durable_store::CommandAnswer;
use job_model::{EndList, PickList};
use std::alloc::Global;

/// What the program is to answer, with the ends and chosen attempts of the jobs that it ran.
#[derive(Drop)]
pub struct Work {
    pub answer: CommandAnswer,
    pub told: Told,
}

/// The `Told` of a program that ran no job: all its lists are empty.
fn nothing(alloc: Global) -> Told
    ensures { result ≡ nothing_told }
{
    Told {
        picks: PickList::new(alloc),
        ends: EndList::new(alloc),
        second_picks: PickList::new(alloc),
        second_ends: EndList::new(alloc),
    }
}

/// Makes the work of a command that ran no job.
pub fn quiet(alloc: Global, answer: CommandAnswer) -> Work
    ensures answer { result.answer ≡ answer }
    ensures quiet { IsQuiet result }
{
    Work {
        answer,
        told: nothing(alloc),
    }
}

impl Work {
    /// The text to write: the answer's own, or else the text of its status. Takes no memory.
    pub fn written(&self) -> &[u8]
        ensures { result.now ≡ written_text self.now.answer.due self.now.answer.text }
    {
        match &self.answer.text {
            Some(text) => text.as_slice(),
            None => match self.answer.due.own_text() {
                Some(text) => text.as_bytes(),
                None => &[],
            },
        }
    }
}
