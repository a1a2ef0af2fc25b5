ghost use Rattle.std.specs.Prelude.{◌≡◌};
ghost use Rattle.durable_job.specs.Jobs.{dest_of};

use job_model::{EndList, PickList, Script};
use path_keys::S3Path;
use twin_script::Twins;

/// What is to be played: one job, or two jobs at one destination by the order of their turns.
#[derive(Drop)]
pub enum Jobs {
    One(Script),
    Two(Twins),
}

impl Jobs {
    /// The destination of the job, or the one that both jobs share.
    pub fn dest(&self) -> &S3Path
        ensures { result.now ≡ dest_of self.now }
    {
        match self {
            Jobs::One(script) => &script.dest,
            Jobs::Two(twins) => &twins.first.dest,
        }
    }
}

/// The picks of the job's commit and the ends of its events, and those of the second job. If there
/// is one job, the second lists are empty.
#[derive(Drop)]
pub struct Told {
    pub picks: PickList,
    pub ends: EndList,
    pub second_picks: PickList,
    pub second_ends: EndList,
}
