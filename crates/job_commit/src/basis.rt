ghost use Rattle.std.specs.Prelude.{◌≡◌, []};

use commit_lanes::Place;
use job_model::JobPlan;
use pending_json::PendingSet;
use s3_types::{Sequence, let_go};
use std::alloc::Global;

/// The data of a job's commit: the job's plan, the sets that it has read, by task from 0 on, and,
/// once all are read, the places of their uploads.
#[derive(Drop)]
pub struct Basis {
    pub alloc: Global,
    pub plan: JobPlan,
    pub sets: Sequence<PendingSet>,
    pub places: Sequence<Place>,
}

impl Basis {
    /// Returns the data of a commit that has read no set.
    pub fn new(alloc: Global, plan: JobPlan) -> Basis
        ensures plan { result.plan ≡ plan }
        ensures sets { result.sets ≡ [] }
    {
        Basis {
            alloc,
            plan,
            sets: Sequence::new(alloc),
            places: Sequence::new(alloc),
        }
    }

    /// Returns the plan.
    pub fn into_plan(self) -> JobPlan
        ensures { result ≡ self.plan }
    {
        let Basis {
            alloc: _,
            plan,
            sets,
            places,
        } = self;
        let_go(sets);
        let_go(places);
        plan
    }
}
