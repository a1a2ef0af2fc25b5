ghost use Rattle.std.specs.Prelude.{◌≡◌, ◌∷◌, ◌≤◌, ◌^◌, IfOk};
ghost use Rattle.s3_types.specs.Store.{opening};
ghost use Rattle.s3_types.specs.declared.limits.TheConstants.{MOST_MINIMUM};
ghost use Rattle.job_run.specs.declared.hands.Hand.TheVariants.{Empty};
ghost use Rattle.job_run.specs.Firsts.{IsBegun, IsFirstShared, IsFirstSide, planned};

use crate::body::{Body, JobRun, Shared};
use crate::hands::Hand;
use job_actor::{Plan, Works};
use job_model::{PickList, Script};
use job_plans::task_plan;
use job_states::States;
use s3_service::Service;
use s3_types::{Journal, both, let_go};
use std::alloc::{AllocError, Global};
use store_link::{Lossy, MemStore};

/// What a script's actors have in hand before any event: the driver nothing, each attempt its plan.
/// `minimum` is the store's least size of a part, in bytes.
fn first_hands<W: Drop>(
    alloc: Global,
    script: &Script,
    minimum: u64,
) -> Result<Vec<Hand<W>>, AllocError>
    requires some { 1 ≤ minimum }
    requires most { minimum ≤ MOST_MINIMUM }
    ensures { IfOk result (λ hands. hands.items ≡ Empty ∷ planned script.now minimum) }
{
    let mut hands = Vec::new(alloc);
    hands.push(Hand::Empty)?;
    for place in 0..script.attempts.len() {
        let plan = task_plan(alloc, script, place, minimum)?;
        hands.push(Hand::Plan(Plan::Task(plan)))?;
    }
    Ok(hands)
}

/// A store with the same content that has received no request, and whose sends get the script's
/// fates.
fn first_store(alloc: Global, script: &Script, service: &Service) -> Result<Lossy, AllocError>
    requires few { service.now.next ≤ 2 ^ 62 }
    ensures { IfOk result (λ store. store ≡ record {
      scene = opening service.now;
      fates = script.now.fates;
      requests = 0;
      losses = 0;
    }) }
{
    let fates = script.fates.copied()?;
    let copy = service.copy()?;
    Ok(Lossy::new(MemStore::new(alloc, copy), fates))
}

impl<W: Drop> JobRun<W> {
    /// A side in which no event of the script has happened. `others` has the numbers of the run's
    /// events that belong to the other job; `shares` says whether that job has the same
    /// destination. `minimum` is the store's least size of a part, in bytes. Fails with AllocError
    /// only if memory runs out.
    pub fn new(
        alloc: Global,
        script: Script,
        others: Vec<u32>,
        shares: bool,
        minimum: u64,
    ) -> Result<JobRun<W>, AllocError>
        requires some { 1 ≤ minimum }
        requires most { minimum ≤ MOST_MINIMUM }
        ensures script { IfOk result (λ side. side.script ≡ script) }
        ensures others { IfOk result (λ side. side.others.items ≡ others.items) }
        ensures shares { IfOk result (λ side. side.shares ≡ shares) }
        ensures first { IfOk result (IsFirstSide minimum) }
    {
        let made = both(
            first_hands(alloc, &script, minimum),
            States::new(alloc, &script),
        );
        let Ok((hands, states)) = made else {
            let_go(others);
            return Err(AllocError);
        };
        Ok(JobRun {
            script,
            others,
            shares,
            states,
            hands,
            ends: Vec::new(alloc),
            event: None,
            finished: Vec::new(alloc),
            picks: PickList::new(alloc),
        })
    }
}

impl Shared {
    /// A copy of the store to which nothing was sent yet, and whose sends get the script's fates.
    /// Fails with AllocError only if memory runs out.
    pub fn new(alloc: Global, script: &Script, service: Service) -> Result<Shared, AllocError>
        requires few { service.next ≤ 2 ^ 62 }
        ensures opening { IfOk result (λ shared. shared.opening ≡ service) }
        ensures first { IfOk result (IsFirstShared script.now) }
    {
        let Ok(store) = first_store(alloc, script, &service) else {
            let_go(service);
            return Err(AllocError);
        };
        Ok(Shared {
            alloc,
            opening: service,
            store,
            journal: Journal::new(alloc),
            events: 0,
        })
    }
}

impl<W: Works> Body<W> {
    /// A body in which nothing has happened yet, and in which every event belongs to the job. Fails
    /// with AllocError only if memory runs out.
    pub fn new(alloc: Global, script: Script, service: Service) -> Result<Body<W>, AllocError>
        requires few { service.next ≤ 2 ^ 62 }
        ensures { IfOk result (IsBegun W.wants W.is_of W.running W.picks_of script service) }
    {
        let side = JobRun::new(alloc, script, Vec::new(alloc), false, service.minimum())?;
        let Ok(shared) = Shared::new(alloc, &side.script, service) else {
            let_go(side);
            return Err(AllocError);
        };
        Ok(Body { side, shared })
    }
}
