ghost use Rattle.std.specs.Prelude.{◌≡◌, ℕ, ◌+◌, ◌*◌, ◌<◌, ◌≤◌, List, ◌++◌, length, IfOk, IsErrOf};
ghost use Rattle.s3_types.specs.declared.journal.Entry.{Entry};
ghost use Rattle.s3_types.specs.Store.{Objects};
ghost use Rattle.s3_types.specs.declared.reply.Reply.{Reply};
ghost use Rattle.operations.specs.declared.plan.Step.{Step};
ghost use Rattle.operations.specs.Courses.{once, reached, unlost};
ghost use Rattle.operations.specs.Performed.{Performed, seen};
ghost use Rattle.bucket_ops.specs.Asks.{Ask, objects_at, request_of};
ghost use Rattle.bucket_ops.specs.Phases.{IsPhases, MayAsk, request, led, Holds, Gives, Always, GivesIn, AlwaysIn, SendsIn, Sends, left_at, left_in, Starts};

use machine::DriveStop;
use operations::{Plan, Step, perform};
use s3_types::{Actor, Bucket, Journal, ObjectStore, Reply, Request};
use std::alloc::{AllocError, Global};

/// An operation on the objects of one bucket, described by its stages. Self is what it names.
pub trait Phases: Drop {
    type Stage: Drop;

    type Answer: Drop;

    /// The first stage.
    ghost first: { Self → Self.Stage };

    /// The request of a stage to the bucket.
    ghost asks: { Self → Self.Stage → Ask };

    /// Where a reply leads.
    ghost goes: { Self → Self.Stage → Reply → Step Self.Stage Self.Answer };

    /// Started at those objects, it may be in this stage at these.
    ghost holds: { Self → Objects → Self.Stage → Objects → Type 0 };

    /// Started at those objects, it may give this answer and leave these.
    ghost gives: { Self → Objects → Self.Answer → Objects → Type 0 };

    /// Started at those objects, these may be there at any point between two requests.
    ghost always: { Self → Objects → Objects → Type 0 };

    /// Started at those objects, it may make this request.
    ghost sends: { Self → Objects → Ask → Type 0 };

    /// At most this many stages are to come.
    ghost left: { Self → Self.Stage → Objects → ℕ };

    /// The answer if there is no bucket.
    ghost absent: { Self.Answer };

    /// Returns the first stage. Takes no memory.
    fn start(&self) -> Self::Stage
        ensures { result ≡ first self.now };

    /// Returns the request of a stage.
    fn ask(&self, bucket: &Bucket, stage: &Self::Stage) -> Result<Request, AllocError>
        ensures { IfOk result (λ request. request ≡ request_of bucket.now (asks self.now stage.now)) };

    /// Returns where the reply leads.
    fn next(
        &self,
        stage: Self::Stage,
        reply: &Reply,
    ) -> Result<Step<Self::Stage, Self::Answer>, AllocError>
        ensures { IfOk result (λ step. step ≡ goes self.now stage reply.now) };

    /// The laws of these definitions; its stages make only requests that it may make. Does
    /// nothing.
    fn laws()
        ensures phases { IsPhases first asks goes holds gives always left absent }
        ensures asked { MayAsk asks holds sends };
}

/// An operation in a bucket, at a stage.
#[derive(Drop)]
pub struct InBucket<O, X> {
    pub bucket: Bucket,
    pub names: O,
    pub stage: X,
}

impl<O: Phases> Plan for InBucket<O, O::Stage> {
    type Answer = O::Answer;

    ghost starts = { Starts O.first };

    ghost asks = { request O.asks };

    ghost goes = { once (led O.goes) };

    ghost holds = { reached (request O.asks) (Holds O.first O.holds) };

    ghost gives = { Gives O.gives O.absent };

    ghost always = { Always O.always };

    ghost sends = { Sends O.first O.asks O.sends };

    ghost calm = { unlost (reached (request O.asks) (Holds O.first O.holds)) };

    ghost leaves = { Gives O.gives O.absent };

    ghost left = { left_in O.left };

    fn ask(&self) -> Result<Request, AllocError> {
        self.names.ask(&self.bucket, &self.stage)
    }

    fn next(
        self,
        reply: &Reply,
        _repeated: bool,
    ) -> Result<Step<InBucket<O, O::Stage>, O::Answer>, AllocError> {
        let InBucket {
            bucket,
            names,
            stage,
        } = self;
        match names.next(stage, reply)? {
            Step::Next(stage) => Ok(Step::Next(InBucket {
                bucket,
                names,
                stage,
            })),
            Step::End(answer) => Ok(Step::End(answer)),
        }
    }

    fn laws() {
        O::laws();
    }
}

/// Performs an operation on the objects of a bucket that is alone, whatever the store loses. Each
/// request is sent at most `retries + 1` times. Fails with StoreFault exactly if a request
/// exhausted its retries. The journal gains an entry for each send. Only the bucket's objects
/// change.
pub fn perform_in<O: Phases, S: ObjectStore>(
    alloc: Global,
    bucket: Bucket,
    names: O,
    retries: u32,
    store: &mut S,
    actor: Actor,
    event: u32,
    journal: &mut Journal,
) -> Result<O::Answer, DriveStop>
    requires counted { S.requests store.old ≤ length journal.old.entries }
    ensures given { IfOk result (λ answer. GivesIn bucket (O.gives names) O.absent (S.scene store.old) answer
        (S.scene store.new)) }
    ensures performed { Performed actor event retries (AlwaysIn bucket (O.always names) (S.scene store.old))
        (SendsIn bucket (O.asks names (O.first names)) (O.sends names) (S.scene store.old))
        (seen S.scene S.requests S.losses S.foretold store.old journal.old.entries)
        (seen S.scene S.requests S.losses S.foretold store.new journal.new.entries) result }
    ensures few { (part : List Entry) → journal.new.entries ≡ journal.old.entries ++ part → length part
        ≤ (left_at (objects_at (S.scene store.old) bucket) O.left names (O.first names) + 1) * (retries + 1) }
    ensures fault { IsErrOf result DriveStop.StoreFault → S.losses store.old < S.losses store.new }
{
    let stage = names.start();
    let plan = InBucket {
        bucket,
        names,
        stage,
    };
    match perform(alloc, plan, retries, store, actor, event, journal) {
        Ok(answer) => Ok(answer),
        Err(stop) => Err(stop),
    }
}
