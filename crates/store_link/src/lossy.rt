ghost use Rattle.std.specs.Prelude.{◌≡◌, ℕ, ◌+◌, ◌<◌, ◌≤◌, ◌^◌, cond, IfOk, OnOk, OnErr, Some};
ghost use Rattle.s3_types.specs.Answer.{answer};
ghost use Rattle.s3_types.specs.Fates.{fate_at};
ghost use Rattle.s3_types.specs.Foretold.{fate_of};
ghost use Rattle.s3_types.specs.Moment.{effect, is_unanswered, IsHonestOutcome};

use crate::mem::MemStore;
use s3_service::Service;
use s3_types::{Fate, Fates, ObjectStore, Outcome, Request};
use std::alloc::AllocError;
use std::marker::Model;

/// A store whose sends have the fates that were given before. Sends are counted from 1. A send
/// that runs out of memory is not counted.
#[derive(Drop)]
pub struct Lossy {
    store: MemStore,
    fates: Fates,
    requests: u64,
    losses: u64,
}

impl Model for Lossy {
    ghost use Rattle.std.specs.Prelude.{◌≤◌};
    ghost use Rattle.store_link.specs.Link.{LossyLink, coded_lossy};

    ghost Value = { LossyLink };

    ghost coded = { coded_lossy };

    ghost view = { λ s. record { scene = s.store.scene; fates = s.fates; requests = s.requests; losses = s.losses } };

    ghost invariant = { λ s. (s.store.requests ≤ s.requests) × (s.losses ≤ s.requests) };
}

/// Makes a send with this fate.
fn sent(store: &mut MemStore, fate: Fate, request: &Request) -> Result<Outcome, AllocError>
    requires { store.old.requests < 2 ^ 62 }
    ensures fate { IfOk result (λ outcome. fate_of outcome ≡ fate) }
    ensures honest { IfOk result (λ outcome. IsHonestOutcome outcome (answer store.old.scene request.now)) }
    ensures scene { IfOk result (λ outcome. store.new.scene ≡ effect store.old.scene request.now outcome) }
    ensures count { store.new.requests ≤ store.old.requests + 1 }
    ensures err { OnErr result (store.new ≡ store.old) }
{
    match fate {
        Fate::Answer => Ok(Outcome::Answered(store.apply(request)?)),
        Fate::Slow => Ok(Outcome::Slow),
        Fate::Before => Ok(Outcome::RequestLost),
        Fate::After => {
            let _ = store.apply(request)?;
            Ok(Outcome::ReplyLost)
        }
    }
}

/// Returns the count of losses after an outcome.
fn losses_after(losses: u64, outcome: &Outcome) -> u64
    requires { losses < 2 ^ 62 }
    ensures { result ≡ cond (is_unanswered outcome.now) (losses + 1) losses }
{
    match outcome {
        Outcome::Answered(_) => losses,
        Outcome::Slow => losses + 1,
        Outcome::RequestLost => losses + 1,
        Outcome::ReplyLost => losses + 1,
    }
}

impl Lossy {
    /// A store to which no request was made yet, with the fates of the sends to come. Takes no
    /// memory.
    pub fn new(store: MemStore, fates: Fates) -> Lossy
        requires { store.requests ≡ 0 }
        ensures { result ≡ record { scene = store.scene; fates = fates; requests = 0; losses = 0 } }
    {
        Lossy {
            store,
            fates,
            requests: 0,
            losses: 0,
        }
    }

    /// Returns the fate of the n-th send. Takes no memory.
    pub fn fate(&self, n: u64) -> Fate
        ensures { result ≡ fate_at self.now.fates n }
    {
        self.fates.at(n)
    }

    /// Returns the store. Takes no memory.
    pub fn service(&self) -> &Service
        ensures { result.now ≡ self.now.scene.content }
    {
        self.store.service()
    }

    /// Gives the store back. Takes no memory.
    pub fn into_service(self) -> Service
        ensures { result ≡ self.scene.content }
    {
        self.store.into_service()
    }
}

impl ObjectStore for Lossy {
    ghost scene = { λ s. s.scene };

    ghost requests = { λ s. s.requests };

    ghost losses = { λ s. s.losses };

    ghost foretold = { λ s n. Some (fate_at s.fates n) };

    fn request(&mut self, request: &Request) -> Result<Outcome, AllocError> {
        let fate = self.fates.at(self.requests + 1);
        let outcome = sent(&mut self.store, fate, request)?;
        self.requests += 1;
        self.losses = losses_after(self.losses, &outcome);
        Ok(outcome)
    }
}
