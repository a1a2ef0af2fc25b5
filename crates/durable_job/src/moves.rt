ghost use Rattle.std.specs.Prelude.{◌≡◌, ℕ, ◌<◌, List, length, is_some, IfOk, OnErr, refl};
ghost use Rattle.std.proofs.Common.{◌∙◌};
ghost use Rattle.s3_types.specs.Moment.{moment};
ghost use Rattle.s3_types.specs.Store.{Content};
ghost use Rattle.s3_types.specs.declared.journal.Entry.{Entry};
ghost use Rattle.job_states.specs.Turning.{KeepsLaws};
ghost use Rattle.durable_job.specs.Moves.{Stepped};
ghost use Rattle.durable_job.specs.inner.Moves.{Stays, left_of, TwinsStay, turns_left};

use job_actor::Works;
use job_world::World;
use s3_service::Service;
use s3_types::Journal;
use std::alloc::AllocError;
use twin_jobs::TwinWorld;
use twin_script::Side;

/// Something that moves step by step over a store and writes down all that it sends.
pub trait Moves {
    /// The store's content as the run began.
    ghost origin: { Self → Content };

    /// All entries so far.
    ghost sent: { Self → List Entry };

    /// The number of steps that are left.
    ghost left: { Self → ℕ };

    /// What every step keeps, as a relation between an earlier and a later state.
    ghost keeps: { Self → Self → Type 0 };

    /// The store as the requests so far have left it. Takes no memory.
    fn service(&self) -> &Service
        ensures { result.now ≡ (moment (origin self.now) (sent self.now) (length (sent self.now))).content };

    /// The journal: every send so far, in order. Takes no memory.
    fn journal(&self) -> &Journal
        ensures { result.now.entries ≡ sent self.now };

    /// Plays the next step, whose entries all belong to one event, and returns true; or returns
    /// false if no step is left. Fails with AllocError if memory runs out; then it has sent
    /// nothing, and steps are left.
    fn step(&mut self) -> Result<bool, AllocError>
        ensures origin { origin self.new ≡ origin self.old }
        ensures keeps { keeps self.old self.new }
        ensures ok { IfOk result (Stepped sent left self.old self.new) }
        ensures err { OnErr result (sent self.new ≡ sent self.old) }
        ensures short { OnErr result (0 < left self.new) };

    /// What each step keeps, any number of steps keep.
    ghost laws: { KeepsLaws keeps };
}

impl<W: Works> Moves for World<W> {
    ghost origin = { λ r. r.opening };

    ghost sent = { λ r. r.journal };

    ghost left = { left_of };

    ghost keeps = { Stays };

    ghost laws = { record {
      self = λ r. record { script = refl; count = refl };
      chain = λ r s t p q. record { script = q.script ∙ p.script; count = q.count ∙ p.count };
    } };

    fn service(&self) -> &Service {
        self.service()
    }

    fn journal(&self) -> &Journal {
        self.journal()
    }

    /// A step is the script's next event.
    fn step(&mut self) -> Result<bool, AllocError> {
        match self.next() {
            None => Ok(false),
            Some(event) => match self.event(&event) {
                Ok(()) => Ok(true),
                Err(error) => Err(error),
            },
        }
    }
}

/// Whether an event was played.
fn is_turn(turned: Option<Side>) -> bool
    ensures { result ≡ is_some turned }
{
    match turned {
        Some(_) => true,
        None => false,
    }
}

impl<W: Works> Moves for TwinWorld<W> {
    ghost origin = { λ r. r.opening };

    ghost sent = { λ r. r.journal };

    ghost left = { turns_left };

    ghost keeps = { TwinsStay };

    ghost laws = { record {
      self = λ r. record { first = refl; second = refl; sides = refl; count = refl };
      chain = λ r s t p q. record {
        first = q.first ∙ p.first;
        second = q.second ∙ p.second;
        sides = q.sides ∙ p.sides;
        count = q.count ∙ p.count;
      };
    } };

    fn service(&self) -> &Service {
        self.service()
    }

    fn journal(&self) -> &Journal {
        self.journal()
    }

    /// A step is the order's next event.
    fn step(&mut self) -> Result<bool, AllocError> {
        let Some(_) = self.next() else {
            return Ok(false);
        };
        match self.turn() {
            Ok(turned) => Ok(is_turn(turned)),
            Err(error) => Err(error),
        }
    }
}
