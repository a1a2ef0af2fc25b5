ghost use Rattle.std.specs.Prelude.{◌≡◌, ◌≢◌, ◌≤◌, ◌<◌, ◌+◌, ◌^◌, ◌++◌, ◌∷◌, [], length, IfOk, OnOk};
ghost use Rattle.s3_types.specs.Store.{opening};
ghost use Rattle.s3_types.specs.Answer.{answer, apply};
ghost use Rattle.bucket_ops.specs.Asks.{objects_at};
ghost use Rattle.bucket_ops.specs.Phases.{GivesIn, AlwaysIn, SendsIn, left_at};
ghost use Rattle.s3_service.specs.Ids.{AreBelow};
ghost use Rattle.s3a_shell.specs.inner.Sendings.{IsCounted, Sent, Asked, AtMost, answered_by};

use bucket_ops::{Phases, perform_in};
use machine::DriveStop;
use path_keys::S3Path;
use s3_service::Service;
use s3_types::{Actor, Entry, Journal, Outcome, Reply, Request};
use std::alloc::{AllocError, Global};
use store_link::MemStore;

/// The event of all requests of the shell.
pub(crate) const EVENT: u32 = 0;

/// The shell sends no request again: a store in memory answers each.
pub(crate) const RETRIES: u32 = 0;

/// A store on which a command is done, and the requests that were sent to it.
#[derive(Drop)]
pub(crate) struct Session {
    pub(crate) alloc: Global,
    pub(crate) store: MemStore,
    pub(crate) journal: Journal,
}

/// The error for memory that ran out. Nothing else stops an operation whose requests are all
/// answered.
pub(crate) fn wanting(stop: DriveStop) -> AllocError
    requires { stop ≢ DriveStop.StoreFault }
{
    let _ = stop;
    AllocError
}

impl Session {
    /// A session in which nothing was sent yet. Takes no memory.
    pub(crate) fn new(alloc: Global, service: Service) -> Session
        requires few { service.next ≤ 2 ^ 62 }
        ensures scene { result.store.scene ≡ opening service }
        ensures entries { result.journal.entries ≡ [] }
        ensures counted { IsCounted result }
        ensures below { AreBelow service.buckets service.next }
    {
        let _ = service.next_upload();
        Session {
            alloc,
            store: MemStore::new(alloc, service),
            journal: Journal::new(alloc),
        }
    }

    /// Performs an operation on the bucket of a path.
    pub(crate) fn perform_at<O: Phases>(
        &mut self,
        path: &S3Path,
        operation: O,
    ) -> Result<O::Answer, AllocError>
        requires counted { IsCounted self.old }
        ensures given { IfOk result (λ answer. GivesIn path.now.bucket (O.gives operation) O.absent self.old.store.scene
            answer self.new.store.scene) }
        ensures asked { OnOk result (Asked
            (SendsIn path.now.bucket (O.asks operation (O.first operation)) (O.sends operation) self.old.store.scene)
            self.old self.new) }
        ensures few { OnOk result (AtMost
            (left_at (objects_at self.old.store.scene path.now.bucket) O.left operation (O.first operation) + 1)
            self.old self.new) }
        ensures sent { OnOk result (Sent (AlwaysIn path.now.bucket (O.always operation) self.old.store.scene)
            self.old self.new) }
    {
        let bucket = path.bucket().clone()?;
        match perform_in(
            self.alloc,
            bucket,
            operation,
            RETRIES,
            &mut self.store,
            Actor::Shell,
            EVENT,
            &mut self.journal,
        ) {
            Ok(answer) => Ok(answer),
            Err(stop) => Err(wanting(stop)),
        }
    }

    /// Applies a request to the store, after making room for its entry in the journal.
    pub(crate) fn answered(&mut self, request: &Request) -> Result<Reply, AllocError>
        requires counted { IsCounted self.old }
        ensures reply { IfOk result (λ reply. reply ≡ answer self.old.store.scene request.now) }
        ensures scene { OnOk result (self.new.store.scene ≡ apply self.old.store.scene request.now) }
        ensures requests { OnOk result (self.new.store.requests ≡ self.old.store.requests + 1) }
        ensures entries { self.new.journal.entries ≡ self.old.journal.entries }
        ensures room { OnOk result (0 < self.new.journal.room) }
        ensures few { OnOk result (length self.new.journal.entries + 1 < 2 ^ 62) }
    {
        self.journal.reserve()?;
        self.store.apply(request)
    }

    /// Writes a request and its reply into the journal. Takes no memory.
    pub(crate) fn write_down(&mut self, request: Request, reply: Reply)
        requires room { 0 < self.old.journal.room }
        requires few { length self.old.journal.entries + 1 < 2 ^ 62 }
        ensures entries { self.new.journal.entries ≡ self.old.journal.entries ++ answered_by request reply ∷ [] }
        ensures store { self.new.store ≡ self.old.store }
    {
        self.journal.push(Entry {
            event: EVENT,
            actor: Actor::Shell,
            request,
            outcome: Outcome::Answered(reply),
        });
    }
}
