ghost use Rattle.std.specs.Prelude.{◌≡◌, ℕ, ◌≤◌, List, length, true, IfOk};
ghost use Rattle.machine.specs.Standing.{Fine};
ghost use Rattle.machine.specs.Counted.{Counted};
ghost use Rattle.machine.specs.Drove.{Drove};
ghost use Rattle.block_stream.specs.Stream.{wanted, moved, standing};
ghost use Rattle.block_stream.specs.Holds.{Holds, IsReady};
ghost use Rattle.block_stream.specs.Stored.{IsStored, IsSameOutput};

use crate::stream::BlockStream;
use machine::{DriveStop, Retrying, drive};
use s3_types::{Actor, Journal, ObjectStore};
use std::alloc::Global;

/// Drives a stream until it sends nothing more, if nobody else uses its upload. What was written
/// stays held, whatever the store loses. If the stream is closed and no request exhausts its
/// retries, it is then stored: the object, or the parts of the live upload joined in order, are the
/// bytes of all pieces joined.
pub fn drive_stream<S: ObjectStore>(
    alloc: Global,
    stream: &mut Retrying<BlockStream>,
    store: &mut S,
    actor: Actor,
    event: u32,
    journal: &mut Journal,
) -> Result<(), DriveStop>
    requires ready { IsReady stream.old.machine (S.scene store.old) stream.old.repeated }
    requires counted { S.requests store.old ≤ length journal.old.entries }
    ensures drove { Drove wanted moved IsReady standing actor event stream.old stream.new (S.scene store.old)
        (S.scene store.new) journal.old.entries journal.new.entries (S.losses store.old) (S.losses store.new)
        (S.foretold store.old) (S.requests store.old) result }
    ensures counts { Counted journal.old.entries journal.new.entries (S.requests store.old) (S.requests store.new)
        (S.losses store.old) (S.losses store.new) (S.foretold store.old) (S.foretold store.new) }
    ensures same { IfOk result (λ _. IsSameOutput stream.old.machine stream.new.machine) }
    ensures holds { IfOk result (λ _. (bytes : List ℕ)
        → Holds stream.old.machine (S.scene store.old) stream.old.repeated bytes
        → Holds stream.new.machine (S.scene store.new) stream.new.repeated bytes) }
    ensures stored { IfOk result (λ _. stream.old.machine.closed ≡ true → standing stream.old.machine ≡ Fine
        → (bytes : List ℕ) → Holds stream.old.machine (S.scene store.old) stream.old.repeated bytes
        → IsStored stream.new.machine (S.scene store.new) bytes) }
{
    drive(alloc, stream, store, actor, event, journal)
}
