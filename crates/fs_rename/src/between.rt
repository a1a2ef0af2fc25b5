ghost use Rattle.std.specs.Prelude.{◌≡◌, ℕ, ◌+◌, ◌*◌, ◌<◌, ◌≤◌, List, ◌++◌, length, IfOk, IsErrOf};
ghost use Rattle.s3_types.specs.declared.journal.Entry.{Entry};
ghost use Rattle.operations.specs.Performed.{Performed, seen};
ghost use Rattle.bucket_ops.specs.Asks.{objects_at};
ghost use Rattle.bucket_ops.specs.Phases.{AlwaysIn, SendsIn, left_at};
ghost use Rattle.fs_rename.specs.Between.{GivesBetween};

use bucket_ops::{Phases, perform_in};
use machine::DriveStop;
use s3_types::{Actor, Bucket, Journal, ObjectStore, let_go};
use std::alloc::Global;

/// Performs an operation on the objects of a bucket as `perform_in` does, if its target is in the
/// same bucket. If it is in another, nothing is sent, and the answer is `refused`.
pub fn perform_between<O: Phases, S: ObjectStore>(
    alloc: Global,
    bucket: Bucket,
    to_bucket: Bucket,
    names: O,
    refused: O::Answer,
    retries: u32,
    store: &mut S,
    actor: Actor,
    event: u32,
    journal: &mut Journal,
) -> Result<O::Answer, DriveStop>
    requires counted { S.requests store.old ≤ length journal.old.entries }
    ensures given { IfOk result (λ answer. GivesBetween bucket to_bucket (O.gives names) O.absent refused
        (S.scene store.old) answer (S.scene store.new)) }
    ensures performed { Performed actor event retries (AlwaysIn bucket (O.always names) (S.scene store.old))
        (SendsIn bucket (O.asks names (O.first names)) (O.sends names) (S.scene store.old))
        (seen S.scene S.requests S.losses S.foretold store.old journal.old.entries)
        (seen S.scene S.requests S.losses S.foretold store.new journal.new.entries) result }
    ensures fault { IsErrOf result DriveStop.StoreFault → S.losses store.old < S.losses store.new }
    ensures few { (part : List Entry) → journal.new.entries ≡ journal.old.entries ++ part → length part
        ≤ (left_at (objects_at (S.scene store.old) bucket) O.left names (O.first names) + 1) * (retries + 1) }
    ensures unsent { (bucket ≡ to_bucket → ⊥) → journal.new.entries ≡ journal.old.entries }
{
    if bucket != to_bucket {
        O::laws();
        let_go(bucket);
        let_go(to_bucket);
        let_go(names);
        return Ok(refused);
    }
    let_go(to_bucket);
    let_go(refused);
    match perform_in(alloc, bucket, names, retries, store, actor, event, journal) {
        Ok(answer) => Ok(answer),
        Err(stop) => Err(stop),
    }
}
