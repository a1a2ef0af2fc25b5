ghost use Rattle.std.specs.Prelude.{◌≡◌, ◌+◌, ◌*◌, ◌<◌, ◌≤◌, List, ◌++◌, length, IfOk, OnOk, IsErrOf, Ok, Err};
ghost use Rattle.s3_types.specs.declared.journal.Entry.{Entry};
ghost use Rattle.machine.specs.Counted.{AreAnswered};
ghost use Rattle.operations.specs.Performed.{Performed, seen};

use crate::operation::{Operation, OperationStage};
use crate::plan::Plan;
use machine::{DriveStop, Retrying, drive};
use s3_types::{Actor, Journal, ObjectStore};
use std::alloc::Global;

/// Returns the answer of an operation that was driven to its end.
fn answer_of<P: Drop, A: Drop>(
    driven: Result<(), DriveStop>,
    stage: OperationStage<P, A>,
) -> Result<A, DriveStop>
    ensures driven { OnOk result (driven ≡ Ok tt) }
    ensures answer { IfOk result (λ answer. stage ≡ OperationStage.Over answer) }
    ensures fault { IsErrOf result DriveStop.StoreFault → driven ≡ Err DriveStop.StoreFault }
{
    if let Err(stop) = driven {
        return Err(stop);
    }
    match stage {
        OperationStage::Over(answer) => Ok(answer),
        _ => Err(DriveStop::NoMemory),
    }
}

/// Performs an operation that is alone, whatever the store loses. Each request is sent at most
/// `retries + 1` times. Fails with StoreFault exactly if a request exhausted its retries. The
/// journal gains an entry for each send, at most `retries + 1` for the first phase and for each
/// phase to come. The clause `answered` says what it leaves if each send was answered.
pub fn perform<P: Plan, S: ObjectStore>(
    alloc: Global,
    plan: P,
    retries: u32,
    store: &mut S,
    actor: Actor,
    event: u32,
    journal: &mut Journal,
) -> Result<P::Answer, DriveStop>
    requires starts { P.starts plan }
    requires counted { S.requests store.old ≤ length journal.old.entries }
    ensures given { IfOk result (λ answer. P.gives plan (S.scene store.old) answer (S.scene store.new)) }
    ensures answered { IfOk result (λ answer. (part : List Entry) → journal.new.entries ≡ journal.old.entries ++ part
        → AreAnswered part → P.leaves plan (S.scene store.old) answer (S.scene store.new)) }
    ensures performed { Performed actor event retries (P.always plan (S.scene store.old))
        (P.sends plan (S.scene store.old)) (seen S.scene S.requests S.losses S.foretold store.old journal.old.entries)
        (seen S.scene S.requests S.losses S.foretold store.new journal.new.entries) result }
    ensures few { (part : List Entry) → journal.new.entries ≡ journal.old.entries ++ part
        → length part ≤ (P.left plan (S.scene store.old) + 1) * (retries + 1) }
    ensures fault { IsErrOf result DriveStop.StoreFault → S.losses store.old < S.losses store.new }
{
    P::laws();
    let operation = match Operation::new(plan) {
        Ok(operation) => operation,
        Err(_) => return Err(DriveStop::NoMemory),
    };
    let mut retrying = Retrying::new(operation, retries);
    let driven = drive(alloc, &mut retrying, store, actor, event, journal);
    let stage = retrying.into_inner().into_stage();
    match answer_of(driven, stage) {
        Ok(answer) => Ok(answer),
        Err(stop) => Err(stop),
    }
}
