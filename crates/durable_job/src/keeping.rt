ghost use Rattle.std.specs.Prelude.{◌≡◌, ◌<◌, ◌^◌, ◌-◌, ◌⊎◌, [], Some, None, IfOk, IfErr, OnOk, OnErr};
ghost use Rattle.journal_log.specs.Images.{NotReplaced};
ghost use Rattle.durable_job.specs.Pace.{LacksSince};
ghost use Rattle.durable_job.specs.Played.{IsHeld, Survives, Counts};

use crate::events::play_over;
use crate::moves::Moves;
use devices::kept::{Shelf, ShelfStop};
use journal_log::put_image;
use std::alloc::Global;

/// Replaces what the shelf holds by the image of the opening store, and plays all remaining steps.
/// Returns why it stopped early, or None if it did not. Fails if the shelf did not take the image,
/// or memory ran out before it did; then nothing was sent.
pub fn keep<M: Moves, F: Shelf>(
    alloc: Global,
    shelf: &mut F,
    moved: &mut M,
) -> Result<Option<ShelfStop>, ShelfStop>
    requires sent { M.sent moved.old ≡ [] }
    requires count { F.faults shelf.old < 2 ^ 64 - 1 }
    ensures origin { OnOk result (M.origin moved.new ≡ M.origin moved.old) }
    ensures keeps { OnOk result (M.keeps moved.old moved.new) }
    ensures over { IfOk result (λ stop. stop ≡ None → M.left moved.new ≡ 0) }
    ensures short { IfOk result (λ stop. stop ≡ Some ShelfStop.NoMemory → (0 < M.left moved.new)
        ⊎ LacksSince F.sight (M.origin moved.old) (M.sent moved.new) shelf.old shelf.new) }
    ensures held { IfOk result (λ stop. IsHeld F.sight (M.origin moved.old) (M.sent moved.new) stop shelf.old
        shelf.new) }
    ensures survives { OnOk result (Survives F.sight (M.origin moved.old) (M.sent moved.new) shelf.old shelf.new) }
    ensures counted { IfOk result (λ stop. Counts stop (F.faults shelf.old) (F.faults shelf.new)) }
    ensures err { OnErr result (NotReplaced F.sight (M.origin moved.old) shelf.old shelf.new) }
    ensures faults { IfErr result (λ stop. Counts (Some stop) (F.faults shelf.old) (F.faults shelf.new)) }
{
    match put_image(alloc, shelf, moved.service()) {
        Ok(()) => {}
        Err(stop) => return Err(stop),
    }
    match play_over(shelf, moved) {
        Ok(()) => Ok(None),
        Err(fault) => Ok(Some(fault)),
    }
}
