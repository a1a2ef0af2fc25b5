ghost use Rattle.std.specs.Prelude.{◌≡◌, ◌<◌, ◌⊎◌, [], OnOk, OnErr, IsErrOf};
ghost use Rattle.devices.specs.Devices.{Rose};
ghost use Rattle.devices.specs.Logged.{IsDurable};
ghost use Rattle.journal_log.specs.Kept.{Holds};
ghost use Rattle.durable_job.specs.Pace.{InPace, Behind, Lacks};

use crate::moves::Moves;
use devices::kept::{Shelf, ShelfStop};
use journal_log::append_all;

/// Plays all remaining steps, and appends after each one what it changed. It stops early if an
/// append fails or memory runs out. If memory ran out, a step is left or the shelf lacks a change.
pub fn play_over<M: Moves, F: Shelf>(shelf: &mut F, world: &mut M) -> Result<(), ShelfStop>
    requires sent { M.sent world.old ≡ [] }
    requires holds { Holds (F.sight.held shelf.old) (M.origin world.old) [] }
    requires appends { F.takes_appends shelf.old }
    requires durable { IsDurable (F.sight.held shelf.old) (F.sight.may_leave shelf.old) }
    ensures origin { M.origin world.new ≡ M.origin world.old }
    ensures keeps { M.keeps world.old world.new }
    ensures ok { OnOk result (InPace F.sight (M.origin world.old) (M.sent world.new) shelf.old shelf.new) }
    ensures over { OnOk result (M.left world.new ≡ 0) }
    ensures short { IsErrOf result ShelfStop.NoMemory → (0 < M.left world.new)
        ⊎ Lacks F.sight (M.origin world.old) (M.sent world.new) shelf.old shelf.new }
    ensures err { OnErr result (Behind F.sight (M.origin world.old) (M.sent world.new) shelf.old shelf.new) }
    ensures failed { IsErrOf result ShelfStop.Failed → Rose (F.faults shelf.old) (F.faults shelf.new) }
    ensures calm { (IsErrOf result ShelfStop.Failed → ⊥) → F.faults shelf.new ≡ F.faults shelf.old }
{
    'steps: loop {
        let from = world.journal().len();
        match world.step() {
            Ok(true) => {}
            Ok(false) => return Ok(()),
            Err(_) => return Err(ShelfStop::NoMemory),
        }
        let journal = world.journal();
        append_all(shelf, journal, from)?;
    }
}
