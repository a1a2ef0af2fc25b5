ghost use Rattle.std.specs.Prelude.{◌≡◌, ◌⊎◌, ◌<◌, ◌-◌, ◌^◌, OnOk, OnErr};
ghost use Rattle.std.specs.List.{AllByRecursion};
ghost use Rattle.devices.specs.Logged.{IsDurable, CrashesLeave};
ghost use Rattle.journal_log.specs.Changes.{changes};
ghost use Rattle.journal_log.specs.Kept.{IsMoment, Holds, HoldsPart};
ghost use Rattle.journal_log.specs.Crashes.{WhereTold};
ghost use Rattle.journal_log.specs.Appends.{AreCalled, AreCut};
ghost use Rattle.journal_log.specs.Images.{Counts};

use devices::kept::{Shelf, ShelfStop};
use journal_log::{append_all, put_image};
use s3_service::Service;
use s3_types::Journal;
use std::alloc::Global;

/// Saves a store with what was sent to it in event 0. First its image replaces what the shelf
/// holds, and then the shelf takes each change of the journal with one call. After `Ok` a crash
/// leaves all of them. A crash within the call leaves what a crash before it may leave, or some
/// point between two changes.
///
/// Fails with `Failed` only if the shelf's count of faults rose, and with `NoMemory` if memory runs
/// out for the image or an append. After an error the shelf holds what it held, or the store with
/// the first of the changes.
pub fn save<F: Shelf>(
    alloc: Global,
    shelf: &mut F,
    opening: &Service,
    journal: &Journal,
) -> Result<(), ShelfStop>
    requires count { F.faults shelf.old < 2 ^ 64 - 1 }
    requires one_event { AllByRecursion (λ e. e.event ≡ 0) journal.now.entries }
    ensures ok { OnOk result (Holds (F.sight.held shelf.new) opening.now (changes journal.now.entries)) }
    ensures durable { OnOk result (IsDurable (F.sight.held shelf.new) (F.sight.may_leave shelf.new)) }
    ensures called { OnOk result (AreCalled F.sight (changes journal.now.entries) shelf.old shelf.new) }
    ensures err { OnErr result ((F.sight.held shelf.new ≡ F.sight.held shelf.old)
        ⊎ HoldsPart (F.sight.held shelf.new) opening.now journal.now.entries) }
    ensures cut { OnErr result (AreCut F.sight (changes journal.now.entries) shelf.old shelf.new) }
    ensures any_moment { CrashesLeave F.sight shelf.old shelf.new
        (λ h. WhereTold (F.sight.held shelf.new)
        (F.sight.may_leave shelf.old h ⊎ IsMoment opening.now journal.now.entries h)) }
    ensures counted { Counts result (F.faults shelf.old) (F.faults shelf.new) }
{
    put_image(alloc, shelf, opening)?;
    append_all(shelf, journal, 0)
}
