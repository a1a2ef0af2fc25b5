ghost use Rattle.std.specs.Prelude.{◌≡◌, ◌≤◌, [], ◌∷◌, length, drop, IfErr, OnOk, OnErr, IsErrOf};
ghost use Rattle.devices.specs.Devices.{Rose};
ghost use Rattle.devices.specs.Logged.{IsDurable, CrashesLeave};
ghost use Rattle.journal_log.specs.Changes.{changes};
ghost use Rattle.journal_log.specs.Kept.{HoldsGrownBy, HoldsSome};
ghost use Rattle.journal_log.specs.Crashes.{IsBetween};
ghost use Rattle.journal_log.specs.inner.Appends.{Appended};
ghost use Rattle.journal_log.specs.Appends.{AreAnswered, Stopped};

use crate::changing::change_of;
use devices::kept::{Shelf, ShelfStop};
use s3_types::{Entry, Journal};

/// Appends the change of an entry, if it has one.
fn append_entry<F: Shelf>(shelf: &mut F, entry: &Entry) -> Result<(), ShelfStop>
    requires appends { F.takes_appends shelf.old }
    requires durable { IsDurable (F.sight.held shelf.old) (F.sight.may_leave shelf.old) }
    ensures ok { OnOk result (Appended F.sight (changes (entry.now ∷ [])) shelf.old shelf.new) }
    ensures err { IfErr result (λ e. Stopped F.sight e (changes (entry.now ∷ []))
        shelf.old shelf.new) }
    ensures appends { (IsErrOf result ShelfStop.Failed → ⊥) → F.takes_appends shelf.new }
    ensures any_moment { CrashesLeave F.sight shelf.old shelf.new
        (IsBetween (F.sight.held shelf.old) (changes (entry.now ∷ []))) }
    ensures failed { IsErrOf result ShelfStop.Failed → Rose (F.faults shelf.old) (F.faults shelf.new) }
    ensures calm { (IsErrOf result ShelfStop.Failed → ⊥) → F.faults shelf.new ≡ F.faults shelf.old }
{
    match change_of(entry) {
        Some(change) => shelf.append(change),
        None => Ok(()),
    }
}

/// Appends the changes of the journal's entries from the place `from` (counted from 0) on, in
/// order, with one call each. After `Ok` all of them were appended, and a crash leaves them. A
/// crash within the call leaves what was held before it, or that with the first of these changes.
///
/// Fails with `Failed` only if the shelf's count of faults rose, and with `NoMemory` if memory runs
/// out for an append. Then the changes before the one whose append failed were appended. After
/// `Failed` that change may have been appended too.
pub fn append_all<F: Shelf>(shelf: &mut F, journal: &Journal, from: usize) -> Result<(), ShelfStop>
    requires within { from ≤ length journal.now.entries }
    requires appends { F.takes_appends shelf.old }
    requires durable { IsDurable (F.sight.held shelf.old) (F.sight.may_leave shelf.old) }
    ensures grown { OnOk result (HoldsGrownBy (F.sight.held shelf.old) (F.sight.held shelf.new)
        (changes (drop from journal.now.entries))) }
    ensures durable { OnOk result (IsDurable (F.sight.held shelf.new) (F.sight.may_leave shelf.new)) }
    ensures answered { OnOk result (AreAnswered F.sight (changes (drop from journal.now.entries))
        shelf.old shelf.new) }
    ensures partly { OnErr result (HoldsSome (F.sight.held shelf.old) (F.sight.held shelf.new)
        (changes (drop from journal.now.entries))) }
    ensures stopped { IfErr result (λ e. Stopped F.sight e (changes (drop from journal.now.entries))
        shelf.old shelf.new) }
    ensures appends { (IsErrOf result ShelfStop.Failed → ⊥) → F.takes_appends shelf.new }
    ensures any_moment { CrashesLeave F.sight shelf.old shelf.new
        (IsBetween (F.sight.held shelf.old) (changes (drop from journal.now.entries))) }
    ensures failed { IsErrOf result ShelfStop.Failed → Rose (F.faults shelf.old) (F.faults shelf.new) }
    ensures calm { (IsErrOf result ShelfStop.Failed → ⊥) → F.faults shelf.new ≡ F.faults shelf.old }
{
    let entries = &journal.as_slice()[from..];
    for entry in entries {
        append_entry(shelf, entry)?;
    }
    Ok(())
}
