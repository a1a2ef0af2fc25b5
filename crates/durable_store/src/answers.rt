ghost use Rattle.std.specs.Prelude.{◌≡◌, ◌<◌, ◌-◌, ◌^◌};
ghost use Rattle.std.specs.List.{AllByRecursion};
ghost use Rattle.exit_status.specs.Statuses.{code};
ghost use Rattle.devices.specs.Logged.{CrashesLeave};
ghost use Rattle.journal_log.specs.Made.{KeepsImages};
ghost use Rattle.durable_store.specs.Works as works;
ghost use Rattle.durable_store.specs.Doing.{work_in};
ghost use Rattle.durable_store.specs.inner.Outcomes.{status_of, text_at};
ghost use Rattle.durable_store.specs.Outcomes.{IsAnswer, IsHeld, HasImages, MightLeave, IsDurableNow, CallsBy, Tells};

use crate::saving::save;
use crate::work::{CommandAnswer, Work};
use devices::kept::{Shelf, ShelfStop};
use exit_status::Status;
use journal_log::keeps_images;
use s3_service::Service;
use s3_types::{Bytes, Journal, let_go};
use std::alloc::Global;

/// The status for the result of a save.
fn status_of(saved: Result<(), ShelfStop>) -> Status
    ensures { result ≡ status_of saved }
{
    match saved {
        Ok(()) => Status::Done,
        Err(ShelfStop::Failed) => Status::ShelfFault,
        Err(ShelfStop::NoMemory) => Status::NoMemory,
    }
}

/// The text, if the work was done.
fn text_at(due: Status, text: Bytes) -> Option<Bytes>
    ensures { result ≡ text_at due text }
{
    match due {
        Status::Done => Some(text),
        _ => {
            let_go(text);
            None
        }
    }
}

/// Saves a store with what was sent to it, and returns the answer with its text.
fn keep<F: Shelf>(
    alloc: Global,
    shelf: &mut F,
    opening: &Service,
    text: Bytes,
    sent: Journal,
) -> CommandAnswer
    requires count { F.faults shelf.old < 2 ^ 64 - 1 }
    requires one_event { AllByRecursion (λ e. e.event ≡ 0) sent.entries }
    ensures answer { IsAnswer (works.Saves opening.now text sent.entries) result.due result.text result.sent.entries }
    ensures held { IsHeld (works.Saves opening.now text sent.entries) result.due (F.sight.held shelf.old)
        (F.sight.held shelf.new) }
    ensures images { KeepsImages opening.now sent.entries }
    ensures calls { CallsBy F.sight (works.Saves opening.now text sent.entries) result.due
        shelf.old shelf.new }
    ensures any_moment { CrashesLeave F.sight shelf.old shelf.new
        (MightLeave (works.Saves opening.now text sent.entries) (F.sight.held shelf.new)
        (F.sight.may_leave shelf.old)) }
    ensures durable { IsDurableNow (works.Saves opening.now text sent.entries) result.due (F.sight.held shelf.new)
        (F.sight.may_leave shelf.new) }
    ensures counted { Tells 5 (code result.due) (F.faults shelf.old) (F.faults shelf.new) }
{
    keeps_images(&sent);
    let due = status_of(save(alloc, shelf, opening, &sent));
    CommandAnswer {
        due,
        text: text_at(due, text),
        sent,
    }
}

/// Does the work of a command on a shelf.
///
/// - Work that only says something returns its status and text, and the shelf is not called.
/// - Work that saves returns `Done` after the shelf has taken all of it, `ShelfFault` if the shelf
///   failed, and `NoMemory` if memory ran out. After these two errors the shelf holds what it held,
///   or the store with the first of its changes.
pub fn obey<F: Shelf>(alloc: Global, shelf: &mut F, work: Work) -> CommandAnswer
    requires count { F.faults shelf.old < 2 ^ 64 - 1 }
    requires plain { works.IsPlain (work_in work) }
    ensures answer { IsAnswer (work_in work) result.due result.text result.sent.entries }
    ensures held { IsHeld (work_in work) result.due (F.sight.held shelf.old) (F.sight.held shelf.new) }
    ensures images { HasImages (work_in work) }
    ensures calls { CallsBy F.sight (work_in work) result.due shelf.old shelf.new }
    ensures any_moment { CrashesLeave F.sight shelf.old shelf.new
        (MightLeave (work_in work) (F.sight.held shelf.new) (F.sight.may_leave shelf.old)) }
    ensures durable { IsDurableNow (work_in work) result.due (F.sight.held shelf.new) (F.sight.may_leave shelf.new) }
    ensures counted { Tells 5 (code result.due) (F.faults shelf.old) (F.faults shelf.new) }
{
    match work {
        Work::Says(answer) => answer,
        Work::Saves {
            opening,
            text,
            sent,
        } => {
            let answer = keep(alloc, shelf, &opening, text, sent);
            let_go(opening);
            answer
        }
    }
}
