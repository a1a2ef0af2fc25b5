ghost use Rattle.std.specs.Prelude.{◌≡◌, ◌+◌, ◌<◌, ◌≤◌, ◌^◌, true, IfOk, OnOk};
ghost use Rattle.s3_types.specs.Answer.{answer};
ghost use Rattle.s3_types.specs.Moment.{effect};
ghost use Rattle.trace_lines.specs.Requests.{TellsTag, has_reached};
ghost use Rattle.trace_text.specs.inner.Tapes.{NoneLostBehind, is_reply_lost};

use s3_types::{Entry, Outcome, Reply};
use std::alloc::AllocError;
use store_link::MemStore;

/// Returns whether a send took effect but its reply was lost.
fn is_reply_lost(outcome: &Outcome) -> bool
    ensures { result ≡ is_reply_lost outcome.now }
{
    match outcome {
        Outcome::ReplyLost => true,
        _ => false,
    }
}

/// Returns how many sends there are up to the last one whose reply was lost, or 0 if no reply was
/// lost.
pub fn up_to_lost(entries: &[Entry]) -> usize
    ensures { NoneLostBehind result entries.now }
{
    let mut lost = 0;
    for (place, entry) in entries.iter().enumerate() {
        if is_reply_lost(&entry.outcome) {
            lost = place + 1;
        }
    }
    lost
}

/// Returns whether a send reached the store.
fn has_reached(outcome: &Outcome) -> bool
    ensures { result ≡ has_reached outcome.now }
{
    match outcome {
        Outcome::Answered(_) => true,
        Outcome::ReplyLost => true,
        _ => false,
    }
}

/// Returns the reply that S3 must give to a send that reached the store, and applies the send's
/// effect to the store. For a send that did not reach the store, the returned reply means nothing.
pub fn reply_to(store: &mut MemStore, entry: &Entry) -> Result<Reply, AllocError>
    requires { store.old.requests < 2 ^ 62 }
    ensures reply { IfOk result (λ reply. has_reached entry.now.outcome ≡ true
        → reply ≡ answer store.old.scene entry.now.request) }
    ensures tag { IfOk result (λ reply. TellsTag entry.now.request reply) }
    ensures scene { OnOk result (store.new.scene ≡ effect store.old.scene entry.now.request entry.now.outcome) }
    ensures count { OnOk result (store.new.requests ≤ store.old.requests + 1) }
{
    if has_reached(&entry.outcome) {
        store.apply(&entry.request)
    } else {
        Ok(Reply::Deleted)
    }
}
