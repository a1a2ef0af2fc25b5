ghost use Rattle.std.specs.Prelude.{◌≡◌, false, option_map, slice_get, unwrap_or};
ghost use Rattle.job_spec.specs.States.{begins_commit, event_from, is_refused};

use job_model::{Event, EventEnd, Op};
use s3_types::Actor;

/// Returns whether an event begins the driver's commit.
fn begins_commit(event: Event) -> bool
    ensures { result ≡ begins_commit event }
{
    match event {
        Event::Do {
            actor: Actor::Driver,
            op: Op::Commit,
        } => true,
        Event::Start {
            actor: Actor::Driver,
            op: Op::Commit,
        } => true,
        _ => false,
    }
}

/// Returns whether an event was refused.
pub fn is_refused(end: &EventEnd) -> bool
    ensures { result ≡ is_refused end.now }
{
    match end {
        EventEnd::Refused(_) => true,
        _ => false,
    }
}

/// Returns whether the event at this place has ended and was refused.
fn is_refused_at(ends: &[EventEnd], place: usize) -> bool
    ensures { result ≡ unwrap_or (option_map is_refused (slice_get ends.now place)) false }
{
    match ends.get(place) {
        Some(end) => is_refused(end),
        None => false,
    }
}

/// Returns the number of the first event that begins the driver's commit and is not refused, if
/// there is one.
pub fn commit_event(events: &[Event], ends: &[EventEnd]) -> Option<u64>
    ensures { result ≡ event_from begins_commit 1 events.now ends.now }
{
    for (place, event) in events.iter().enumerate() {
        if begins_commit(*event) && !is_refused_at(ends, place) {
            return Some(place as u64 + 1);
        }
    }
    None
}
