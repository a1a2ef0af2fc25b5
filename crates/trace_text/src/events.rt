ghost use Rattle.std.specs.Prelude.{◌≡◌, ◌++◌, string_bytes, OnOk};
ghost use Rattle.std.specs.List.{zip};
ghost use Rattle.s3_types.specs.Store.{Content};
ghost use Rattle.trace_text.specs.Trace.{event_lines};
ghost use Rattle.trace_text.specs.inner.Tapes.{Follows, left};

use crate::ends::write_event;
use crate::sends::write_until;
use crate::tape::Tape;
use job_model::{Event, EventEnd};
use s3_types::Entry;
use std::alloc::{AllocError, Global};

/// Writes for each event the lines of its sends, and then its own line.
pub fn write_events(
    alloc: Global,
    tape: &mut Tape,
    commit: Option<u64>,
    entries: &[Entry],
    events: &[Event],
    ends: &[EventEnd],
) -> Result<(), AllocError>
    ghost opening: { Content }
    requires { Follows opening tape.old entries.now }
    ensures { OnOk result (string_bytes tape.new.text ≡ string_bytes tape.old.text
        ++ event_lines 1 (zip events.now ends.now) (left commit opening tape.old entries.now)) }
{
    for (place, end) in ends.iter().enumerate() {
        let Some(event) = events.get(place) else {
            return Ok(());
        };
        write_until(alloc, tape, commit, entries, place as u64 + 1)?;
        write_event(alloc, &mut tape.text, place + 1, *event, end)?;
    }
    Ok(())
}
