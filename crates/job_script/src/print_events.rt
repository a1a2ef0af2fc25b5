ghost use Rattle.std.specs.Prelude.{◌≡◌, ◌++◌, map, string_bytes, OnOk};
ghost use Rattle.text_and_lists.specs.Words.{ended, text_of};
ghost use Rattle.job_script.specs.Print.{event_line};

use job_model::Event;
use std::alloc::AllocError;

fn put_event(out: &mut String, event: Event) -> Result<(), AllocError>
    ensures { OnOk result (string_bytes out.new ≡ string_bytes out.old ++ ended (event_line event)) }
{
    write!(out, "{event}\n")
}

/// Appends the lines of the events.
pub fn put_events(out: &mut String, events: &[Event]) -> Result<(), AllocError>
    ensures { OnOk result (string_bytes out.new ≡ string_bytes out.old ++ text_of (map event_line events.now)) }
{
    for event in events {
        put_event(out, *event)?;
    }
    Ok(())
}
