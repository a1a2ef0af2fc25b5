ghost use Rattle.std.specs.Prelude.{◌≡◌, ◌++◌, ◌<◌, ◌^◌, string_bytes, IfOk, OnOk};
ghost use Rattle.job_spec.specs.ReportText.{end_text};
ghost use Rattle.job_spec.specs.States.{verdict};
ghost use Rattle.job_model.specs.Words.{event_text};
ghost use Rattle.serde_json.specs.Data.{no_members};
ghost use Rattle.trace_lines.specs.Members.{members_of};
ghost use Rattle.trace_text.specs.inner.Texts.{text_of};
ghost use Rattle.trace_text.specs.Trace as lines;

use crate::counts::{refused, unsent};
use job_model::{Event, EventEnd, Script};
use job_report::write_end;
use std::alloc::{AllocError, Global};
use trace_lines::Line;

/// Returns an event as scripts write it.
fn text_of_event(alloc: Global, event: Event) -> Result<String, AllocError>
    ensures { IfOk result (λ text. string_bytes text ≡ event_text event) }
{
    format!(in alloc; "{event}")
}

/// Returns how an event ended, as reports write it.
fn text_of_end(alloc: Global, end: &EventEnd) -> Result<String, AllocError>
    ensures { IfOk result (λ text. string_bytes text ≡ end_text end.now) }
{
    let mut text = String::new(alloc);
    write_end(&mut text, end)?;
    Ok(text)
}

/// Puts the members of the line of an event with this text and this end.
fn put_event<'a>(
    line: &mut Line<'a>,
    number: usize,
    event: &'a str,
    end: &'a str,
) -> Result<(), AllocError>
    requires { members_of line.old ≡ no_members }
    ensures { OnOk result (text_of line.new ≡ lines.event_words number event.now end.now) }
{
    line.text("op", "Event")?;
    line.whole("event", number as u64)?;
    line.text("text", event)?;
    line.text("end", end)
}

/// Writes the line of an event with this text and this end.
fn write_line(
    alloc: Global,
    text: &mut String,
    number: usize,
    event: &str,
    end: &str,
) -> Result<(), AllocError>
    ensures { OnOk result (string_bytes text.new ≡ string_bytes text.old ++ lines.event_words number event.now end.now) }
{
    let mut line = Line::new(alloc);
    put_event(&mut line, number, event, end)?;
    line.write(alloc, text)
}

/// Writes the line of an event that has ended.
pub fn write_event(
    alloc: Global,
    text: &mut String,
    number: usize,
    event: Event,
    end: &EventEnd,
) -> Result<(), AllocError>
    ensures { OnOk result (string_bytes text.new ≡ string_bytes text.old ++ lines.event_line number (event, end.now)) }
{
    let event = text_of_event(alloc, event)?;
    let end = text_of_end(alloc, end)?;
    write_line(alloc, text, number, event.as_str(), end.as_str())
}

/// Puts the members of the last line.
fn put_last(
    line: &mut Line<'_>,
    script: &Script,
    sent: usize,
    ends: &[EventEnd],
    status: u8,
) -> Result<(), AllocError>
    requires empty { members_of line.old ≡ no_members }
    requires few { sent < 2 ^ 62 }
    requires status { status ≡ verdict script.now ends.now }
    ensures { OnOk result (text_of line.new ≡ lines.end_line script.now sent ends.now) }
{
    line.text("op", "End")?;
    line.whole("sent", sent as u64)?;
    line.whole("status", u64::from(status))?;
    line.whole("refused", refused(ends))?;
    line.whole("unsent", unsent(&script.fates, sent as u64))
}

/// Writes the last line.
pub fn write_last(
    alloc: Global,
    text: &mut String,
    script: &Script,
    sent: usize,
    ends: &[EventEnd],
    status: u8,
) -> Result<(), AllocError>
    requires few { sent < 2 ^ 62 }
    requires status { status ≡ verdict script.now ends.now }
    ensures { OnOk result (string_bytes text.new ≡ string_bytes text.old ++ lines.end_line script.now sent ends.now) }
{
    let mut line = Line::new(alloc);
    put_last(&mut line, script, sent, ends, status)?;
    line.write(alloc, text)
}
