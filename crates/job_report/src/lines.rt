ghost use Rattle.std.specs.Prelude.{◌≡◌, ◌++◌, ◌+◌, ◌≤◌, ◌^◌, length, string_bytes, true, OnOk};
ghost use Rattle.std.specs.List.{flat_map};
ghost use Rattle.job_model.specs.Attempts.{declares};
ghost use Rattle.job_spec.specs.States.{Past};
ghost use Rattle.job_spec.specs.ReportText.{event_line, event_lines, pick_line, driver_line, attempt_line, actor_lines, closing};
ghost use Rattle.job_states.specs.Stands.{Stands};

use crate::ends::write_end;
use job_model::{AttemptName, Event, EventEnd, Pick, Script};
use job_states::States;
use s3_types::Actor;
use std::alloc::{AllocError, Global};

/// Writes the line of an event: its number, the text `before`, the event and its end.
fn write_event(
    text: &mut String,
    before: &str,
    number: usize,
    event: Event,
    end: &EventEnd,
) -> Result<(), AllocError>
    ensures { OnOk result (string_bytes text.new ≡ string_bytes text.old
        ++ event_line before.now (number, (event, end.now))) }
{
    write!(text, "{number} {before}{event}: ")?;
    write_end(text, end)?;
    text.push_str("\n")
}

/// Writes a line for each event that has ended, numbered from `number` on, with `before` after the
/// number. If memory runs out, the text may be cut off anywhere, here and in the calls below.
pub fn write_events(
    text: &mut String,
    before: &str,
    number: usize,
    events: &[Event],
    ends: &[EventEnd],
) -> Result<(), AllocError>
    requires { number + length ends.now ≤ 2 ^ 64 }
    ensures { OnOk result (string_bytes text.new ≡ string_bytes text.old
        ++ event_lines before.now number events.now ends.now) }
{
    for (index, end) in ends.iter().enumerate() {
        let Some(event) = events.get(index) else {
            return Ok(());
        };
        write_event(text, before, number + index, *event, end)?;
    }
    Ok(())
}

/// Writes a line for each chosen attempt, which begins with `before`.
pub fn write_picks(text: &mut String, before: &str, picks: &[Pick]) -> Result<(), AllocError>
    ensures { OnOk result (string_bytes text.new ≡ string_bytes text.old ++ flat_map (pick_line before.now) picks.now) }
{
    for pick in picks {
        let task = pick.task;
        let attempt = pick.attempt;
        write!(text, "{before}pick {task} {attempt}\n")?;
    }
    Ok(())
}

/// Writes the driver's line: its life and stage, and the number of the job attempt from the second
/// one on.
fn write_driver(
    text: &mut String,
    before: &str,
    script: &Script,
    states: &States,
) -> Result<(), AllocError>
    ensures { (p : Past) → Stands script.now states.now p → OnOk result (string_bytes text.new ≡ string_bytes text.old
        ++ driver_line before.now p) }
{
    let state = states.state(script, Actor::Driver);
    let life = state.life;
    let stage = state.stage;
    let number = states.attempt();
    if number > 1 {
        write!(text, "{before}driver {life} {stage} attempt {number}\n")
    } else {
        write!(text, "{before}driver {life} {stage}\n")
    }
}

/// Writes an attempt's line: its life and stage.
fn write_attempt(
    text: &mut String,
    before: &str,
    script: &Script,
    states: &States,
    name: AttemptName,
) -> Result<(), AllocError>
    requires { declares script.now.attempts name ≡ true }
    ensures { (p : Past) → Stands script.now states.now p
        → OnOk result (string_bytes text.new ≡ string_bytes text.old ++ attempt_line before.now p.state name) }
{
    let AttemptName { task, attempt } = name;
    let actor = Actor::Attempt { task, attempt };
    let state = states.state(script, actor);
    let life = state.life;
    let stage = state.stage;
    write!(text, "{before}{actor} {life} {stage}\n")
}

/// Writes a line for each declared attempt.
fn write_attempts(
    text: &mut String,
    before: &str,
    script: &Script,
    states: &States,
) -> Result<(), AllocError>
    ensures { (p : Past) → Stands script.now states.now p → OnOk result (string_bytes text.new ≡ string_bytes text.old
        ++ flat_map (λ a. attempt_line before.now p.state a.0) script.now.attempts) }
{
    for (name, _) in script.attempts.held() {
        write_attempt(text, before, script, states, *name)?;
    }
    Ok(())
}

/// Writes the lines of the driver and of each declared attempt, which begin with `before`: their
/// lives and stages after events with these ends.
pub fn write_actors(
    alloc: Global,
    text: &mut String,
    before: &str,
    script: &Script,
    ends: &[EventEnd],
) -> Result<(), AllocError>
    ensures { OnOk result (string_bytes text.new ≡ string_bytes text.old
        ++ actor_lines before.now script.now ends.now) }
{
    let states = States::after(alloc, script, ends)?;
    write_driver(text, before, script, &states)?;
    write_attempts(text, before, script, &states)
}

/// Writes the lines of the number of sends and of the status.
pub fn write_closing(text: &mut String, sent: usize, due: u8) -> Result<(), AllocError>
    ensures { OnOk result (string_bytes text.new ≡ string_bytes text.old ++ closing sent due) }
{
    write!(text, "sent {sent}\nstatus {due}\n")
}
