ghost use Rattle.std.specs.Prelude.{◌≡◌, ◌++◌, ◌<◌, ◌≤◌, ◌^◌, false, length, string_bytes, IfOk, OnOk};
ghost use Rattle.std.specs.List.{zip};
ghost use Rattle.s3_types.specs.Moment.{IsHonest};
ghost use Rattle.s3_types.specs.Store as stores;
ghost use Rattle.s3_types.specs.Store.{Content};
ghost use Rattle.job_spec.specs.States as states;
ghost use Rattle.trace_text.specs.Heads.{head_lines};
ghost use Rattle.trace_text.specs.inner.Tapes.{Follows, left};
ghost use Rattle.trace_text.specs.Trace as traces;

use crate::commits::commit_event;
use crate::ends::write_last;
use crate::events::write_events;
use crate::heads::{write_attempts, write_job};
use crate::objects::write_objects;
use crate::replies::up_to_lost;
use crate::sends::write_all;
use crate::tape::Tape;
use job_model::{EndList, Script};
use s3_service::Service;
use s3_types::{Entry, Journal, let_go};
use std::alloc::{AllocError, Global};
use store_link::MemStore;

/// Writes the first lines of the trace of a job over a store.
fn write_heads(
    alloc: Global,
    text: &mut String,
    script: &Script,
    service: &Service,
) -> Result<(), AllocError>
    ensures { OnOk result (string_bytes text.new ≡ string_bytes text.old ++ head_lines script.now service.now) }
{
    write_job(alloc, text, script)?;
    write_attempts(alloc, text, script, service.minimum())?;
    write_objects(alloc, text, &script.dest, service)
}

/// Returns a tape at the beginning of a run over a store, after the first lines of the trace.
fn begun(alloc: Global, text: String, opening: Service, entries: &[Entry]) -> Tape
    requires next { opening.next ≤ 2 ^ 62 }
    requires honest { IsHonest opening entries.now }
    requires few { length entries.now < 2 ^ 62 }
    ensures text { result.text ≡ text }
    ensures at { result.at ≡ 0 }
    ensures begun { result.begun ≡ false }
    ensures opening { result.store.scene ≡ stores.opening opening }
    ensures follows { Follows opening result entries.now }
{
    Tape {
        store: MemStore::new(alloc, opening),
        lost: up_to_lost(entries),
        text,
        at: 0,
        begun: false,
    }
}

/// Returns the text of a tape.
fn text_of(tape: Tape) -> String
    ensures { result ≡ tape.text }
{
    let Tape { store, text, .. } = tape;
    let_go(store);
    text
}

/// Writes the lines of all events and the last one.
fn write_run(
    alloc: Global,
    tape: &mut Tape,
    script: &Script,
    journal: &Journal,
    ends: &EndList,
    status: u8,
) -> Result<(), AllocError>
    ghost opening: { Content }
    requires follows { Follows opening tape.old journal.now.entries }
    requires status { status ≡ states.verdict script.now ends.now }
    ensures { OnOk result (string_bytes tape.new.text ≡ string_bytes tape.old.text
        ++ (traces.event_lines 1 (zip script.now.events ends.now)
        (left (states.commit_event script.now ends.now) opening tape.old journal.now.entries)
        ++ traces.end_line script.now (length journal.now.entries) ends.now)) }
{
    let events = script.events.as_slice();
    let commit = commit_event(events, ends.as_slice());
    write_events(
        alloc,
        tape,
        commit,
        journal.as_slice(),
        events,
        ends.as_slice(),
    )?;
    write_last(
        alloc,
        &mut tape.text,
        script,
        journal.len(),
        ends.as_slice(),
        status,
    )
}

/// Writes the trace of a job's run whose events have all ended. It takes the script, the store that
/// the run began with, the journal of its sends, the ends of the events, and the exit status. Fails
/// with `AllocError` only if memory runs out.
#[tactic(auto, unfolding(crate::specs::Trace::trace_text))]
pub fn trace_text(
    alloc: Global,
    script: &Script,
    opening: Service,
    journal: &Journal,
    ends: &EndList,
    status: u8,
) -> Result<String, AllocError>
    // The next upload's id is at most 2^62.
    requires store { opening.next ≤ 2 ^ 62 }
    // Each answer in the journal is the one that S3 must give.
    requires honest { IsHonest opening journal.now.entries }
    // The status is the one that follows from the ends of the events.
    requires status { status ≡ states.verdict script.now ends.now }
    // The text is the trace of this run.
    ensures { IfOk result (λ text. string_bytes text
        ≡ traces.trace_text script.now opening journal.now.entries ends.now) }
{
    let mut text = String::new(alloc);
    let Ok(()) = write_heads(alloc, &mut text, script, &opening) else {
        let_go(opening);
        return Err(AllocError);
    };
    let mut tape = begun(alloc, text, opening, journal.as_slice());
    match write_run(alloc, &mut tape, script, journal, ends, status) {
        Ok(()) => Ok(text_of(tape)),
        Err(error) => {
            let_go(tape);
            Err(error)
        }
    }
}

/// Writes the lines of requests alone, from the store that they were sent to and their journal.
/// Fails with `AllocError` only if memory runs out.
#[tactic(auto, unfolding(crate::specs::Trace::requests_text))]
pub fn requests_text(
    alloc: Global,
    opening: Service,
    journal: &Journal,
) -> Result<String, AllocError>
    // The next upload's id is at most 2^62.
    requires store { opening.next ≤ 2 ^ 62 }
    // Each answer in the journal is the one that S3 must give.
    requires honest { IsHonest opening journal.now.entries }
    // The text is the lines of these requests.
    ensures { IfOk result (λ text. string_bytes text ≡ traces.requests_text opening journal.now.entries) }
{
    let mut tape = begun(alloc, String::new(alloc), opening, journal.as_slice());
    match write_all(alloc, &mut tape, None, journal.as_slice()) {
        Ok(()) => Ok(text_of(tape)),
        Err(error) => {
            let_go(tape);
            Err(error)
        }
    }
}
