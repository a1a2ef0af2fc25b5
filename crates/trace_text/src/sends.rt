ghost use Rattle.std.specs.Prelude.{◌≡◌, ◌+◌, ◌++◌, ◌<◌, ◌≤◌, ◌^◌, Option, cond, string_bytes, true, IfOk, OnOk};
ghost use Rattle.std.specs.List.{flat_map};
ghost use Rattle.s3_types.specs.Answer.{answer};
ghost use Rattle.s3_types.specs.Moment.{effect};
ghost use Rattle.s3_types.specs.Store.{Content};
ghost use Rattle.trace_lines.specs.Requests.{TellsTag, request_line};
ghost use Rattle.trace_text.specs.Sends.{behind_event, commit_line, is_of_commit, send_lines, until_event};
ghost use Rattle.trace_text.specs.inner.Tapes.{Follows, HasWritten, left, reply_told};

use crate::replies::reply_to;
use crate::tape::Tape;
use s3_types::{Actor, Entry, Outcome, Reply, let_go};
use std::alloc::{AllocError, Global};
use store_link::MemStore;
use trace_lines::{Line, write_request};

/// Returns whether this is a send of the driver in the event of the job's commit or in a later one.
fn is_of_commit(commit: Option<u64>, entry: &Entry) -> bool
    ensures { result ≡ is_of_commit commit entry.now }
{
    match commit {
        Some(first) => match entry.actor {
            Actor::Driver => first <= u64::from(entry.event),
            _ => false,
        },
        None => false,
    }
}

/// Writes the line before the first request of the job's commit.
fn write_commit(alloc: Global, text: &mut String) -> Result<(), AllocError>
    ensures { OnOk result (string_bytes text.new ≡ string_bytes text.old ++ commit_line) }
{
    let mut line = Line::new(alloc);
    line.text("op", "Commit")?;
    line.write(alloc, text)
}

/// Makes the n-th send on a store, and writes its line with the store's answer.
fn write_made(
    alloc: Global,
    store: &mut MemStore,
    text: &mut String,
    number: u64,
    entry: &Entry,
) -> Result<(), AllocError>
    requires { store.old.requests < 2 ^ 62 }
    ensures text { OnOk result (string_bytes text.new ≡ string_bytes text.old
        ++ request_line number entry.now (answer store.old.scene entry.now.request)) }
    ensures scene { OnOk result (store.new.scene ≡ effect store.old.scene entry.now.request entry.now.outcome) }
    ensures count { OnOk result (store.new.requests ≤ store.old.requests + 1) }
{
    let reply = reply_to(store, entry)?;
    let written = write_request(alloc, text, number, entry, &reply);
    let_go(reply);
    written
}

/// Writes the line of the n-th send with the reply that its sender received. If the sender received
/// none, the line is written as for the reply `Deleted`.
fn write_told(
    alloc: Global,
    text: &mut String,
    number: u64,
    entry: &Entry,
) -> Result<(), AllocError>
    requires { TellsTag entry.now.request (reply_told entry.now.outcome) }
    ensures { OnOk result (string_bytes text.new ≡ string_bytes text.old
        ++ request_line number entry.now (reply_told entry.now.outcome)) }
{
    match &entry.outcome {
        Outcome::Answered(reply) => write_request(alloc, text, number, entry, reply),
        _ => write_request(alloc, text, number, entry, &Reply::Deleted),
    }
}

/// Writes the line of the n-th send. If `made` holds, the send is made on the store, which gives
/// the reply; else the reply is the one that its sender received.
fn write_line(
    alloc: Global,
    store: &mut MemStore,
    text: &mut String,
    number: u64,
    entry: &Entry,
    made: bool,
) -> Result<(), AllocError>
    requires few { store.old.requests < 2 ^ 62 }
    requires tag { TellsTag entry.now.request (reply_told entry.now.outcome) }
    ensures text { OnOk result (string_bytes text.new ≡ string_bytes text.old ++ request_line number entry.now
        (cond made (answer store.old.scene entry.now.request) (reply_told entry.now.outcome))) }
    ensures scene { OnOk result (made ≡ true
        → store.new.scene ≡ effect store.old.scene entry.now.request entry.now.outcome) }
    ensures count { OnOk result (store.new.requests ≤ store.old.requests + 1) }
{
    if made {
        write_made(alloc, store, text, number, entry)
    } else {
        write_told(alloc, text, number, entry)
    }
}

/// Writes the lines of a send, which is the next one.
fn write_send(
    alloc: Global,
    tape: &mut Tape,
    commit: Option<u64>,
    entry: &Entry,
) -> Result<(), AllocError>
    requires counted { tape.old.store.requests ≤ tape.old.at }
    requires few { tape.old.at < 2 ^ 62 }
    requires tag { TellsTag entry.now.request (reply_told entry.now.outcome) }
    ensures { OnOk result (HasWritten commit entry.now tape.old tape.new) }
{
    if !tape.begun && is_of_commit(commit, entry) {
        write_commit(alloc, &mut tape.text)?;
        tape.begun = true;
    }
    let number = tape.at as u64 + 1;
    let made = tape.at < tape.lost;
    write_line(alloc, &mut tape.store, &mut tape.text, number, entry, made)?;
    tape.at += 1;
    Ok(())
}

/// Writes the lines of the next sends, up to the last send of an event.
pub fn write_until(
    alloc: Global,
    tape: &mut Tape,
    commit: Option<u64>,
    entries: &[Entry],
    event: u64,
) -> Result<(), AllocError>
    ghost opening: { Content }
    requires { Follows opening tape.old entries.now }
    ensures text { OnOk result (string_bytes tape.new.text ≡ string_bytes tape.old.text
        ++ flat_map send_lines (until_event event (left commit opening tape.old entries.now))) }
    ensures left { OnOk result (left commit opening tape.new entries.now
        ≡ behind_event event (left commit opening tape.old entries.now)) }
    ensures follows { OnOk result (Follows opening tape.new entries.now) }
{
    'sends: while let Some(entry) = entries.get(tape.at) {
        if u64::from(entry.event) > event {
            return Ok(());
        }
        write_send(alloc, tape, commit, entry)?;
    }
    Ok(())
}

/// Writes the lines of all sends that are left.
pub fn write_all(
    alloc: Global,
    tape: &mut Tape,
    commit: Option<u64>,
    entries: &[Entry],
) -> Result<(), AllocError>
    ghost opening: { Content }
    requires { Follows opening tape.old entries.now }
    ensures { OnOk result (string_bytes tape.new.text ≡ string_bytes tape.old.text
        ++ flat_map send_lines (left commit opening tape.old entries.now)) }
{
    'sends: while let Some(entry) = entries.get(tape.at) {
        write_send(alloc, tape, commit, entry)?;
    }
    Ok(())
}
