use crate::given::Given;
use crate::known::Known;
use crate::left::crash_left;
use crate::play::{Played, Wrong, play};
use folder_log::{Choice, MemDisk};
use s3_types::let_go;
use s3a_top::Report;
use std::alloc::{AllocError, Global};

/// Writes what was reported, in numbers.
pub fn put_report(line: &mut String, report: &Report) -> Result<(), AllocError> {
    let status = report.status;
    let due = report.due;
    write!(line, "status {status} due {due}, ")?;
    let picks = report.told.picks.as_slice().len();
    let ends = report.told.ends.as_slice().len();
    let sent = report.journal.len();
    write!(line, "picks {picks} ends {ends} sent {sent}")
}

/// Writes what the run wrote, compared with what the whole run wrote.
fn put_said(line: &mut String, said: &[u8], all: &[u8]) -> Result<(), AllocError> {
    if said.is_empty() {
        return line.push_str(", said nothing");
    }
    if said == all {
        return line.push_str(", said all");
    }
    let text = str::from_utf8(said).unwrap_or("no text");
    let first = text.strip_suffix("\n").unwrap_or(text);
    write!(line, ", said [{first}]")
}

/// Writes what a crash leaves, once if it is the same for each fate of the ranges that were not
/// synced.
fn put_left(
    alloc: Global,
    line: &mut String,
    known: &Known,
    disk: &MemDisk,
) -> Result<(), AllocError> {
    let lost = crash_left(alloc, known, disk, Choice::Lost)?;
    let kept = crash_left(alloc, known, disk, Choice::Kept)?;
    let closed = crash_left(alloc, known, disk, Choice::Torn(0))?;
    let open = crash_left(alloc, known, disk, Choice::Torn(1))?;
    if lost == kept && lost == closed && lost == open {
        return write!(line, ", left {lost}");
    }
    write!(line, ", lost {lost}, kept {kept}, ")?;
    write!(line, "torn to 0 {closed}, torn to 1 {open}")
}

fn line_of(alloc: Global, known: &Known, played: &Played) -> Result<String, AllocError> {
    let mut line = String::new(alloc);
    put_report(&mut line, &played.report)?;
    put_said(&mut line, played.out.bytes(), known.text.as_slice())?;
    put_left(alloc, &mut line, known, played.shelf.disk())?;
    Ok(line)
}

/// The line for a run in which something fails, compared with the one in which nothing does.
pub fn told(given: &Given, known: &Known, wrong: Wrong) -> Result<String, AllocError> {
    let played = play(given, wrong)?;
    let line = line_of(given.alloc, known, &played);
    let_go(played);
    line
}
