ghost use Rattle.std.specs.Prelude.{◌≡◌, ◌≤◌, ◌++◌, length, string_bytes, IfOk, OnOk};
ghost use Rattle.job_report.specs.TwinText.{told_of, ended_of, played_lines, pick_lines, side_lines, twins_report};
ghost use Rattle.job_report.specs.inner.Left.{ended_in};

use crate::lines::{write_actors, write_closing, write_picks};
use crate::played::{Ended, letter, write_played};
use job_model::{EndList, PickList, Script};
use s3_types::Bytes;
use std::alloc::{AllocError, Global};
use twin_script::{Side, TurnList};

/// The report's data on one of two jobs: its script, the ends of its events in their order, and the
/// chosen attempts of its commit.
#[derive(Clone, Copy)]
pub struct SideReport<'a> {
    pub script: &'a Script,
    pub ends: &'a EndList,
    pub picks: &'a PickList,
}

/// A job's events with their ends. A script has at most 100,000 events.
fn ended<'a>(side: SideReport<'a>) -> Ended<'a>
    ensures events { ended_in result ≡ ended_of (told_of side.entry) }
    ensures few { length result.events.now ≤ 100000 }
{
    let script = side.script;
    Ended {
        events: script.events.as_slice(),
        ends: side.ends.as_slice(),
    }
}

/// Writes a line for each event that ran.
fn write_turns(
    text: &mut String,
    order: &TurnList,
    first: SideReport<'_>,
    second: SideReport<'_>,
) -> Result<(), AllocError>
    ensures { OnOk result (string_bytes text.new ≡ string_bytes text.old
        ++ played_lines order.now (ended_of (told_of first.entry)) (ended_of (told_of second.entry))) }
{
    write_played(text, order.as_slice(), ended(first), ended(second))
}

/// Writes a line for each chosen attempt of a job.
fn write_side_picks(text: &mut String, side: Side, told: SideReport<'_>) -> Result<(), AllocError>
    ensures { OnOk result (string_bytes text.new ≡ string_bytes text.old ++ pick_lines side (told_of told.entry)) }
{
    write_picks(text, letter(side), told.picks.as_slice())
}

/// Writes a line for each actor of a job.
fn write_side_actors(
    alloc: Global,
    text: &mut String,
    side: Side,
    told: SideReport<'_>,
) -> Result<(), AllocError>
    ensures { OnOk result (string_bytes text.new ≡ string_bytes text.old ++ side_lines side (told_of told.entry)) }
{
    write_actors(alloc, text, letter(side), told.script, told.ends.as_slice())
}

/// Returns the text of the report on two jobs that share a destination. The lines are those of a
/// job's report, in this order:
///
/// - each event that ran, numbered from 1 in the order of the turns
/// - each chosen attempt of the first job, and then of the second
/// - the driver and each declared attempt of the first job, and then of the second
/// - the number of sends, and the status
///
/// An event, chosen attempt or actor of the first job is preceded by `a `, one of the second by `b
/// `. A turn of an event without an end is skipped. Fails with AllocError only if memory runs out.
/// Takes one pass over the order and the data of the jobs.
pub fn twins_report(
    alloc: Global,
    due: u8,
    sent: usize,
    order: &TurnList,
    first: SideReport<'_>,
    second: SideReport<'_>,
) -> Result<Bytes, AllocError>
    ensures text { IfOk result (λ text. text ≡ twins_report due sent order.now (told_of first.entry) (told_of second.entry)) }
{
    let mut text = String::new(alloc);
    write_turns(&mut text, order, first, second)?;
    write_side_picks(&mut text, Side::First, first)?;
    write_side_picks(&mut text, Side::Second, second)?;
    write_side_actors(alloc, &mut text, Side::First, first)?;
    write_side_actors(alloc, &mut text, Side::Second, second)?;
    write_closing(&mut text, sent, due)?;
    Bytes::new(alloc, text.into_bytes())
}
