ghost use Rattle.std.specs.Prelude.{◌≡◌, ◌+◌, ◌-◌, ◌≤◌, ◌^◌, ◌++◌, ◌∷◌, min, length, List, string_bytes, IfOk, OnOk};
ghost use Rattle.twin_script.specs.declared.turns.TwinTurn.{TwinTurn};
ghost use Rattle.job_report.specs.TwinText.{letter, played_lines};
ghost use Rattle.job_report.specs.inner.Left.{ended_in, most_in, IsWithin, next_lines, left_lines};

use crate::lines::write_events;
use job_model::{Event, EventEnd};
use std::alloc::AllocError;
use twin_script::{Side, TwinTurn};

/// A job's events, and the ends of the first of them.
#[derive(Clone, Copy)]
pub struct Ended<'a> {
    pub events: &'a [Event],
    pub ends: &'a [EventEnd],
}

/// The number of events of each job that are written.
#[derive(Clone, Copy)]
struct Counts {
    first: usize,
    second: usize,
}

/// The letter of a side and a blank.
pub fn letter(side: Side) -> &'static str
    ensures { result.now ≡ letter side }
{
    match side {
        Side::First => "a ",
        Side::Second => "b ",
    }
}

/// Writes the lines of a job's next events, after the first `told` ones, numbered from `number` on:
/// `count` events, or as many as are left. Returns how many of the job's events are written then.
fn write_next(
    text: &mut String,
    side: Side,
    number: usize,
    ended: Ended<'_>,
    told: usize,
    count: u32,
) -> Result<usize, AllocError>
    requires within { IsWithin told ended }
    requires few { number ≤ 2 ^ 32 }
    ensures next { IfOk result (λ next. next ≡ told + min count (most_in ended.entry - told)) }
    ensures lines { OnOk result (string_bytes text.new ≡ string_bytes text.old
        ++ next_lines side number told count (ended_in ended.entry)) }
{
    let most = ended.events.len().min(ended.ends.len());
    let next = told + (count as usize).min(most - told);
    let events = &ended.events[told..next];
    let ends = &ended.ends[told..next];
    write_events(text, letter(side), number, events, ends)?;
    Ok(next)
}

/// Writes the lines of a turn's events, after those that are written already, and counts them.
fn write_turn(
    text: &mut String,
    turn: TwinTurn,
    told: Counts,
    first: Ended<'_>,
    second: Ended<'_>,
) -> Result<Counts, AllocError>
    requires few_first { length first.events.now ≤ 100000 }
    requires few_second { length second.events.now ≤ 100000 }
    requires first { IsWithin told.first first }
    requires second { IsWithin told.second second }
    ensures first { IfOk result (λ next. IsWithin next.first first.entry) }
    ensures second { IfOk result (λ next. IsWithin next.second second.entry) }
    ensures lines { IfOk result (λ next. (rest : List TwinTurn) → string_bytes text.new
        ++ left_lines rest next.first next.second (ended_in first.entry) (ended_in second.entry)
        ≡ string_bytes text.old
        ++ left_lines (turn ∷ rest) told.first told.second (ended_in first.entry) (ended_in second.entry)) }
{
    let number = told.first + told.second + 1;
    match turn.side {
        Side::First => {
            let next = write_next(text, turn.side, number, first, told.first, turn.count)?;
            Ok(Counts {
                first: next,
                second: told.second,
            })
        }
        Side::Second => {
            let next = write_next(text, turn.side, number, second, told.second, turn.count)?;
            Ok(Counts {
                first: told.first,
                second: next,
            })
        }
    }
}

/// Writes a line for each event that ran, in the order of the turns, numbered from 1 on.
pub fn write_played(
    text: &mut String,
    order: &[TwinTurn],
    first: Ended<'_>,
    second: Ended<'_>,
) -> Result<(), AllocError>
    requires few_first { length first.events.now ≤ 100000 }
    requires few_second { length second.events.now ≤ 100000 }
    ensures { OnOk result (string_bytes text.new ≡ string_bytes text.old
        ++ played_lines order.now (ended_in first.entry) (ended_in second.entry)) }
{
    let mut told = Counts {
        first: 0,
        second: 0,
    };
    for turn in order {
        told = write_turn(text, *turn, told, first, second)?;
    }
    Ok(())
}
