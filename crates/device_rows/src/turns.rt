use crate::given::Given;
use crate::known::Known;
use crate::play::Wrong;
use crate::told::told;
use anyhow::Result;

/// What fails in each of several runs, at a number.
#[derive(Clone, Copy)]
pub enum Turn {
    Source,
    Disk,
    Sink,
    Stop,
}

impl Turn {
    fn wrong(self, number: u64) -> Wrong {
        match self {
            Turn::Source => Wrong::Source(number),
            Turn::Disk => Wrong::Disk(number),
            Turn::Sink => Wrong::Sink(number),
            Turn::Stop => Wrong::Stop(number),
        }
    }

    /// The least number: 0 calls before a stop, or the first call of a device.
    fn first(self) -> u64 {
        match self {
            Turn::Stop => 0,
            _ => 1,
        }
    }
}

fn show_alike(rt: &impl Print, first: u64, last: u64, line: &str) -> Result<()> {
    if first < last {
        println!(rt; "{first} to {last}: {line}")?;
    } else {
        println!(rt; "{first}: {line}")?;
    }
    Ok(())
}

/// Runs the command once for each number up to the last, and shows equal answers in a row once.
pub fn show_turns(
    rt: &impl Print,
    given: &Given,
    known: &Known,
    turn: Turn,
    last: u64,
) -> Result<()> {
    let mut first = turn.first();
    let mut before = String::new(given.alloc);
    for number in turn.first()..=last {
        let line = told(given, known, turn.wrong(number))?;
        if !before.is_empty() && line.as_str() != before.as_str() {
            show_alike(rt, first, number.saturating_sub(1), before.as_str())?;
            first = number;
        }
        before = line;
    }
    show_alike(rt, first, last, before.as_str())
}
