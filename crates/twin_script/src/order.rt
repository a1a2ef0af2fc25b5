ghost use Rattle.std.specs.Prelude.{◌≡◌, true, IfErr};
ghost use Rattle.text_and_lists.specs.Lines.{lines_of};
ghost use Rattle.text_and_lists.specs.Numbers.{number_in};
ghost use Rattle.job_script.specs.Kinds.{named};
ghost use Rattle.twin_script.specs.Fault.{Gives, is_told};
ghost use Rattle.twin_script.specs.inner.Fault.{Makes};
ghost use Rattle.twin_script.specs.Order as order;

use crate::cutting::{next_line, two_words};
use crate::fault::TwinFault;
use crate::turns::{Side, TurnList, TwinTurn};
use std::alloc::Global;
use text_and_lists::number_within;

/// The turns of the lines so far, and the number of events that each script has left.
#[derive(Drop)]
pub struct Draft {
    pub turns: TurnList,
    pub first: u64,
    pub second: u64,
}

fn side_of(word: &[u8]) -> Option<Side>
    ensures { result ≡ named order.sides word.now }
{
    if word == b"a".as_slice() {
        return Some(Side::First);
    }
    if word == b"b".as_slice() {
        return Some(Side::Second);
    }
    None
}

/// The number that digits write, 1 to 100,000; none if the bytes are no such number.
fn count_of(digits: &[u8]) -> Option<u32>
    ensures { result ≡ number_in 1 100000 digits.now }
{
    match str::from_utf8(digits) {
        Ok(text) => {
            match number_within(1, 100_000, text) {
                Some(n) => Some(n as u32),
                None => None,
            }
        }
        Err(_) => None,
    }
}

/// The turn of a line of an order, or none.
fn turn_of(line: &[u8]) -> Option<TwinTurn>
    ensures { result ≡ order.turn_of line.now }
{
    let Some((word, digits)) = two_words(line) else {
        return None;
    };
    let Some(side) = side_of(word) else {
        return None;
    };
    let Some(count) = count_of(digits) else {
        return None;
    };
    Some(TwinTurn { side, count })
}

#[tactic(auto, unfolding(crate::specs::Order::turn_at))]
fn line_of(draft: &mut Draft, line: u64, text: &[u8]) -> Result<(), TwinFault>
    ensures exact { Makes result draft.new (order.line_at line draft.old text.now) }
    ensures told { IfErr result (λ fault. is_told fault ≡ true) }
{
    if text.is_empty() {
        return Ok(());
    }
    let Some(turn) = turn_of(text) else {
        return Err(TwinFault::BadOrder(line));
    };
    let count = u64::from(turn.count);
    match turn.side {
        Side::First => {
            if count > draft.first {
                return Err(TwinFault::BadOrder(line));
            }
            draft.first -= count;
        }
        Side::Second => {
            if count > draft.second {
                return Err(TwinFault::BadOrder(line));
            }
            draft.second -= count;
        }
    }
    draft.turns.push(turn)?;
    Ok(())
}

#[tactic(auto, unfolding(crate::specs::Order::lines_at))]
fn draft_of(alloc: Global, first: u64, second: u64, bytes: &[u8]) -> Result<Draft, TwinFault>
    ensures exact { Gives result (order.lines_at 1 (order.nothing first second) (lines_of bytes.now)) }
    ensures told { IfErr result (λ fault. is_told fault ≡ true) }
{
    let mut draft = Draft {
        turns: TurnList::new(alloc),
        first,
        second,
    };
    let mut line = 1u64;
    let mut rest = bytes;
    while !rest.is_empty() {
        let (text, after) = next_line(rest);
        line_of(&mut draft, line, text)?;
        line += 1;
        rest = after;
    }
    Ok(draft)
}

/// The turns of an order of scripts with `first` and `second` events. An empty line is skipped but
/// counted. The error is the fault of the first faulty line. Takes one pass over the bytes.
pub fn order_of(alloc: Global, first: u64, second: u64, bytes: &[u8]) -> Result<TurnList, TwinFault>
    ensures exact { Gives result (order.order_of first second bytes.now) }
    ensures told { IfErr result (λ fault. is_told fault ≡ true) }
{
    let draft = draft_of(alloc, first, second, bytes)?;
    Ok(draft.turns)
}
