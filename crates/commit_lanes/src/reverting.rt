ghost use Rattle.std.specs.Prelude.{◌≡◌, ℕ, ◌<◌, ◌||◌, nat_eq, [], map, reverse, length, slice_index_or, IfOk, OnOk};
ghost use Rattle.std.specs.BTreeSet.{contains};
ghost use Rattle.std.specs.Ordering.{nat_cmp};
ghost use Rattle.job_protocol.specs.Lanes.{undo, chosen, is_tried, is_in, is_unsent, in_turn, abort, deletion};
ghost use Rattle.job_protocol.specs.LaneTable.{In};
ghost use Rattle.commit_lanes.specs.inner.Undos.{Adds, with_tried, with_unsent};
ghost use Rattle.commit_lanes.specs.Undos.{IsRevert, NumbersWithin};

use crate::lanes::Lanes;
use crate::undo::{Undo, UndoList};
use std::alloc::{AllocError, Global};
use std::collections::BTreeSet;

/// Returns these numbers as a set for look-ups.
fn numbers_in(alloc: Global, numbers: &[usize]) -> Result<BTreeSet<usize>, AllocError>
    ensures { IfOk result (λ set. (n : ℕ) → contains nat_cmp set n ≡ is_in (reverse numbers.now) n) }
{
    let mut set = BTreeSet::new(alloc);
    for number in numbers {
        set.insert(*number)?;
    }
    Ok(set)
}

fn number_at(numbers: &[usize], n: usize) -> usize
    requires { n < length numbers.now }
    ensures { result ≡ slice_index_or numbers.now n result }
{
    numbers[n]
}

fn has(set: &BTreeSet<usize>, n: usize) -> bool
    ensures { result ≡ contains nat_cmp set.now n }
{
    set.contains(&n)
}

/// Returns whether the completion of upload `n` was sent.
fn is_sent(worn: usize, lanes: &Lanes, done: &BTreeSet<usize>, n: usize) -> bool
    ensures { result ≡ (nat_eq n worn || (is_tried lanes.now.turns n || contains nat_cmp done.now n)) }
{
    n == worn || (lanes.is_tried(n) || has(done, n))
}

/// Adds the abort of an upload and the deletion of its key, if its completion was sent and got no
/// answer.
fn add_if_tried(list: &mut UndoList, lanes: &Lanes, n: usize) -> Result<(), AllocError>
    ensures { OnOk result (list.new ≡ with_tried (is_tried lanes.now.turns n) n list.old) }
{
    if !lanes.is_tried(n) {
        return Ok(());
    }
    list.add(Undo::Delete(n))?;
    list.add(Undo::Abort(n))
}

/// Adds the abort of an upload whose completion was never sent.
fn add_if_unsent(list: &mut UndoList, was_sent: bool, n: usize) -> Result<(), AllocError>
    ensures { OnOk result (list.new ≡ with_unsent was_sent n list.old) }
{
    if was_sent {
        return Ok(());
    }
    list.add(Undo::Abort(n))
}

/// Adds the abort of each upload whose completion was never sent.
fn add_unsent(
    list: &mut UndoList,
    worn: usize,
    lanes: &Lanes,
    done: &BTreeSet<usize>,
    total: usize,
) -> Result<(), AllocError>
    requires { (n : ℕ) → contains nat_cmp done.now n ≡ is_in lanes.now.finished n }
    ensures adds { OnOk result (Adds total
        (λ all. map abort (chosen (is_unsent worn lanes.now.turns lanes.now.finished) 0 all)) list.old list.new) }
    ensures within { OnOk result (NumbersWithin total list.old → NumbersWithin total list.new) }
{
    let mut n = total;
    while 0 < n {
        n -= 1;
        let sent = is_sent(worn, lanes, done, n);
        add_if_unsent(list, sent, n)?;
    }
    Ok(())
}

/// Adds the deletion of each completed key, in the order of completion.
fn add_completed(list: &mut UndoList, finished: &[usize], total: usize) -> Result<(), AllocError>
    requires { (n : ℕ) → In n finished.now → n < total }
    ensures adds { OnOk result (Adds total (λ all. map deletion (in_turn all (reverse finished.now)))
        list.old list.new) }
    ensures within { OnOk result (NumbersWithin total list.old → NumbersWithin total list.new) }
{
    let mut n = finished.len();
    while 0 < n {
        n -= 1;
        let number = number_at(finished, n);
        list.add(Undo::Delete(number))?;
    }
    Ok(())
}

/// Adds the abort and the deletion of each upload whose completion was sent and got no answer.
fn add_tried(list: &mut UndoList, lanes: &Lanes, total: usize) -> Result<(), AllocError>
    ensures adds { OnOk result (Adds total (λ all. undo (chosen (is_tried lanes.now.turns) 0 all)) list.old list.new) }
    ensures within { OnOk result (NumbersWithin total list.old → NumbersWithin total list.new) }
{
    let mut n = total;
    while 0 < n {
        n -= 1;
        add_if_tried(list, lanes, n)?;
    }
    Ok(())
}

/// Returns the requests of a revert after the completion of upload `worn` exhausted its retries.
/// That upload is no longer in turn. The order is:
///
/// - its abort, and the deletion of its key;
/// - the same for each other upload whose completion was sent and got no answer, by number;
/// - the deletion of each completed key, in the order of completion;
/// - the abort of each upload whose completion was never sent, by number.
pub fn revert(
    alloc: Global,
    worn: usize,
    lanes: &Lanes,
    total: usize,
) -> Result<UndoList, AllocError>
    requires finished { (n : ℕ) → In n lanes.now.finished → n < total }
    requires worn { worn < total }
    ensures within { IfOk result (λ list. NumbersWithin total list) }
    ensures is { IfOk result (λ list. IsRevert total worn lanes.now.turns lanes.now.finished list) }
{
    let finished = lanes.finished();
    let done = numbers_in(alloc, finished)?;
    let mut list = UndoList::new(alloc);
    add_unsent(&mut list, worn, lanes, &done, total)?;
    add_completed(&mut list, finished, total)?;
    add_tried(&mut list, lanes, total)?;
    list.add(Undo::Delete(worn))?;
    list.add(Undo::Abort(worn))?;
    Ok(list)
}
