ghost use Rattle.std.specs.Prelude.{◌≡◌, ◌+◌, ◌≤◌, false, option_map, IfOk, IfSome};
ghost use Rattle.text_and_lists.specs.Words.{words_after};
ghost use Rattle.s3_types.specs.Fates.{is_answer, with_fates};
ghost use Rattle.job_script.specs.Fault.{Gives};
ghost use Rattle.job_script.specs.inner.Fault.{Makes};
ghost use Rattle.job_script.specs.HeadLines as lines;

use crate::draft::Loss;
use crate::fault::ScriptFault;
use crate::head::Head;
use crate::kinds::fate_of;
use s3_types::{FateFault, Fates};
use text_and_lists::{at_most_one, number_within, two_and_more};

/// COUNT, or 1 if it is absent.
fn count_of(word: Option<&str>) -> Option<u64>
    ensures count { result ≡ lines.count_of (option_map (λ w. w.now) word.entry) }
    ensures within { IfSome result (λ n. (1 ≤ n) × (n ≤ 1000)) }
{
    match word {
        Some(word) => number_within(1, 1000, word),
        None => Some(1),
    }
}

#[tactic(auto, unfolding(crate::specs::HeadLines::loss_of))]
fn loss_of(line: u64, rest: Option<&str>) -> Result<Loss, ScriptFault>
    ensures loss { Gives result (lines.loss_of line (words_after (option_map (λ r. r.now) rest.entry))) }
    ensures first { IfOk result (λ l. 1 ≤ l.first) }
    ensures some { IfOk result (λ l. 1 ≤ l.count) }
    ensures many { IfOk result (λ l. l.count ≤ 1000) }
    ensures last { IfOk result (λ l. l.first + l.count ≤ 1000000001) }
    ensures lost { IfOk result (λ l. is_answer l.fate ≡ false) }
{
    let Some((first, fate, more)) = two_and_more(rest) else {
        return Err(ScriptFault::BadLine(line));
    };
    let Some(third) = at_most_one(more) else {
        return Err(ScriptFault::BadLine(line));
    };
    let Some(fate) = fate_of(fate) else {
        return Err(ScriptFault::BadLine(line));
    };
    let Some(first) = number_within(1, 1_000_000_000, first) else {
        return Err(ScriptFault::BadNumber(line));
    };
    let Some(count) = count_of(third) else {
        return Err(ScriptFault::BadNumber(line));
    };
    if first + count > 1_000_000_001 {
        return Err(ScriptFault::BadNumber(line));
    }
    Ok(Loss {
        first,
        fate,
        count: count as u32,
    })
}

/// Gives the sends their fate.
fn named(fates: &mut Fates, line: u64, loss: Loss) -> Result<(), ScriptFault>
    requires first { 1 ≤ loss.first }
    requires some { 1 ≤ loss.count }
    requires many { loss.count ≤ 1000 }
    requires last { loss.first + loss.count ≤ 1000000001 }
    requires lost { is_answer loss.fate ≡ false }
    ensures { Makes result fates.new (lines.named_at line loss fates.old) }
{
    match fates.add(loss.first, loss.fate, loss.count) {
        Ok(()) => Ok(()),
        Err(FateFault::Taken(_)) => Err(ScriptFault::RepeatedName(line)),
        Err(FateFault::NoMemory) => Err(ScriptFault::NoMemory),
    }
}

/// Adds the contents of a line `loss`.
#[tactic(auto, unfolding(crate::specs::HeadLines::loss_at))]
pub fn loss_line(head: &mut Head, line: u64, rest: Option<&str>) -> Result<(), ScriptFault>
    ensures { Makes result head.new (lines.loss_at line head.old (words_after (option_map (λ r. r.now) rest.entry))) }
{
    let loss = loss_of(line, rest)?;
    named(&mut head.fates, line, loss)?;
    if head.losses_left == 0 {
        return Err(ScriptFault::TooLarge);
    }
    head.losses_left -= 1;
    Ok(())
}
