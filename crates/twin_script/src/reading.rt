ghost use Rattle.std.specs.Prelude.{◌≡◌, ◌||◌, true, IfOk, IfErr, Ok};
ghost use Rattle.job_script.specs.Script.{script_of};
ghost use Rattle.twin_script.specs.TwinScripts.{Twins, is_replace};
ghost use Rattle.twin_script.specs.Fault.{Gives, is_told};
ghost use Rattle.twin_script.specs.inner.Fault.{first_fault, second_fault};
ghost use Rattle.twin_script.specs.Twins as twins;
ghost use Rattle.twin_script.specs.declared.fault.TwinFault.TheVariants.{First, Second};

use crate::cutting::three_parts;
use crate::fault::TwinFault;
use crate::order::order_of;
use crate::turns::TurnList;
use crate::twins::Twins;
use job_model::Script;
use job_script::{ScriptFault, read_script};
use path_keys::S3Path;
use s3_types::{Fates, MOST_SCRIPT_BYTES, Mode, let_go};
use std::alloc::Global;

#[tactic(auto, using(crate::proofs::Pair::other_first))]
fn first_fault(fault: ScriptFault) -> TwinFault
    ensures { result ≡ first_fault fault }
{
    match fault {
        ScriptFault::NoMemory => TwinFault::NoMemory,
        fault => TwinFault::First(fault),
    }
}

#[tactic(auto, using(crate::proofs::Pair::other_second))]
fn second_fault(fault: ScriptFault) -> TwinFault
    ensures { result ≡ second_fault fault }
{
    match fault {
        ScriptFault::NoMemory => TwinFault::NoMemory,
        fault => TwinFault::Second(fault),
    }
}

fn first_script(alloc: Global, part: &[u8]) -> Result<Script, TwinFault>
    ensures exact { Gives result (twins.within First (script_of part.now)) }
    ensures told { IfErr result (λ fault. is_told fault ≡ true) }
{
    match read_script(alloc, part) {
        Ok(script) => Ok(script),
        Err(fault) => Err(first_fault(fault)),
    }
}

fn second_script(alloc: Global, part: &[u8]) -> Result<Script, TwinFault>
    ensures exact { Gives result (twins.within Second (script_of part.now)) }
    ensures told { IfErr result (λ fault. is_told fault ≡ true) }
{
    match read_script(alloc, part) {
        Ok(script) => Ok(script),
        Err(fault) => Err(second_fault(fault)),
    }
}

fn is_replace(mode: Mode) -> bool
    ensures { result ≡ is_replace mode }
{
    match mode {
        Mode::Replace => true,
        Mode::Fail | Mode::Append => false,
    }
}

fn is_same_dest(first: &S3Path, second: &S3Path) -> bool
    ensures { result ≡ twins.is_same_dest first.now second.now }
{
    first.bucket() == second.bucket() && first.key() == second.key()
}

fn names_fate(fates: &Fates) -> bool
    ensures { result ≡ twins.names_fate fates.now }
{
    match fates.first_from(0) {
        Some(_) => true,
        None => false,
    }
}

fn replaces(first: Mode, second: Mode) -> bool
    ensures { result ≡ (is_replace first || is_replace second) }
{
    is_replace(first) || is_replace(second)
}

/// The first fault of two scripts, by these findings.
fn told(same_job: bool, same_dest: bool, replaces: bool, loses: bool) -> Result<(), TwinFault>
    ensures exact { result ≡ twins.told same_job same_dest replaces loses }
    ensures told { IfErr result (λ fault. is_told fault ≡ true) }
{
    if same_job {
        return Err(TwinFault::SameJob);
    }
    if !same_dest {
        return Err(TwinFault::OtherDest);
    }
    if replaces {
        return Err(TwinFault::ReplaceMode);
    }
    if loses {
        return Err(TwinFault::SecondLoss);
    }
    Ok(())
}

/// Checks that two scripts may run at one destination.
fn fit(first: &Script, second: &Script) -> Result<(), TwinFault>
    ensures exact { result ≡ twins.fit first.now second.now }
    ensures told { IfErr result (λ fault. is_told fault ≡ true) }
{
    let same_job = first.job == second.job;
    let same_dest = is_same_dest(&first.dest, &second.dest);
    let replaces = replaces(first.mode, second.mode);
    let loses = names_fate(&second.fates);
    told(same_job, same_dest, replaces, loses)
}

/// The turns of an order of two scripts, if these may run at one destination.
#[tactic(auto, unfolding(crate::specs::Twins::turns_of))]
fn turns_of(
    alloc: Global,
    first: &Script,
    second: &Script,
    order: &[u8],
) -> Result<TurnList, TwinFault>
    ensures exact { Gives result (twins.turns_of first.now second.now order.now) }
    ensures told { IfErr result (λ fault. is_told fault ≡ true) }
{
    fit(first, second)?;
    order_of(
        alloc,
        first.events.len() as u64,
        second.events.len() as u64,
        order,
    )
}

#[tactic(auto, unfolding(crate::specs::Twins::paired))]
fn paired(alloc: Global, first: Script, second: Script, order: &[u8]) -> Result<Twins, TwinFault>
    ensures exact { Gives result (twins.paired first second order.now) }
    ensures told { IfErr result (λ fault. is_told fault ≡ true) }
{
    match turns_of(alloc, &first, &second, order) {
        Ok(order) => Ok(Twins {
            first,
            second,
            order,
        }),
        Err(fault) => {
            let_go(first);
            let_go(second);
            Err(fault)
        }
    }
}

#[tactic(auto, unfolding(crate::specs::Twins::with_second))]
fn with_second(alloc: Global, first: Script, part: &[u8], order: &[u8]) -> Result<Twins, TwinFault>
    ensures exact { Gives result (twins.with_second first part.now order.now) }
    ensures told { IfErr result (λ fault. is_told fault ≡ true) }
{
    match second_script(alloc, part) {
        Ok(second) => paired(alloc, first, second, order),
        Err(fault) => {
            let_go(first);
            Err(fault)
        }
    }
}

#[tactic(auto, unfolding(crate::specs::Twins::with_first))]
fn with_first(alloc: Global, part: &[u8], behind: &[u8], order: &[u8]) -> Result<Twins, TwinFault>
    ensures exact { Gives result (twins.with_first part.now behind.now order.now) }
    ensures told { IfErr result (λ fault. is_told fault ≡ true) }
{
    let first = first_script(alloc, part)?;
    with_second(alloc, first, behind, order)
}

#[tactic(auto, unfolding(crate::specs::Twins::twins_of))]
fn twins_in(alloc: Global, bytes: &[u8]) -> Result<Twins, TwinFault>
    ensures exact { Gives result (twins.twins_of bytes.now) }
    ensures told { IfErr result (λ fault. is_told fault ≡ true) }
{
    if bytes.len() > MOST_SCRIPT_BYTES as usize {
        return Err(TwinFault::TooLarge);
    }
    let Some((first, second, order)) = three_parts(bytes) else {
        return Err(TwinFault::NotThree);
    };
    with_first(alloc, first, second, order)
}

/// Reads two job scripts and an order, separated by two lines `=====`. The error is the first fault
/// in the order of `twins_of`:
///
/// 1. TooLarge for more than 67,108,864 bytes, and NotThree
/// 2. the fault of the first part, then that of the second
/// 3. SameJob, OtherDest, ReplaceMode, SecondLoss
/// 4. the first faulty line of the order
///
/// NoMemory alone may come at any place, and is never reported as the fault of a part. Takes one
/// pass over the input to separate it, and one over each part. Copies no part.
pub fn read_twins(alloc: Global, bytes: &[u8]) -> Result<Twins, TwinFault>
    ensures exact { Gives result (twins.twins_of bytes.now) }
    ensures found { IfOk result (λ t. twins.twins_of bytes.now ≡ Ok t) }
    ensures only { (t : Twins) → twins.twins_of bytes.now ≡ Ok t → Gives result (Ok t) }
    ensures told { IfErr result (λ fault. is_told fault ≡ true) }
{
    twins_in(alloc, bytes)
}
