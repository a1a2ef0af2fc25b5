ghost use Rattle.std.specs.Prelude.{◌≡◌, IfOk, Ok};
ghost use Rattle.serde_json.specs.View.{view, items_view};
ghost use Rattle.pending_json.specs.declared.records.PendingSet.{PendingSet};
ghost use Rattle.pending_json.specs.Fault.{Gives};
ghost use Rattle.pending_json.specs.inner.Groups.{commits_in, set_by};
ghost use Rattle.pending_json.specs.Reading.{pendings_in, set_of};
ghost use Rattle.pending_json.specs.Records.{IsSet, Spell};
ghost use Rattle.pending_json.specs.Trees.{set_tree};

use crate::fault::RecordFault;
use crate::fields::{list_field, members_of};
use crate::groups::{attempt_of, set_end_of};
use crate::parsing::tree;
use crate::pending_reading::pending_in;
use crate::quick::printed_set;
use crate::records::{PendingList, PendingSet};
use s3_types::{Sequence, let_go};
use serde_json::Value;
use std::alloc::Global;

/// The pending uploads of a list, or the fault of the first faulty one.
#[tactic(auto, unfolding(crate::specs::Reading::pendings_in))]
fn pendings_in(alloc: Global, list: &[Value]) -> Result<PendingList, RecordFault>
    ensures { Gives result (pendings_in (items_view list.now)) }
{
    let mut commits = Sequence::new(alloc);
    for value in list {
        let pending = pending_in(alloc, value)?;
        commits.push(pending)?;
    }
    Ok(commits)
}

#[tactic(auto, unfolding(crate::specs::inner::Groups::commits_in))]
fn commits_of(alloc: Global, value: &Value) -> Result<PendingList, RecordFault>
    ensures { Gives result (commits_in (view value.now)) }
{
    let list = list_field(alloc, value, "commits")?;
    pendings_in(alloc, list)
}

#[tactic(auto, unfolding(crate::specs::inner::Groups::set_by))]
fn set_by(alloc: Global, value: &Value) -> Result<PendingSet, RecordFault>
    ensures { Gives result (set_by (view value.now)) }
{
    let members = members_of(alloc, value)?;
    let attempt = attempt_of(alloc, value)?;
    let commits = commits_of(alloc, value)?;
    match set_end_of(alloc, value, members) {
        Ok((job, task)) => Ok(PendingSet {
            job,
            task,
            attempt,
            commits,
        }),
        Err(fault) => {
            let_go(commits);
            Err(fault)
        }
    }
}

#[tactic(auto, using(crate::proofs::Whole::set_whole), unfolding(crate::specs::Reading::set_of))]
fn set_by_tree(alloc: Global, bytes: &[u8]) -> Result<PendingSet, RecordFault>
    ensures { Gives result (set_of bytes.now) }
{
    let value = tree(alloc, bytes)?;
    set_by(alloc, &value)
}

/// The set in a text. The printed text is read quickly, any other one by its tree.
fn set_of(alloc: Global, bytes: &[u8]) -> Result<PendingSet, RecordFault>
    ensures { Gives result (set_of bytes.now) }
{
    match printed_set(alloc, bytes) {
        Some(set) => Ok(set),
        None => set_by_tree(alloc, bytes),
    }
}

impl PendingSet {
    /// Reads a task's set from its JSON text, like `PendingUpload::read` and with the same order of
    /// checks. A fault in an object of `commits` is the fault that reading this object alone would
    /// give, and the first faulty object of the list decides. The kinds of the fields are:
    ///
    /// - `attempt` and `task` are whole numbers below 2^32
    /// - `job` is a text, and `kind` is `pendingset`
    /// - `commits` is a list of such objects
    pub fn read(alloc: Global, bytes: &[u8]) -> Result<PendingSet, RecordFault>
        // The bytes spell each record that is read.
        ensures found { IfOk result (λ s. Spell bytes.now (set_tree s)) }
        // Each record that the bytes spell is read.
        ensures only { (s : PendingSet) → IsSet s → Spell bytes.now (set_tree s) → Gives result (Ok s) }
        // The error is the first fault.
        ensures exact { Gives result (set_of bytes.now) }
    {
        set_of(alloc, bytes)
    }
}
