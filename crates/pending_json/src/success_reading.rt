ghost use Rattle.std.specs.Prelude.{◌≡◌, IfOk, Ok, codes};
ghost use Rattle.serde_json.specs.View.{view, members_view};
ghost use Rattle.serde_json.specs.Find.{get};
ghost use Rattle.pending_json.specs.declared.records.SuccessMark.{SuccessMark};
ghost use Rattle.pending_json.specs.Fault.{Gives};
ghost use Rattle.pending_json.specs.Fields.{field, of_kind_if, as_whole, as_committer};
ghost use Rattle.pending_json.specs.inner.Groups.{mark_end_in, success_by};
ghost use Rattle.pending_json.specs.Reading.{success_of};
ghost use Rattle.pending_json.specs.Records.{Spell};
ghost use Rattle.pending_json.specs.Trees.{success_tree};

use crate::committers::committer_of;
use crate::fault::{RecordFault, wrong_kind};
use crate::fields::{members_of, str_field, version_field, word_field};
use crate::parsing::tree;
use crate::records::SuccessMark;
use crate::table::{Table, no_others};
use crate::texts::texts_field;
use s3_types::{Committer, Text, let_go};
use serde_json::{Map, Value};
use std::alloc::Global;

/// A field that is a committer's word.
fn committer_field(alloc: Global, value: &Value, name: &str) -> Result<Committer, RecordFault>
    ensures { Gives result (field as_committer name.now (view value.now)) }
{
    let word = str_field(alloc, value, name)?;
    match committer_of(word) {
        Some(committer) => Ok(committer),
        None => Err(wrong_kind(alloc, name)),
    }
}

/// A field that is an unsigned whole number below 2^64, or that is absent.
fn whole_field_if(alloc: Global, value: &Value, name: &str) -> Result<Option<u64>, RecordFault>
    ensures { Gives result (of_kind_if as_whole name.now (get name.now (view value.now))) }
{
    let Some(found) = value.get(name) else {
        return Ok(None);
    };
    match found.as_u64() {
        Some(n) => Ok(Some(n)),
        None => Err(wrong_kind(alloc, name)),
    }
}

/// The job and the stamp of `_SUCCESS`. It must have no other fields.
#[tactic(auto, unfolding(crate::specs::inner::Groups::mark_end_in))]
fn mark_end_of(
    alloc: Global,
    value: &Value,
    members: &Map<String, Value>,
) -> Result<(Text, Option<u64>), RecordFault>
    ensures { Gives result (mark_end_in (members_view members.now.entries) (view value.now)) }
{
    let job = str_field(alloc, value, "job")?;
    word_field(alloc, value, "kind", "success")?;
    let stamp = whole_field_if(alloc, value, "stamp")?;
    no_others(alloc, members, Table::Success)?;
    Ok((Text::copied(alloc, job)?, stamp))
}

#[tactic(auto, unfolding(crate::specs::inner::Groups::success_by))]
fn success_by(alloc: Global, value: &Value) -> Result<SuccessMark, RecordFault>
    ensures { Gives result (success_by (view value.now)) }
{
    let members = members_of(alloc, value)?;
    version_field(alloc, value)?;
    let committer = committer_field(alloc, value, "committer")?;
    let files = texts_field(alloc, value, "files")?;
    match mark_end_of(alloc, value, members) {
        Ok((job, stamp)) => Ok(SuccessMark {
            job,
            committer,
            files,
            stamp,
        }),
        Err(fault) => {
            let_go(files);
            Err(fault)
        }
    }
}

#[tactic(auto, using(crate::proofs::Whole::success_whole), unfolding(crate::specs::Reading::success_of))]
fn success_of(alloc: Global, bytes: &[u8]) -> Result<SuccessMark, RecordFault>
    ensures { Gives result (success_of bytes.now) }
{
    let value = tree(alloc, bytes)?;
    success_by(alloc, &value)
}

impl SuccessMark {
    /// Reads `_SUCCESS` from its JSON text, like `PendingUpload::read` and with the same order of
    /// checks. The kinds of the fields are:
    ///
    /// - `committer` is the word of a committer
    /// - `files` is a list of texts, in any order
    /// - `job` is a text, and `kind` is `success`
    /// - `stamp` is a whole number below 2^64, and may be absent
    pub fn read(alloc: Global, bytes: &[u8]) -> Result<SuccessMark, RecordFault>
        // The bytes spell each record that is read.
        ensures found { IfOk result (λ m. Spell bytes.now (success_tree m)) }
        // Each record that the bytes spell is read.
        ensures only { (m : SuccessMark) → Spell bytes.now (success_tree m) → Gives result (Ok m) }
        // The error is the first fault.
        ensures exact { Gives result (success_of bytes.now) }
    {
        success_of(alloc, bytes)
    }
}
