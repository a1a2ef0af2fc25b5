ghost use Rattle.std.specs.Prelude.{◌≡◌, IfOk, Ok};
ghost use Rattle.serde_json.specs.View.{view};
ghost use Rattle.pending_json.specs.Fault.{Gives};
ghost use Rattle.pending_json.specs.inner.Groups.{pending_by};
ghost use Rattle.pending_json.specs.Pending.{Pending};
ghost use Rattle.pending_json.specs.Reading.{pending_in, pending_of};
ghost use Rattle.pending_json.specs.Records.{IsPending, Spell};
ghost use Rattle.pending_json.specs.Trees.{pending_tree};

use crate::fault::RecordFault;
use crate::fields::{is_sized, members_of};
use crate::groups::{joined, numbers_of, parts_of, target_of};
use crate::parsing::tree;
use crate::pending::PendingUpload;
use crate::quick::printed_upload;
use s3_types::let_go;
use serde_json::Value;
use std::alloc::Global;

#[tactic(auto, unfolding(crate::specs::inner::Groups::pending_by))]
fn pending_by(alloc: Global, value: &Value) -> Result<PendingUpload, RecordFault>
    ensures { Gives result (pending_by (view value.now)) }
{
    let members = members_of(alloc, value)?;
    let sized = is_sized(alloc, value)?;
    let target = target_of(alloc, value)?;
    let parts = match parts_of(alloc, value, sized) {
        Ok(parts) => parts,
        Err(fault) => {
            let_go(target);
            return Err(fault);
        }
    };
    match numbers_of(alloc, value, sized, members) {
        Ok(numbers) => Ok(joined(target, parts, numbers)),
        Err(fault) => {
            let_go(target);
            let_go(parts);
            Err(fault)
        }
    }
}

/// The pending upload in a JSON value, or its first fault.
pub fn pending_in(alloc: Global, value: &Value) -> Result<PendingUpload, RecordFault>
    ensures { Gives result (pending_in (view value.now)) }
{
    pending_by(alloc, value)
}

#[tactic(auto, unfolding(crate::specs::Reading::pending_of))]
fn pending_by_tree(alloc: Global, bytes: &[u8]) -> Result<PendingUpload, RecordFault>
    ensures { Gives result (pending_of bytes.now) }
{
    let value = tree(alloc, bytes)?;
    pending_in(alloc, &value)
}

/// The pending upload in a text. The printed text is read quickly, any other one by its tree.
fn pending_of(alloc: Global, bytes: &[u8]) -> Result<PendingUpload, RecordFault>
    ensures { Gives result (pending_of bytes.now) }
{
    match printed_upload(alloc, bytes) {
        Some(upload) => Ok(upload),
        None => pending_by_tree(alloc, bytes),
    }
}

impl PendingUpload {
    /// Reads a pending upload from its JSON text. The members may be in any order, with blanks and
    /// escapes as JSON has them (RFC 8259). Of members with the same name the last one counts.
    ///
    /// The error is the first of these that applies:
    ///
    /// 1. NotJson: the bytes are not UTF-8, not JSON, or nest deeper than 127
    /// 2. WrongKind with an empty name: the text is no object
    /// 3. MissingField, WrongKind or WrongVersion of `version`
    /// 4. MissingField or WrongKind of the other fields, in the byte order of their names
    /// 5. ExtraField with the least name that no pending upload has
    ///
    /// NoMemory can come at any time. The kinds of the fields are:
    ///
    /// - `attempt` and `task` are whole numbers below 2^32, `length` and `upload` below 2^64
    /// - `bucket` is a bucket's name, `destination` a key, and `kind` is `pending`
    /// - `etags` is a list of 1 to 10,000 tags of 32 lower-case hex digits
    /// - `version` is 1 or 2; version 2 alone has `sizes`, a list of as many whole numbers as
    ///   `etags`, whose sum is `length`
    pub fn read(alloc: Global, bytes: &[u8]) -> Result<PendingUpload, RecordFault>
        // The bytes spell each record that is read.
        ensures found { IfOk result (λ p. Spell bytes.now (pending_tree p)) }
        // Each record that the bytes spell is read.
        ensures only { (p : Pending) → IsPending p → Spell bytes.now (pending_tree p) → Gives result (Ok p) }
        // The error is the first fault.
        ensures exact { Gives result (pending_of bytes.now) }
    {
        pending_of(alloc, bytes)
    }
}
