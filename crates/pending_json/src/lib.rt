//! The records that a committer stores as JSON: a pending upload, a task's set of these, and
//! `_SUCCESS`. (Hadoop, S3A committer architecture: `SinglePendingCommit`, `PendingSet` and
//! `SuccessData`; the fields are those of this project.)
//!
//! # What is proved
//!
//! the three records' `print` and `read`:
//!
//! - `print` returns the one JSON text of the record's tree. A pending upload has version 2 exactly
//!   if it has the lengths of its parts.
//! - `read` returns a record whose tree `serde_json` reads from the bytes (`found`), and returns
//!   each record whose tree that is (`only`). Otherwise its error is the first fault in the order
//!   of the checks (`exact`).
//! - Reading the text of a record gives that record.
//! - ExtraField names the least of the fields that no such record has.
#![tactic(auto)]

ghost use Rattle.std.specs.Prelude.{◌≡◌, ℕ, List, Ok, Err, Some};
ghost use Rattle.serde_json.specs.Data.{Data, Items, Members, array, object};
ghost use Rattle.serde_json.specs.Find.{get, get_item};
ghost use Rattle.serde_json.specs.Written.{compact_text};
ghost use Rattle.pending_json.specs.declared.records.PendingSet.{PendingSet};
ghost use Rattle.pending_json.specs.declared.records.SuccessMark.{SuccessMark};
ghost use Rattle.pending_json.specs.declared.fault.RecordFault.TheVariants.{ExtraField};
ghost use Rattle.pending_json.specs.declared.table.Table.{Table};
ghost use Rattle.pending_json.specs.Fields.{only_fields};
ghost use Rattle.pending_json.specs.Pending.{Pending};
ghost use Rattle.pending_json.specs.Reading.{is_field_of, pending_of, set_of, success_of};
ghost use Rattle.pending_json.specs.Records.{IsPending, IsSet, IsMark, IsLeastOther, Spell};
ghost use Rattle.pending_json.specs.Trees.{pending_tree, set_tree, success_tree};

mod committers;
mod drafts;
mod fault;
mod fields;
mod groups;
mod parsing;
mod pending;
mod pending_reading;
mod printing;
mod quick;
mod records;
mod scanning;
mod sending;
mod set_reading;
mod sizes;
mod success_reading;
mod table;
mod tags;
mod texts;

pub use committers::{committer_of, committer_word};
pub use fault::RecordFault;
pub use pending::PendingUpload;
pub use records::{PendingList, PendingSet, SuccessMark};

/// Reading the text that a record prints gives that record. This is a law of the texts, independent
/// of memory.
pub fn read_again()
    ensures uploads { (p : Pending) → IsPending p → pending_of (compact_text (pending_tree p)) ≡ Ok p }
    ensures sets { (s : PendingSet) → IsSet s → set_of (compact_text (set_tree s)) ≡ Ok s }
    ensures marks { (m : SuccessMark) → IsMark m → success_of (compact_text (success_tree m)) ≡ Ok m }
{}

/// ExtraField names the field that is least by its bytes, of those that no such record has. This
/// holds for a text that is an object, and for an object in a list that is a field of it.
pub fn extra_field_is_least()
    ensures whole { (table : Table) (bytes : List ℕ) (ms : Members) (name : List ℕ) → Spell bytes (object ms)
        → only_fields (is_field_of table) ms ≡ Err (ExtraField name) → IsLeastOther table (object ms) name }
    ensures listed { (table : Table) (bytes : List ℕ) (d : Data) (list : List ℕ) (ds : Items) (i : ℕ) (ms : Members)
        (name : List ℕ) → Spell bytes d
        → get list d ≡ Some (array ds) → get_item i ds ≡ Some (object ms)
        → only_fields (is_field_of table) ms ≡ Err (ExtraField name) → IsLeastOther table (object ms) name }
{}
