ghost use Rattle.std.specs.Prelude.{◌≡◌};
ghost use Rattle.serde_json.specs.View.{members_view};
ghost use Rattle.pending_json.specs.Fault.{Gives};
ghost use Rattle.pending_json.specs.Fields.{only_fields};
ghost use Rattle.pending_json.specs.Reading.{is_field_of, pending_table};

use crate::fault::RecordFault;
use s3_types::Text;
use serde_json::{Map, Value};
use std::alloc::Global;

/// The kinds of objects, each with its own fields.
#[derive(Clone, Copy)]
pub enum Table {
    Pending,
    SizedPending,
    Set,
    Success,
}

const UPLOAD_FIELDS: [&str; 9] = [
    "attempt",
    "bucket",
    "destination",
    "etags",
    "kind",
    "length",
    "task",
    "upload",
    "version",
];

const SIZED_UPLOAD_FIELDS: [&str; 10] = [
    "attempt",
    "bucket",
    "destination",
    "etags",
    "kind",
    "length",
    "sizes",
    "task",
    "upload",
    "version",
];

const SET_FIELDS: [&str; 6] = ["attempt", "commits", "job", "kind", "task", "version"];

const SUCCESS_FIELDS: [&str; 6] = ["committer", "files", "job", "kind", "stamp", "version"];

fn is_field_of(table: Table, name: &str) -> bool
    ensures { result ≡ is_field_of table name.now }
{
    match table {
        Table::Pending => UPLOAD_FIELDS.contains(&name),
        Table::SizedPending => SIZED_UPLOAD_FIELDS.contains(&name),
        Table::Set => SET_FIELDS.contains(&name),
        Table::Success => SUCCESS_FIELDS.contains(&name),
    }
}

/// The fields of a pending upload with the lengths of its parts, if `sized`, or without them.
pub fn pending_table(sized: bool) -> Table
    ensures { result ≡ pending_table sized }
{
    if sized {
        Table::SizedPending
    } else {
        Table::Pending
    }
}

/// Checks that an object has only the fields of a table. The error is ExtraField with the least
/// other name.
pub fn no_others(
    alloc: Global,
    members: &Map<String, Value>,
    table: Table,
) -> Result<(), RecordFault>
    ensures { Gives result (only_fields (is_field_of table) (members_view members.now.entries)) }
{
    for (name, _) in members {
        if !is_field_of(table, name) {
            return Err(RecordFault::ExtraField(Text::copied(alloc, name)?));
        }
    }
    Ok(())
}
