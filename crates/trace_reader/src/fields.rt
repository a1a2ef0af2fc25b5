ghost use Rattle.std.specs.Prelude.{◌≡◌};
ghost use Rattle.text_and_lists.specs.Reading.{need};
ghost use Rattle.serde_json.specs.Find.{as_bool, as_str, get};
ghost use Rattle.serde_json.specs.View.{view};
ghost use Rattle.pending_json.specs.Fields.{as_u32};
ghost use Rattle.trace_reader.specs.declared.fault.TraceFault.TheVariants.{MissingField};
ghost use Rattle.trace_reader.specs.Faults.{Gives};
ghost use Rattle.trace_reader.specs.inner.Faults.{GivesBy};
ghost use Rattle.trace_reader.specs.Reading.{member, name_of};

use crate::fault::{Field, TraceFault};
use serde_json::Value;

impl Field {
    /// Returns the name of the member.
    pub fn name(self) -> &'static str
        ensures { result.now ≡ name_of self }
    {
        match self {
            Field::Op => "op",
            Field::Dest => "dest",
            Field::Keeps => "keeps",
            Field::Tasks => "tasks",
            Field::Task => "task",
            Field::Attempt => "attempt",
            Field::Path => "path",
            Field::Etags => "etags",
            Field::Bucket => "bucket",
            Field::Effect => "effect",
            Field::Key => "key",
            Field::Etag => "etag",
            Field::Source => "source",
            Field::Keys => "keys",
            Field::Parts => "parts",
        }
    }
}

/// Returns the value of a member, or the fault MissingField.
pub fn present(value: &Value, field: Field) -> Result<&Value, TraceFault>
    ensures { GivesBy (λ v. view v.now) result (need (get (name_of field) (view value.now)) (MissingField field)) }
{
    match value.get(field.name()) {
        Some(found) => Ok(found),
        None => Err(TraceFault::MissingField(field)),
    }
}

/// Returns a text member, borrowed from the line.
pub fn str_member(value: &Value, field: Field) -> Result<&str, TraceFault>
    ensures { GivesBy (λ t. t.now) result (member as_str field (view value.now)) }
{
    let found = present(value, field)?;
    match found.as_str() {
        Some(text) => Ok(text),
        None => Err(TraceFault::WrongKind(field)),
    }
}

/// Returns a member that is `true` or `false`.
pub fn bool_member(value: &Value, field: Field) -> Result<bool, TraceFault>
    ensures { Gives result (member as_bool field (view value.now)) }
{
    let found = present(value, field)?;
    match found.as_bool() {
        Some(is) => Ok(is),
        None => Err(TraceFault::WrongKind(field)),
    }
}

/// Returns an unsigned whole number below 2^32, if the value is one.
fn as_u32(value: &Value) -> Option<u32>
    ensures { result ≡ as_u32 (view value.now) }
{
    let Some(n) = value.as_u64() else {
        return None;
    };
    if n < 0x1_0000_0000 {
        Some(n as u32)
    } else {
        None
    }
}

/// Returns a member that is an unsigned whole number below 2^32.
pub fn u32_member(value: &Value, field: Field) -> Result<u32, TraceFault>
    ensures { Gives result (member as_u32 field (view value.now)) }
{
    let found = present(value, field)?;
    match as_u32(found) {
        Some(n) => Ok(n),
        None => Err(TraceFault::WrongKind(field)),
    }
}
