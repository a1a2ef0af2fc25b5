ghost use Rattle.std.specs.Prelude.{◌≡◌, [], Some, None, IfOk, if◌then◌else◌};
ghost use Rattle.serde_json.specs.Find.{as_str};
ghost use Rattle.serde_json.specs.View.{view, items_view};
ghost use Rattle.pending_json.specs.Fault.{Gives};
ghost use Rattle.pending_json.specs.Fields.{field, all_of, as_texts};

use crate::fault::{RecordFault, wrong_kind};
use crate::fields::list_field;
use s3_types::{Sequence, Text, TextList, let_go};
use serde_json::Value;
use std::alloc::{AllocError, Global};

/// Adds the texts of a list. Returns true if all its values are texts.
fn add_texts(alloc: Global, texts: &mut TextList, list: &[Value]) -> Result<bool, AllocError>
    requires { texts.old ≡ [] }
    ensures { IfOk result (λ all. all_of as_str (items_view list.now) ≡ if all then Some texts.new else None) }
{
    for value in list {
        let Some(text) = value.as_str() else {
            return Ok(false);
        };
        texts.push(Text::copied(alloc, text)?)?;
    }
    Ok(true)
}

/// A field that is a list of texts, in any order.
pub fn texts_field(alloc: Global, value: &Value, name: &str) -> Result<TextList, RecordFault>
    ensures { Gives result (field as_texts name.now (view value.now)) }
{
    let list = list_field(alloc, value, name)?;
    let mut texts = Sequence::new(alloc);
    let fault = match add_texts(alloc, &mut texts, list) {
        Ok(true) => return Ok(texts),
        Ok(false) => wrong_kind(alloc, name),
        Err(_) => RecordFault::NoMemory,
    };
    let_go(texts);
    Err(fault)
}
