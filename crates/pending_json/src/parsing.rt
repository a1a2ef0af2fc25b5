ghost use Rattle.std.specs.Prelude.{◌≡◌};
ghost use Rattle.serde_json.specs.View.{view};
ghost use Rattle.pending_json.specs.inner.Fault.{GivesBy};
ghost use Rattle.pending_json.specs.Reading.{tree_read, parsed};

use crate::fault::RecordFault;
use serde_json::Value;
use std::alloc::Global;

/// The JSON tree of a text. The error is NotJson.
pub fn tree(alloc: Global, bytes: &[u8]) -> Result<Value, RecordFault>
    ensures { GivesBy view result (parsed (tree_read bytes.now)) }
{
    match Value::from_slice(alloc, bytes) {
        Ok(value) => Ok(value),
        Err(e) => {
            if e.is_memory() {
                Err(RecordFault::NoMemory)
            } else {
                Err(RecordFault::NotJson)
            }
        }
    }
}
