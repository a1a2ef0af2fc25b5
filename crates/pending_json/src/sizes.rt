ghost use Rattle.std.specs.Prelude.{◌≡◌, IfOk, codes, length, true};
ghost use Rattle.serde_json.specs.View.{view, items_view};
ghost use Rattle.pending_json.specs.Fault.{Gives};
ghost use Rattle.pending_json.specs.Fields.{field, all_of, as_whole, as_sizes, sizes_in};
ghost use Rattle.pending_json.specs.Pending.{are_sizes, fit};

use crate::fault::{RecordFault, wrong_kind};
use crate::fields::list_field;
use s3_types::{Sequence, SizeList, TagList};
use serde_json::Value;
use std::alloc::{AllocError, Global};

fn sizes(alloc: Global, list: &[Value]) -> Result<Option<SizeList>, AllocError>
    ensures { IfOk result (λ found. found ≡ all_of as_whole (items_view list.now)) }
{
    let mut sizes = Sequence::new(alloc);
    for value in list {
        let Some(size) = value.as_u64() else {
            return Ok(None);
        };
        sizes.push(size)?;
    }
    Ok(Some(sizes))
}

/// True if there are `count` lengths, with the sum `total`.
pub fn fit(sizes: &[u64], count: usize, total: u64) -> bool
    ensures { result ≡ fit sizes.now count total }
{
    let mut left = total;
    for size in sizes {
        if *size > left {
            return false;
        }
        left -= *size;
    }
    sizes.len() == count && left == 0
}

/// A field that is a list of `count` lengths with the sum `total`.
fn told(alloc: Global, value: &Value, count: usize, total: u64) -> Result<SizeList, RecordFault>
    ensures read { Gives result (field (as_sizes count total) (codes "sizes") (view value.now)) }
    ensures fit { IfOk result (λ sizes. fit sizes count total ≡ true) }
{
    let list = list_field(alloc, value, "sizes")?;
    let Some(sizes) = sizes(alloc, list)? else {
        return Err(wrong_kind(alloc, "sizes"));
    };
    if fit(sizes.as_slice(), count, total) {
        Ok(sizes)
    } else {
        Err(wrong_kind(alloc, "sizes"))
    }
}

/// The lengths of the parts with these tags, if `sized`, of a file of this length.
pub fn sizes_field(
    alloc: Global,
    value: &Value,
    sized: bool,
    tags: &TagList,
    total: u64,
) -> Result<Option<SizeList>, RecordFault>
    ensures read { Gives result (sizes_in sized (length tags.now) total (view value.now)) }
    ensures fit { IfOk result (λ sizes. are_sizes sizes tags.now total ≡ true) }
{
    if sized {
        Ok(Some(told(alloc, value, tags.len(), total)?))
    } else {
        Ok(None)
    }
}
