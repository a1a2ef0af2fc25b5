ghost use Rattle.std.specs.Prelude.{◌≡◌, ℕ, List, [], ◌++◌, ◌<◌, ◌≤◌, length, IfOk};
ghost use Rattle.std.specs.List.{concat};
ghost use Rattle.block_stream.specs.Holds.{AreLong};

use crate::queue::Queue;
use s3_types::Bytes;
use std::alloc::{AllocError, Global};

/// Cuts the bytes of `first` and `piece` into whole blocks, which are put into the empty queue, and
/// returns the rest, which is shorter than a block.
pub fn cut(
    alloc: Global,
    first: &[u8],
    piece: &[u8],
    block: u64,
    queue: &mut Queue,
) -> Result<Vec<u8>, AllocError>
    requires short { length first.now < block }
    requires empty { queue.old ≡ [] }
    ensures joined { IfOk result (λ rest. concat queue.new ++ rest.items ≡ first.now ++ piece.now) }
    ensures long { IfOk result (λ rest. AreLong block queue.new) }
    ensures rest { IfOk result (λ rest. length rest.items < block) }
{
    let size = block as usize;
    let mut rest = Vec::from_slice(alloc, first)?;
    let mut left = piece;
    'filling: loop {
        let room = size - rest.len();
        if left.len() < room {
            rest.extend_from_slice(left)?;
            return Ok(rest);
        }
        let (head, tail) = left.split_at(room);
        rest.extend_from_slice(head)?;
        queue.push(Bytes::new(alloc, rest)?)?;
        rest = Vec::new(alloc);
        left = tail;
    }
}
