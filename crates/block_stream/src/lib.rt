//! Output streams that cut what is written into blocks. A short output is one put. A longer one is
//! a multipart upload, which is completed at the close or left for a committer. (Hadoop, S3A: block
//! output.)
//!
//! # What is proved
//!
//! All this holds over a store that has the stream's bucket and whose least part is no longer than
//! a block.
//!
//! - `BlockStream::write` fails with `TooLong` exactly if all that was written would be more than
//!   10,000 blocks (`long`). Otherwise what the stream holds grows by the piece, and a request that
//!   is there stays the same. `close` keeps both.
//! - `drive_stream`, for a stream that is driven alone, whatever is lost: what was written stays
//!   held. If the stream is closed and no request exhausts its retries, it is stored. The object,
//!   or the parts of the live upload joined in order, are the bytes of all pieces joined. Each part
//!   but the last has the block's length, and the last is no longer (`holds`, `stored`).
//! - `delayed` returns the upload, its tags and its length.
//! - `is_answer` returns whether a reply answers the current request.
//! - `block_of` is the length of a file's parts.
#![tactic(auto)]

mod asking;
mod block;
mod cutting;
mod delayed;
mod driving;
mod mode;
mod queue;
mod stage;
mod stream;

pub use block::block_of;
pub use delayed::Delayed;
pub use driving::drive_stream;
pub use mode::{StreamEnd, StreamFault, StreamMode};
pub use stream::BlockStream;
