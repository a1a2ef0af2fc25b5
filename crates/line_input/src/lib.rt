//! Reads the lines of an input one by one, even if the input is larger than memory.
//!
//! # What is proved
//!
//! `LineInput`, if the source shows its bytes:
//!
//! - Each call of `next` gives the first line of the unread bytes, and leaves those after its line
//!   feed.
//! - It may give a line of more than `most` bytes in part. The part has more than `most` bytes
//!   too.
//! - It says that there is no line only if no byte is unread.
//! - After a failed call the same bytes are unread as before. `Failed` comes only if the source's
//!   count of faults rose.
//! - The buffer never grows beyond `most` and 64 KiB.
//!
//! `line_laws`: a text that is not empty has its first line, and then the lines of the bytes after
//! it.
//!
//! Left open: the lines of a source that shows nothing of its bytes.
#![tactic(auto)]

mod buffer;
mod input;
mod laws;
#[cfg(test)]
mod tests;

pub use buffer::{CHUNK_BYTES, InputFault};
pub use input::LineInput;
pub use laws::line_laws;
