//! `CopyTree` copies all that is below a directory to another place of its bucket. A copy that was
//! stopped can be made again: the keys that it had copied exist and are left as they are. (Hadoop
//! FileSystem shell, cp.)
//!
//! # What is proved
//!
//! `CopyTree`:
//!
//! - It is refused, with nothing changed, by the first that applies: `OtherBucket`, with nothing
//!   sent, `NoSuchBucket`, `Overlap`, `SourceIsFile`, `SourceMissing`, `TargetFile` with the first
//!   such path from the root down, `TooLong` with the first key that would be over its limit,
//!   `Differs` with the least new key that exists with other bytes or another header.
//! - At `Ok` each key below the source has its copy with the same rest, header included. The answer
//!   counts those that were absent and those that existed. Every other key is as it was (`copies`).
//! - At every point each new key that was absent is still absent or is its source's whole copy. The
//!   copies come in the order of their keys. Every other key is as it was.
//! - It sends only looks, reads, and, if the source may be copied, copies of keys to new keys that
//!   were absent (`performed`).
//! - It sends at most `retries + 1` times as many requests as `most_copies` gives: eight, one for
//!   the target's path and each path above it, four for each key below the source, and two for each
//!   key below the target (`few`).
//!
//! `copies_resume`: after a stop at any point a second copy is not refused, and ends with the
//! objects of one that was never stopped.
#![tactic(auto)]

mod copy;
mod laws;
mod names;
mod parts;
mod stages;

pub use copy::{CopyEnd, CopyTree};
pub use laws::copies_resume;
