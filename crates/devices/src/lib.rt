//! The devices through which the program meets the outside: a source of input, a sink for output,
//! and a shelf that keeps the store. Each device counts its faults. Contracts see the bytes of the
//! devices in memory. They see nothing of the bytes of devices over the system's streams.
//!
//! # What is proved
//!
//! The traits `Source`, `Sink` and `kept::Shelf` say:
//!
//! - What a call takes, returns, writes or keeps, and which calls fail.
//! - A count of faults rises exactly when a call fails, and never falls.
//! - What a crash of a shelf may leave, at every point.
//! - A shelf takes appends from a `replace` that returns Ok until one of its calls returns Failed.
//!   No load starts that (`begins_none`, `ends`).
//! - An append that ran out of memory leaves everything as before (`same`, `kept`).
//! - The lengths by which a load is too large (`measured`).
//! - After a `flush` that returned Ok, everything that was written has gone out.
//!
//! The devices in memory meet the traits. Their named calls fail, and no others, except when
//! memory runs out; they count those faults apart. The devices over the system's streams meet the
//! traits too.
//!
//! Left open: which bytes the system's streams give and take, since their devices say nothing of
//! them. A `MemShelf` does not say what a crash leaves.
#![tactic(auto)]

mod calls;
mod device;
pub mod kept;
mod memory;
mod streams;

pub use calls::Calls;
pub use device::{CallList, Failed, Sink, Source};
pub use memory::{MemSink, MemSource, SureSource};
pub use streams::{StdSink, StdSource};
