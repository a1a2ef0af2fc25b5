//! Operations as machines that send one request at a time, and how they are driven: with retries,
//! and with one journal entry for each send (one try of a request). An actor that runs among
//! others holds an operation together with its plan.
//!
//! # What is proved
//!
//! - `Retrying`: a machine under retries. Its requests and its course are those that `retried` of
//!   `retries` gives. It tells whether a send was answered, will be made again, or was the last.
//! - `send`: for every machine that keeps the laws and for every store, appends the one entry of a
//!   send. The entry's place is reserved before the send.
//! - `drive`: sends the machine's requests until there is no next one, into an honest journal
//!   (`Drove`). It sends each request at most `retries + 1` times. It fails with StoreFault
//!   exactly if a request exhausted its retries (`Tried`). The entries alone say the same, if no
//!   send of the present request came before (`literal`). It makes one request for each entry.
//!   Losses never fall, and do not change if each entry was answered (`Counted`).
//! - `PlannedMachine`: an operation that an actor holds together with its plan is a machine. Its requests
//!   and its course are those of the operation. If memory runs out, it is broken off and has no
//!   next request.
#![tactic(auto)]

mod driving;
mod operation;
mod planned_machine;
mod planned_operation;
mod retrying;

pub use driving::{DriveStop, drive, send, write_down};
pub use operation::Machine;
pub use planned_machine::PlannedMachine;
pub use planned_operation::{Asked, PlannedOperation};
pub use retrying::{Retrying, Turn};
