//! Operations that are described by their phases, each of which sends one request. An operation
//! can be used as a machine, or performed alone.
//!
//! # What is proved
//!
//! - `Operation`: an operation that is described by its phases is a machine, for every plan that
//!   keeps `IsCourse`. If each of its requests may be made twice, its proof may assume that
//!   nothing is ever lost (`IsPlan`).
//! - `perform`: performs an operation alone. It returns what the plan gives (`given`). What the
//!   plan keeps holds before and after each send (one try of a request). Each request is one that
//!   the plan may send (`sends`). The entries, tries and counts are as with `drive` (`Performed`).
//!   It makes at most one request more than there are phases to come, each in at most `retries +
//!   1` sends (`few`). A clause of its own says what is left if each send was answered
//!   (`answered`).
#![tactic(auto)]

mod operation;
mod performing;
mod plan;

pub use operation::{Operation, OperationStage};
pub use performing::perform;
pub use plan::{Plan, Step};
