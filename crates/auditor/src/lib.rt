//! An audit of a trace, line by line. It keeps what the lines so far say, and reports for each line
//! whether it has a fault and whether readers are still safe.
//!
//! # What is proved
//!
//! - `Auditor::take` keeps a line that has no fault and with which readers are still safe
//!   (`IsTold`). Else it returns the first reason why readers are not safe (`IsUnsound` of
//!   `audit_model`), or the first fault of the line (`IsFaulty`).
//! - `Audit` returns how many requests changed something, which success marker exists, and, if a
//!   new marker exists, the least attempt of each task that explains what readers saw.
//!
//! After a reason or a fault nothing is promised for other lines. Left open: that NoMemory comes
//! only if memory runs out.
#![tactic(auto)]

mod audit;
mod auditor;
mod destination;
mod paths;

pub use audit::Audit;
pub use auditor::Auditor;
