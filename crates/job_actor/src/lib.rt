//! The operation that an actor of a job is running. It asks one request after another and learns
//! the outcome of each send. The crate has one such send with its entry in the journal, and what
//! operations owe to a run: they do what the job's script says, and each outcome that is due fits
//! them.
//!
//! # What is proved
//!
//! - `post` sends the asked request once, for every operation that keeps the laws of `Acts` and for
//!   every store. It takes the entry's place in the journal before it sends. The one entry that it
//!   appends has this actor and event, the asked request, and an outcome that is honest and
//!   foretold. Then it tells the operation the outcome (`posted`). If memory runs out before the
//!   send, nothing has changed. If it runs out in the operation when that receives the outcome, the
//!   entry stays and the operation has ended. The store's counts go with the entries (`counts`).
//! - The trait `Works` has the laws of operations. An operation begins as the script begins it, by
//!   the tasks that are reported (`IsReport`), whether or not another job shares the destination.
//!   In every run of a legal script the operations of its actors ask and go on as the script says,
//!   and each outcome that is due fits them. No request of another actor raises what an attempt has
//!   left to send. An attempt's request raises what the driver has left by at most a number that
//!   the script gives. The job's commit has picked what the journal shows (`WorkLaws`).
//! - `picks_go`: when the driver is running the job's commit, and that nothing is picked before it.
#![tactic(auto)]

mod acts;
mod picks;
mod plan;
mod posting;
mod reported;
mod works;

pub use acts::{Acts, asks};
pub use picks::picks_go;
pub use plan::Plan;
pub use posting::{Posted, post};
pub use reported::Reported;
pub use works::Works;
