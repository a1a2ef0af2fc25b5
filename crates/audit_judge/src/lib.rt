//! A judge of the moments of a run. It follows what readers see, change by change, and reports when
//! they are not safe, and why.
//!
//! # What is proved
//!
//! - `Judge::change`: as long as the run is sound, the judge knows it (`Follows`). At the first
//!   moment at which it is not, the judge returns the first reason that holds (`IsFirst`). It
//!   checks the changed paths alone, but all paths if a new success marker has just been put.
//! - `pick` returns the least attempt of a task that explains all moments so far.
//! - `judge_laws`: if the judge follows a run, the run is sound, and its reasons show that a run is
//!   not. While a new marker exists, each task has an attempt that explains all moments.
//!
//! Left open: the state after an error of `change` or `add_opening`, and that an error comes only
//! if memory runs out.
#![tactic(auto)]

mod change;
mod flags;
mod judge;
mod known;
mod laws;
mod moment;
mod narrow;
mod reason;
mod shows;
mod signs;

pub use change::Change;
pub use judge::Judge;
pub use laws::judge_laws;
pub use reason::Reason;
