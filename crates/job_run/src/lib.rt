//! One job's part of a run: its driver, its attempts and the events of its script, and what the job
//! shares with another job over the same store.
//!
//! # What is proved
//!
//! `Body` is a job's own (`JobRun`) with what jobs over one store share (`Shared`). It is generic
//! over the operations of the actors (`Works`). All is said of the journal as this job reads it, in
//! which a request of another job is a stranger's.
//!
//! - `event` plays the script's next event. Whatever is lost and wherever memory runs out, all that
//!   happens is allowed (`Quiet`). The event gets its end, and each entry that it adds has the
//!   event's number in the run (`Grown`). If memory runs out before it, nothing but spare room has
//!   changed (`IsAsBefore`).
//! - If another job shares the destination, the driver begins its commit with the partitions that
//!   the reported attempts write (`IsTold`).
//! - `keeps`: between its events, what no stranger breaks holds of the job (`KeptAmong`).
//! - `beside`: an event of another job keeps that, if it sends only requests that are foreign to
//!   the job (`RestsBeside`).
#![tactic(auto)]

mod body;
mod events;
mod hands;
mod picks;
mod reporting;
mod sending;
mod starting;
mod turning;

pub use body::{Body, JobRun, Shared};
pub use hands::Hand;
pub use picks::{into_picks, picks_in};
