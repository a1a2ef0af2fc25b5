//! The operations of a job's actors as one type: it begins an operation from the actor's plan,
//! takes the outcome of each send, and gives the plan back.
//!
//! # What is proved
//!
//! - `Act` is any operation of a job's actors, for every committer, and keeps the laws of
//!   `job_actor`.
//! - The operation that it begins from a plan is the one that the script begins, whether or not
//!   another job shares the destination. At a shared destination, a commit in mode `fail` first
//!   runs its check, and an abort or clean spares what is not the job's own.
//! - It asks, goes on and ends as the script's operation does, and so does what its attempt knows
//!   (`ActorsGo`).
//! - A request that puts nothing below an attempt's directory does not raise the bound on the sends
//!   that the attempt has left (`AttemptsStay`).
#![tactic(auto)]

mod act;
mod begun;
mod checked;
mod ends;
mod laws;
mod plan;
mod works;

pub use act::Act;
pub use laws::{actors_go, attempts_stay};
