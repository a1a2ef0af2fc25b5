//! The lives and stages of a job's actors during its run, the operation that each began last, the
//! reported tasks, and the status of the run. It also gives turns to actors: to one of them until
//! its operation ends, to one for a number of requests, or to all of them in an order that a seed
//! decides.
//!
//! # What is proved
//!
//! `States`: It keeps the state of a run as `job_spec` defines it (`Stands`): lives and stages,
//! what each actor began last, the reported tasks, and what decides the status.
//!
//! - `open`, `end`, `count`, `pass` and `after` change it as events do in that definition.
//! - `state`, `is_busy`, `begun_last`, `missing`, `attempt`, `events` and `verdict` return parts of
//!   it.
//! - `refusal` follows the table of refusals, `busy` returns the busy actors in their order, and
//!   `reported` returns tasks with which a commit misses the same task.
//!
//! `run`, `step`, `mix`: They give turns to any actors, by the contract of one turn.
//!
//! - `run` gives an actor turns until its operation ends, and all entries are its own.
//! - `step` gives it at most `count` turns, and exactly `count` if its operation goes on.
//! - `mix` gives turns to the busy actors as the seed decides, entry by entry, until none is busy.
#![tactic(auto)]

mod actors;
mod alone;
mod mixing;
mod places;
mod refusals;
mod reports;
mod standing;
mod states;

pub use actors::{Actors, Turn};
pub use alone::{run, step};
pub use mixing::mix;
pub use places::{actor_at, place_of};
pub use standing::{Decision, Standing};
pub use states::States;
