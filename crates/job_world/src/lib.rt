//! One job, run alone: its driver and its attempts over one store, moved by the events of a script.
//! The script says in advance which requests and replies get lost.
//!
//! # What is proved
//!
//! `World` is generic over the operations of the actors (`Works`). `event` plays the script's next
//! event. Either its end is added (`WentOn`), or memory ran out before it, nothing happened, and no
//! later event will (`FoundNone`).
//!
//! After each call, whatever was lost and wherever memory ran out, `Keeps` holds:
//!
//! - `Promised` and `Sent` hold of the script, the opening content, the journal, the picks and the
//!   ends so far.
//! - The picks are all that the job's commit has made, unless the commit ran out of memory.
//! - From the end of a set-up that is done, the facts of `job_invariant` hold after each send.
//! - One attempt per task explains all that readers saw.
//!
//! `finish` gives `Finished` if every event has its end. `state`, `verdict` and `job_attempt`
//! follow from the ends so far. `service` is the store after the last send. Left open: stores whose
//! next upload id is over 2^62.
#![tactic(auto)]

mod played;
mod world;

pub use played::Played;
pub use world::World;
