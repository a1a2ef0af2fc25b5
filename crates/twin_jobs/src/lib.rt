//! Two jobs at one destination, run together: both over one store, with an order that says whose
//! event comes next. The first script says in advance which requests and replies get lost.
//!
//! # What is proved
//!
//! `TwinWorld` has two jobs over one store with one journal. It is generic over the operations of
//! the actors (`Works`). `turn` plays the next event of the order. Either the event's end is added
//! (`Turned`), or memory ran out before it, nothing happened, and no later event will
//! (`FoundNone`).
//!
//! After each call, whatever was lost and wherever memory ran out, `Keeps` holds:
//!
//! - Each job, as it reads the journal, keeps what no stranger breaks. Its commit, its check, and
//!   its abort or clean end as they should. The picks are all that its commit has made, unless the
//!   commit ran out of memory. From the end of its set-up on, the facts of the job hold after each
//!   send.
//! - At each moment of the journal, each file that readers of the destination see has its opening
//!   bytes or those of a job whose commit has begun. While the marker is one that a job has put, all
//!   its files exist that the other job does not write too.
//! - Each entry belongs to an event that has its end.
//! - No request of one job names what is the other's.
//!
//! `finish` takes the world apart into what the run leaves.
#![tactic(auto)]

mod order;
mod pair;
mod played;
mod world;

pub use played::{JobLeft, TwinPlayed};
pub use world::TwinWorld;
