//! Plays one job or two and keeps the run on a shelf, the durable storage of one store. It plays
//! the scripts' events one by one and appends to the shelf, after each event, what the event
//! changed.
//!
//! # What is proved
//!
//! `play` plays one script over a store, or two by the order of their turns.
//!
//! - What was played keeps what is promised (`IsPlayed`, `promised`). One job keeps `Promised` and
//!   `Sent`, only its own actors sent, and one attempt per task explains all that readers saw
//!   (`readers_safe`). Two jobs keep `Keeps` of `twin_jobs`.
//! - If the opening store can have an image, and its next upload id is at most 2^62 at the end, so
//!   can the store at each moment (`images`).
//! - If nothing stopped the run, it went to its end (`finished`): one job is `Finished`; of two
//!   jobs, each event that the order asks for has its end. The shelf was called once for the image
//!   of the opening store and once for each change. It holds all changes, and a crash leaves
//!   exactly that.
//! - If something stopped it, the shelf holds the first changes, with all changes of earlier events
//!   (`held`).
//! - A crash during the run leaves what a crash before it might leave, or the opening image; from
//!   some point on it leaves the store of one moment of the run (`survives`).
//! - The status follows from the ends of the events (`verdict`).
//! - After an error nothing was sent, and the shelf holds what it held (`err`).
//! - The shelf's count of faults rose exactly if the shelf failed (`counted`, `faults`).
//!
//! Left open: stores whose next upload id is over 2^62.
//!
//! `play_over` plays the remaining steps of any `Moves`. It ends when no step is left (`over`), or
//! stops when an append fails or memory runs out. If memory ran out, a step is left, or an append
//! ran out of memory and the shelf lacks its change (`short`; `play` says the same of events). What
//! each step keeps is kept by the whole call (`keeps`, `origin`). A shelf that held the image of
//! the opening store then holds all changes with it, or the first ones with all changes of earlier
//! events. A crash meanwhile leaves the store of one moment of the run (`ok`, `err`).
#![tactic(auto)]

mod events;
mod jobs;
mod keeping;
mod moves;
mod playing;

pub use events::play_over;
pub use jobs::{Jobs, Told};
pub use moves::Moves;
pub use playing::{Kept, play};
