//! Laws of `soundness`, without code: how a judge may look at the moments of a run, and why a run
//! is not sound.
//!
//! # What is proved
//!
//! - A judge may look at each task by itself, at one moment after another, and at the changed paths
//!   alone.
//! - Each reason of `Reasons` shows that the run is not sound with that moment.
//! - If the attempts of a claim are listed by task, the list gives the tasks, the claimed paths and
//!   the reached directories.
#![tactic(auto)]

mod laws;

pub use laws::{
    judged_by_task, judged_in_turn, judged_where_changed, listed_claims, opening_fits, reasons_tell,
};
