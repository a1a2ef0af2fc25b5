//! The parts of a job's commit: lanes and their uploads, the requests of a revert, the search for a
//! path that two tasks write, and requests. (Hadoop, S3A committer architecture: job commit.)
//!
//! # What is proved
//!
//! - The table of lanes is dealt and turned as the definitions say.
//! - The list of a revert is the one that the definition names.
//! - The search finds the least key that two tasks write, with its two lowest tasks. This key is
//!   that of the path that two chosen attempts write (`same_paths`).
//! - Uploads of sets of which no two write the same path lead to different requests (`sets_apart`).
//! - Each request is the one that its definition names. The marker lists the wanted paths in the
//!   order of their bytes.
#![tactic(auto)]

mod ending;
mod lanes;
mod laws;
mod marker;
mod places;
mod requests;
mod reverting;
mod sharing;
mod undo;

pub use ending::{ends_by_entries, falls};
pub use lanes::{LaneTurn, Lanes, next_turn};
pub use laws::{same_paths, sets_apart};
pub use marker::{mark_request, relative, wanted_paths};
pub use places::{Place, placed, upload};
pub use requests::{abort, completion, deletion, set_request};
pub use reverting::revert;
pub use sharing::{Clash, shared};
pub use undo::{Undo, UndoList};
