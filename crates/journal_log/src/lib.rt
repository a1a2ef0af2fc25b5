//! What a shelf stores of a run's journal: the changes of its entries, appended one by one to a
//! base. The crate proves what a base with changes stands for, and that a crash leaves some point
//! of the run.
//!
//! # What is proved
//!
//! - `changes`: a journal's changes, applied to the opening content, give the content at each point
//!   of the run. Its first changes are those of its first entries.
//! - `contents`: requests at keys keep a store one that can be written as an image, until its
//!   counter reaches its limit.
//! - `moments`: the opening image with the first changes stands for that point of the run. If the
//!   base is the image of a content that can have one, it stands for that content only.
//! - `crashes`: on every shelf that keeps its trait, a crash of a run that is stored so leaves some
//!   point of the run.
//! - `append_all` appends the changes of a journal's entries from a place on, in order, with one
//!   call each. After `Ok` the shelf has all of them, and a crash leaves them (`grown`, `durable`,
//!   `answered`). Otherwise it has the first ones, and the next one was not appended, as the fault
//!   says (`partly`, `stopped`). A crash within the call leaves what was held before it, or that
//!   with the first of these changes (`any_moment`).
//! - `made`, `keeps_images` prove what the types of requests keep: from a store that can be written
//!   as an image a journal leads only through such stores, until its counter reaches its limit.
#![tactic(auto)]

ghost use Rattle.journal_log.specs.Recovery.{ChangesFollow, ContentStays, KeptStands, CrashesLeaveMoments, RunsSurvive};

mod appends;
mod changing;
mod images;
mod replacing;

pub use appends::append_all;
use devices::kept::Shelf;
pub use images::{keeps_images, made};
pub use replacing::put_image;

/// Proves the laws of a journal's changes.
pub fn changes()
    ensures follow { ChangesFollow }
{}

/// Proves that changes keep a store one that can be written as an image.
pub fn contents()
    ensures stay { ContentStays }
{}

/// Proves what a shelf holds that takes the changes of a journal.
pub fn moments()
    ensures stand { KeptStands }
{}

/// Proves what a crash leaves of a shelf that takes the changes of a journal one by one.
pub fn crashes<F: Shelf>()
    ensures leave { CrashesLeaveMoments F.sight }
    ensures survive { RunsSurvive F.sight }
{}
