//! Definitions, in `specs/`, of when a run of any committer was sound for readers: which paths they
//! see (`Paths`), what a job claims to write and to keep (`Claims`), and what readers may see at
//! each moment (`Moments`). The definitions know neither a store nor a protocol, only paths,
//! moments, and identities of contents. An identity may be the bytes or the tags of a content.
#![tactic(auto)]

mod keeps;
mod marker;

pub use keeps::Keeps;
pub use marker::Marker;
