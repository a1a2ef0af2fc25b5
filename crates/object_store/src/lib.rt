//! The objects of one bucket by their keys, and pages of them.
//!
//! # What is proved
//!
//! `Objects`: each call does exactly what its definition says on the finite map from keys to
//! objects, whether it succeeds or fails. `list_page` returns the defined page of the whole map,
//! with and without the delimiter.
#![tactic(auto)]

mod clones;
mod entries;
mod fault;
mod objects;
mod page;

pub use entries::Entries;
pub use fault::CopyFault;
pub use objects::Objects;
pub use page::Page;
