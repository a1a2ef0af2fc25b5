//! Laws of `audit_model` and `audit_judge`, without code: how an audit may go from one line of a
//! trace to the next.
//!
//! # What is proved
//!
//! - One more line adds its moment, or its fault is the first.
//! - If readers see the same at two lists of moments, both runs are sound or neither is, and the
//!   first reason against them is the same.
//! - If objects are put or deleted, what readers see changes at the paths of their keys alone.
//! - The knowledge of a judge stays the same if a moment comes once more.
//! - Lines about objects that are neither below the destination nor copied there can be removed
//!   from a recording. It then has no fault, and readers were safe exactly if they were with these
//!   lines.
#![tactic(auto)]

mod laws;

pub use laws::{audit_laws, split_laws};
