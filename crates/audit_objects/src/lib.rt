//! The objects of all buckets that a trace mentions, each with the tags of its parts.
//!
//! # What is proved
//!
//! - `Objects`: an object that is put at a key of a bucket is found there, until another is put
//!   there or the key is deleted. Nothing changes at any other key, nor in any other bucket.
//! - If `put` fails, all is unchanged.
//!
//! Left open: that an error comes only if memory runs out, and what each call costs.
#![tactic(auto)]

mod objects;
#[cfg(test)]
mod tests;

pub use objects::Objects;
