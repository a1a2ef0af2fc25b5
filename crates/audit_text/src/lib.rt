//! The text that reports the answer of an audit: readers were safe, they were not, or the trace has
//! a fault.
//!
//! # What is proved
//!
//! `sound_text`, `unsound_text` and `fault_text` return exactly the text of `Answer.antt`. A path
//! is written as a JSON string, as `serde_json` writes one.
//!
//! Left open: that an error comes only if memory runs out.
#![tactic(auto)]

mod fault;
mod sound;
#[cfg(test)]
mod tests;
mod unsound;

pub use fault::fault_text;
pub use sound::{Pick, sound_text};
pub use unsound::unsound_text;
