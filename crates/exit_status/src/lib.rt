//! The exit statuses of the program: the number of each, and the text that some of them print.
//!
//! # What is proved
//!
//! - `Status::code`: returns the number of a status, 0 to 9.
//! - `Status::own_text`: returns the text of a status that always prints the same text.
#![tactic(auto)]

mod statuses;

pub use statuses::Status;
