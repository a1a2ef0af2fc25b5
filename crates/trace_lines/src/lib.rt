//! Writes the lines of a trace, in the words of the Amazon S3 API Reference. Each send of a request
//! with its outcome, and other objects, become one line of JSON each.
//!
//! # What is proved
//!
//! - `write_request` appends the line of the send (`request_line`). The line says that the send
//!   took effect exactly if it reached the store, or the cluster's file system, and was not
//!   refused. Its ETag is that of the bytes that were sent, even if the reply was lost.
//! - `Line` puts a member at its place in the byte order of the names, and replaces the member of
//!   the same name. `write` appends the object of the members, without blanks, and a line feed.
//! - `operation_name`, `error_code` and `outcome_word` return the words of `Words.antt`.
//! - After an error the text, and the members of the line, are unchanged.
//!
//! Left open: that an error comes only if memory runs out.
#![tactic(auto)]

mod asked;
mod line;
mod requests;
mod sending;
#[cfg(test)]
mod tests;
mod told;
mod words;

pub use line::Line;
pub use requests::write_request;
pub use words::{error_code, operation_name, outcome_word};
