//! The log of a store: a base, which is an image, and the changes after it, as the bytes of one
//! file. Every file is read as a base and its changes, or has a first fault.
//!
//! # What is proved
//!
//! - `read_log`: returns a base and changes exactly if the file stands for them. Otherwise it
//!   returns the place of the first fault in reading order, for every list of bytes (`exact`,
//!   `found`, `only`).
//! - `write_record`: writes the one text of a changing request. Reading that text gives the
//!   request again.
//! - `base_length`: returns the length of a file's base.
//!
//! Left open: a request that names 2^32 keys or parts has no record.
#![tactic(auto)]

mod fault;
mod fields;
mod logged_store;
mod reading;
mod rows;
mod writing;

pub use fault::LogFault;
pub use logged_store::{LoggedStore, RequestList};
pub use reading::{base_length, read_log};
pub use writing::{can_write, head_of, is_changing, write_record};
