//! The driver's set-up of a job, for every committer and mode. It looks at the destination and, if
//! the mode fails on existing files, looks for one. Then it deletes the marker of an earlier job
//! and empties a magic job's directory.
//!
//! # What is proved
//!
//! - `SetupJob` asks, goes on and ends exactly as `job_protocol` defines a set-up, for every
//!   committer and every list of replies that fit.
//! - After memory runs out it sends nothing more, and ends with NoMemory.
//! - The bound on the requests left falls with each reply and each request that exhausts its
//!   retries. Another actor's request raises it by at most 2 (`set_ups_end`).
//! - `first_shown`, `page_request` and `checks_all` return the parts of its look for a file of the
//!   destination.
//!
//! Left open: what it does after other replies.
#![tactic(auto)]

mod files;
mod laws;
mod requests;
mod setting;
mod setup_state;

pub use files::first_shown;
pub use laws::set_ups_end;
pub use requests::page_request;
pub use setting::{SettingUp, SetupJob};
pub use setup_state::checks_all;
