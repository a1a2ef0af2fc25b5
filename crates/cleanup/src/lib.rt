//! The driver's clean and abort of a job, for every committer. It aborts the live uploads below the
//! destination. Then it empties a magic job's directory, or deletes a staging job's files in the
//! cluster. At a destination that other jobs use too, it aborts only the uploads that the job's own
//! records and sets name.
//!
//! # What is proved
//!
//! `CleanJob`, `AbortJob`: they ask, go on and end exactly as `job_protocol` defines a clean, for
//! every committer and every list of replies that fit.
//!
//! - After memory runs out they send nothing more, and end with NoMemory.
//! - The bound on the requests left falls with each reply and each request that exhausts its
//!   retries. Another actor's request raises it by at most 3 (`cleans_end`).
//! - A clean treats every live upload below the destination as the job's own.
//!
//! `SparingJob`: a sparing clean, which lists no uploads, asks, goes on and ends exactly as
//! `job_protocol` defines it, for every committer and every list of replies that fit.
//!
//! - The bound on the requests left falls with each reply and each request that exhausts its
//!   retries, if each set that it reads names at most 20,000 uploads. Another actor's request
//!   raises it by at most 20,003 (`sparings_end`).
//!
//! Left open: what they do after other replies.
#![tactic(auto)]

mod clean_state;
mod cleaning;
mod laws;
mod listed;
mod names;
mod requests;
mod sparing;
mod sparing_state;

pub use cleaning::{AbortJob, CleanJob, Cleaning};
pub use laws::{cleans_end, sparings_end};
pub use sparing::{SparingClean, SparingJob};
