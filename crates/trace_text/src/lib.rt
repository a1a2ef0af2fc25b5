//! Writes the trace of a job's run, and of the requests that a command sends: each request, event
//! and end becomes a line of JSON.
//!
//! # What is proved
//!
//! - `trace_text` returns exactly the text that `Trace.antt` defines for a script, the store that
//!   the run began with, its journal and the ends of its events.
//! - `requests_text` returns exactly the lines of the requests alone, for any journal over a store.
//! - Both require that each answer in the journal is the one that S3 must give. So they repeat the
//!   requests on the store that the run began with only up to the last one whose reply was lost.
//! - `dry_run` runs a job over a store to the end of its script, stores nothing, and returns the
//!   trace of its requests. The run keeps all that is promised of a job (`IsDryRun`), so the trace
//!   shows a run that keeps the promise.
#![tactic(auto)]

mod commits;
mod counts;
mod dry_runs;
mod ends;
mod events;
mod heads;
mod objects;
mod parts;
mod replies;
mod sends;
mod tape;
mod trace;

pub use dry_runs::{DryRun, dry_run};
pub use trace::{requests_text, trace_text};
