//! Builds the requests that a task attempt sends to upload its files and to publish them: uploads
//! and their parts, records, the task's set and, for the magic committer, markers. Each request is
//! made from the attempt's plan. (Hadoop, S3A committer architecture.)
//!
//! # What is proved
//!
//! - `ask` returns the request that a magic write sends at each stage of a file.
//! - The record of a file is the one that the job's committer writes.
//! - `publish_request` returns the put of the set, made from the uploads that the attempt knows.
#![tactic(auto)]

mod cutting;
mod drawn;
mod names;
mod publishing;
mod requests;
mod stage;
mod uploads;

pub use drawn::{last_drawn, made};
pub use names::{bucket_of, directory, file_at, job_of, prefix, record, target};
pub use publishing::publish_request;
pub use requests::{abort_request, ask, ask_behind, ask_next, ask_upload, behind, pending_with};
pub use stage::WriteStage;
pub use uploads::{begin_upload, note_part, tag_in, upload_in};
