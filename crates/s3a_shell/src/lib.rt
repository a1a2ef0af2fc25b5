//! The shell: it does a command on the files and directories of a store. It returns the text of the
//! command and the requests that it sent. (Hadoop FileSystem specification.)
//!
//! # What is proved
//!
//! `shell` does a command on a store:
//!
//! - A command does and says what the FileSystem specification has for its operation, on the tree
//!   of its bucket's objects (`Does`). `mb`, `uploads` and `abort-uploads` follow the store's
//!   rules.
//! - At every point the store is in a state that the command may leave there (`moments`).
//! - The requests are the shell's, in event 0. Each has the reply that S3 must give, and together
//!   they make the store that the command leaves.
//! - Each request is one of the command's operation, and the command sends none that it does not
//!   need (`asked`). `mkdir` puts no marker for a directory that exists, and `cp` copies no key
//!   that the target already has. `clean-markers` sends no empty batch, and a refused command only
//!   looks.
//! - No command sends more requests than `most_requests` gives for what its bucket holds (`few`).
//!   `stat` and `cat` send at most two, and `ls` one more for each entry.
//! - Other buckets are unchanged, and so are all uploads but those that `abort-uploads` ends
//!   (`stays`).
//! - A command that was refused or sent no change leaves the store as it was (`refused`, `same`).
//!   One that only looks sends no change (`reads`).
//! - At the end no upload is live that the command began (`ended`).
//!
//! `work_of` returns what a command other than `job`, `gen` and `twins` does on what the shelf was
//! found to hold (`IsWork`):
//!
//! - `init` stores a new store, or says that one exists.
//! - The others are done by `shell`, on the store that is held or on a new one.
//! - If a command is refused or sends no change, its text is to be written, and the store stays as
//!   it was.
//! - Otherwise the store is to be stored as it was, and then what the command sent.
//! - The promises of `shell` about changes, uploads and the number of requests hold here too
//!   (`reads`, `ended` and `few` of `Done`).
//! - If what is held is no store, its fault is reported.
#![tactic(auto)]

mod buckets;
mod files;
mod markers;
mod moving;
mod obeying;
mod paths;
mod said;
mod session;
mod uploads;
mod works;

pub use files::MOST_INPUT;
pub use obeying::{ShellEnd, only_looks, shell};
pub use said::Said;
pub use works::{plays, takes_input, work_of};
