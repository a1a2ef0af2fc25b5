//! The whole program, without its `main`. It gets the words of the command line and three devices: the
//! input, the shelf (the store that is kept in the folder) and the output.
//!
//! # What is proved of `run`
//!
//! - `job`: a command `job`, `twins` or `gen` keeps the headline, as `README.md` states it.
//! - `store`, `quiet`: any other command does what `IsWork` of `s3a_shell` says, on what the shelf
//!   holds and with the bytes of its input. It sends at most `most_requests` of `s3a_shell`. The
//!   shelf is called for that and no more (`StoreDone`). A crash meanwhile leaves what a crash
//!   before might leave, or some point of what was stored; after status 0 it leaves what is stored.
//!   The report names no chosen attempts and no ends of events.
//! - `store` also says when nothing was done (`StoreStopped`): the shelf or the input failed, or
//!   memory ran out.
//! - `untouched`: a command that only looks, was refused, or sent nothing that may change the store
//!   leaves the shelf as it was loaded.
//! - `sound`, `image`, `images`: a store that was found can be written as an image. So can what a
//!   run or a command stores, until its counter reaches its limit.
//! - `usage`, `command`: words that are no command give status 2 or 9, send nothing and leave the
//!   shelf untouched. Status 2 comes from no other words.
//! - `due`, `read`, `shelf`: before anything is written, the status is one of the table's except 4.
//!   It is 3 exactly if the input's count of faults rose, and 5 exactly if the shelf's did.
//! - `written`, `otherwise`, `out`: the status of the program is 4 exactly if the output's count of
//!   faults rose. Otherwise it is the status before writing, and all that was written has gone out.
//! - `unread`: only `job`, `twins`, `put`, `put-force` and `put-drop` take bytes from the input,
//!   and only after the shelf was loaded and found to hold a store or nothing. A script that runs
//!   was read to the input's end.
//!
//! `run` requires that no device's count of faults is already at its limit, 2^64 - 1. Not proved:
//! that `main` passes on the words and the folder that it was given.
//!
//! # What is proved of `run` with `trace` before a command
//!
//! The command is done on what the shelf holds, its requests are shown, and nothing is stored.
//!
//! - `trace_loads`: the shelf is called at most once, to load it.
//! - `trace_job`: for `job` and `gen` the text is the trace of a run that went to its end and keeps
//!   all that is promised of a job. The status is the job's.
//! - `trace_store`: for another command the text is the lines of its requests, with status 0. If
//!   the command is refused or finds no store, it is the text that the command itself says.
//! - `usage`: `trace` before `init` or `twins` is no command.
#![tactic(auto)]

mod asked;
mod input;
mod jobs;
mod output;
mod report;
mod script;
mod stop;
mod stores;
mod top;
mod tracing;
mod work;

pub use report::Report;
pub use top::run;
