//! The work of the program `audit`, from its words, its input and its output: it reads a trace,
//! line by line, and answers whether readers were safe.
//!
//! # What is proved
//!
//! `audit`: without words, it writes the answer to the lines of the input, with its status
//! (`answer`). The answer is one of these:
//!
//! - Readers were safe at each moment after these lines (`IsSound` of `audit_model`). If a new
//!   marker exists, the picks follow.
//! - The first line with which readers were not safe, and the first reason that holds
//!   (`IsUnsound`).
//! - The first line with a fault, if readers were safe up to the line before it (`IsFaulty`).
//!
//! To words it answers with the usage, and reads nothing (`usage`). The status of the answer is
//! that of a read fault exactly if the input's count of faults rose (`failed`, `calm`). The program
//! ends with that of a write fault exactly if the output's count rose, and else with the status of
//! the answer (`unwritten`, `otherwise`). Without a write fault, all that it wrote has gone out
//! (`out`).
//!
//! It requires that no device's count of faults has reached its end, 2^64 - 1. Left open: that
//! NoMemory comes only if memory runs out, or if the trace has more than 2^64 - 2 lines; and that
//! `main` passes on the words that it was given.
#![tactic(auto)]

mod answer;
mod lines;
mod output;
mod top;
mod verdict;

pub use top::{Report, audit};
