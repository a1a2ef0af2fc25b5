//! The reader and the printer of job scripts: a job's head, its attempts with their files, and the
//! events of its run.
//!
//! # What is proved
//!
//! `read_script`: It reads scripts of the whole format. Its definition in `specs/` goes line by
//! line, with one small definition for each kind of line, in the order of the checks. The error is
//! the first fault in that order, with its line (`exact`). The result is the script of the
//! definition (`found`), and each script of the definition is read (`only`).
//!
//! `print_script`: It returns exactly the text that `Print.antt` defines (`text`). If that text has
//! at most 67,108,864 bytes and names at most 10,000 sends, reading it gives the script again
//! (`again`). The definition of reading takes these two limits as numbers. With limits that are
//! large enough, every printed text gives its script again (`any_size`). No command prints a
//! script.
#![tactic(auto)]

mod attempts;
mod content;
mod draft;
mod events;
mod fault;
mod head;
mod kinds;
mod loss;
mod paths;
mod print;
mod print_events;
mod print_files;
mod print_losses;
mod print_words;
mod reading;

pub use fault::ScriptFault;
pub use job_model::Script;
pub use print::print_script;
pub use print_words::mode_word;
pub use reading::read_script;
