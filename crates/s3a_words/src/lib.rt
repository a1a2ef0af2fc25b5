//! The words of the command line: which command they name.
//!
//! # What is proved
//!
//! - `read_words` returns exactly the command that the words name, and `Usage` exactly if they name
//!   none.
//! - `Command::kind` returns what each command does with a store and with the input, by one table.
#![tactic(auto)]

mod command;
mod grammar;
mod numbers;
mod reading;

pub use command::{Command, CommandKind, WordFault};
pub use reading::read_words;
