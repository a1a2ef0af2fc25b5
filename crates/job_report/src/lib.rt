//! The text of a report on a job's run, or on a run of two jobs at one destination.
//!
//! # What is proved
//!
//! `report_text`: It returns exactly the text that `job_spec` defines for the status, the number of
//! sends, the chosen attempts, the ends and the script, for any ends.
//!
//! `twins_report`: It returns exactly the text that `TwinText.antt` defines for the status, the
//! number of sends, the order of turns, and each job's script, ends and chosen attempts, for any
//! ends.
#![tactic(auto)]

mod ends;
mod lines;
mod played;
mod report;
mod twins;

pub use ends::write_end;
pub use report::report_text;
pub use twins::{SideReport, twins_report};
