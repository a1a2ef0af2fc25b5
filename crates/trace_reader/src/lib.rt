//! Reads the lines of a trace, each a JSON object in the words of the Amazon S3 API, as an audit
//! needs them.
//!
//! # What is proved
//!
//! - `read_line` returns the contents of the line, or the line's first fault, as `line_of` defines
//!   it (`Reading.antt`). It may return NoMemory instead of either.
//! - `Field::name`, `TraceStage::may_come` and `is_visible` are `name_of` (`Reading.antt`), `may_come`
//!   (`Operations.antt`), and `is_visible` of `soundness`.
//!
//! Left open: that NoMemory comes only if memory runs out.
#![tactic(auto)]

mod changes;
mod claims;
mod fault;
mod fields;
mod kinds;
mod line;
mod operation;
mod paths;
mod reading;
mod stage;
#[cfg(test)]
mod tests;
mod texts;

pub use fault::{Field, TraceFault};
pub use line::TraceLine;
pub use operation::Operation;
pub use paths::is_visible;
pub use reading::{MOST_BYTES, read_line};
pub use stage::TraceStage;
