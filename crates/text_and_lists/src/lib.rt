//! Lines of a text, parts of a line or a path between separators, words of a line by their number,
//! and the numbers that words write. Beside them is what several crates use in proofs: the order
//! of texts, the laws of a `BTreeMap` seen as a finite map, facts about lists, and reading that
//! ends at the first fault.
//!
//! # What is proved
//!
//! - `next_part`, `next_line`: return the first part and the first line of a text.
//! - The calls of `shapes`: return the words of a line, if the line has the number of words that
//!   they expect.
//! - `number`: returns the number that 1 to 18 digits write.
//! - Lemmas on truth values, options, numbers, texts and lists that several crates use, and the
//!   laws of a tree seen as a finite map.
#![tactic(auto)]

mod lines;
mod numbers;
mod parts;
mod shapes;

pub use lines::{next_field, next_line};
pub use numbers::{number, number_within};
pub use parts::next_part;
pub use shapes::{at_most_one, one, text, two, two_and_more, two_parts};
