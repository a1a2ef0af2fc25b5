//! The reader and the printer of two job scripts and an order of their turns. The two jobs share
//! one destination.
//!
//! # What is proved
//!
//! `read_twins`: It reads two scripts and an order, separated by exactly two lines `=====`. Its
//! definition, `twins_of`, checks in this order:
//!
//! 1. the size of the input and the separator lines
//! 2. the first part, then the second
//! 3. the rules for the two scripts together
//! 4. the order, line by line, with the number of events that each side has left
//!
//! The error is the first fault in that order (`exact`). The result is the one of the definition
//! (`found`), and each result of the definition is read (`only`). NoMemory is never reported as the
//! fault of a part (`told`).
//!
//! `print_twins`: It returns exactly the text that `Print.antt` defines (`text`). If that text has
//! at most 67,108,864 bytes and the first script names at most 10,000 sends, reading it gives the
//! same two scripts and order again (`again`).
//!
//! `Twins`: It keeps the rules for the two scripts: different ids, one destination, no mode
//! replace, and no fate in the second script. Its turns have 1 to 100,000 events each, and ask each
//! script for no more events than it has.
#![tactic(auto)]

mod cutting;
mod fault;
mod order;
mod print;
mod reading;
mod turns;
mod twins;

pub use fault::TwinFault;
pub use print::print_twins;
pub use reading::read_twins;
pub use turns::{Side, TurnList, TwinTurn};
pub use twins::Twins;
