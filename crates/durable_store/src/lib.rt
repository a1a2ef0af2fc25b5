//! A store on a shelf: loads what the shelf holds, and saves what a command changed.
//!
//! # What is proved
//!
//! - `load` returns what the shelf holds, and leaves it there: nothing, the store whose image is
//!   the base, with the changes applied to it, or the first fault by number and place (`found`). A
//!   store that it returns can be written as an image, so its next upload id is at most 2^62, and a
//!   crash leaves it.
//! - `loads`: what is stored of a store that can be written as an image is found again, if it is
//!   small and its next upload id is at most 2^62.
//! - `save` stores a store's image and then each change of what was sent, with one call each. After
//!   an error the shelf holds what it held, or the store with the first changes.
//! - `obey` does the work of a command. Either it says a text, and does not call the shelf; or it
//!   saves, and returns the status, the text and what was sent.
//! - A crash within a call leaves what a crash before might leave, or some point of what is saved.
//!   The shelf's count of faults rose exactly if it failed.
#![tactic(auto)]

mod answers;
mod folding;
mod saving;
mod shelf_state;
mod work;

pub use answers::obey;
pub use saving::save;
pub use shelf_state::{ShelfState, load, loads};
pub use work::{CommandAnswer, Work, fault_text};
