//! Walks over listings page by page, and sweeps. A sweep lists all keys below a prefix, and then
//! deletes those that pass a test. Walks and sweeps are plain data that operations hold. The laws
//! say how much they have left while others send too.
//!
//! # What is proved
//!
//! - `KeyWalk`, `UploadWalk`, `Sweep`: their requests and steps are those of the definitions, for
//!   any test on keys. A walk over keys keeps the lengths of their objects too.
//! - `walks_end`, `sweeps_end`, `upload_walks_end`: what they have left while others send falls
//!   with each answer that the store gives.
//! - `fits_page`: is true exactly if a reply fits a walk over keys.
#![tactic(auto)]

mod fitting;
mod key_test;
mod key_walk;
mod laws;
mod sweeping;
mod upload_walk;

pub use fitting::fits_page;
pub use key_test::{AllBut, AllKeys, KeyTest};
pub use key_walk::{KeyWalk, text_of};
pub use laws::{growth, sweeps_end, upload_walks_end, walks_end};
pub use sweeping::{Sweep, batch_request, keys_behind};
pub use upload_walk::UploadWalk;
