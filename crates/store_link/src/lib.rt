//! The store with the cluster's files beside it, with one call for all requests; and a store that
//! loses sends as the test says before the run.
//!
//! # What is proved
//!
//! - `MemStore`: answers every request to the store and to the cluster.
//! - `Lossy`: its n-th send (one try of a request) has the outcome that its fates give for n, and
//!   the effect that goes with that outcome. `Fates::add` and `at` are exact on a finite map from
//!   sends to fates.
#![tactic(auto)]

mod lossy;
mod mem;

pub use lossy::Lossy;
pub use mem::MemStore;
