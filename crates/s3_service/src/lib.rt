//! The modelled S3 service: buckets with their objects and multipart uploads, with one call for
//! all requests.
//!
//! # What is proved
//!
//! `Service`:
//!
//! - `apply` answers `answer_store` and leaves `apply_store`, for all requests to the store. If
//!   memory runs out, everything is as before.
//! - `follow` leaves the same store, and makes no answer.
//! - `copy` returns a store with the same content, which shares the bytes and the texts of the
//!   keys.
#![tactic(auto)]

mod bucket;
mod buckets;
mod iter;
mod named;
mod objects;
mod service;
mod uploads;

pub use bucket::BucketStore;
pub use iter::{BucketEntries, BucketView};
pub use service::Service;
