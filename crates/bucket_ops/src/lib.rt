//! Operations on the objects of one bucket, described by their stages. An operation on two maps of
//! objects becomes one on a store of which nothing else changes. Walks over the keys below a
//! prefix, and sweeps that delete them, are parts of such operations. A walk over live uploads is
//! an operation by itself.
//!
//! # What is proved
//!
//! - `perform_in`: performs an operation on the objects of one bucket, alone, whatever is lost. It
//!   gives what its stages give of these objects, and nothing else in the store or the cluster
//!   changes. If the bucket does not exist, the answer says so (`given`). Each request is one that
//!   the operation may make (`sends`), or its first request if there is no bucket. It is sent at
//!   most `retries + 1` times, by that actor in that event. There is at most one request more than
//!   stages to come (`few`). At every point the bucket is as the operation promises. StoreFault
//!   comes exactly if a request exhausted its retries (`performed`).
//! - `fits`: says whether a walk or a sweep may receive a reply. If the bucket exists, it may
//!   (`walk_fits`, `sweep_fits`). After each page, the keys that a walk found and those that are
//!   left are all keys below its prefix, each with the length of its object (`IsWalking`). A sweep
//!   deletes them in batches, the first ones first (`IsSweeping`). Both end.
//! - `walks_find_all`: a walk that receives the pages that the store gives ends with exactly the
//!   existing keys that begin with its prefix, each once, in the order of their bytes
//!   (`FindsAll`).
//! - `list_uploads`: lists exactly the live uploads below a prefix, alone, whatever is lost, in
//!   order, for any number of pages; or says that there is no bucket (`found`). It changes nothing
//!   (`same`). Each request is for a page below the prefix and is sent at most `retries + 1`
//!   times, and StoreFault comes exactly if one exhausted its retries (`performed`). It asks for
//!   at most one page more than there are such uploads (`few`).
#![tactic(auto)]

mod bucket;
mod fitting;
mod laws;
mod look;
mod uploads;

pub use bucket::{InBucket, Phases, perform_in};
pub use fitting::fits;
pub use laws::walks_find_all;
pub use look::{Look, seen_in};
pub use uploads::{UploadsBelow, list_uploads};
