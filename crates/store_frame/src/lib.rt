//! What a request may change in a store and in the cluster's files, and which keys are on the
//! pages of a listing, as laws in `specs/`.
//!
//! # What is proved
//!
//! - `requests`: a request changes nothing in a bucket, in its live uploads or in the cluster's
//!   files but what it names. A request that only reads changes nothing.
//! - `pages`: a page without a delimiter has, in order, existing keys that begin with the prefix.
//!   Each key that exists after the last key of the page before is on the page or after its last
//!   key.
#![tactic(auto)]

ghost use Rattle.store_frame.specs.PageLaws.{PagesCover, RequestsKeep};

/// What a request may change.
pub fn requests()
    ensures keep { RequestsKeep }
{}

/// The pages of a bucket's objects, one after another.
pub fn pages()
    ensures cover { PagesCover }
{}
