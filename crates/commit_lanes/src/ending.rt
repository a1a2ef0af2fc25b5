//! Laws of a job commit: how it ends, which its own entries alone decide, and that it ends.
//!
//! # What is proved
//!
//! - `ends_by_entries`: a job commit ends with Missing; else with StoreFault of the stage of the
//!   first request that exhausted its retries; else with SamePath; else with Committed.
//! - `falls`: if each set has at most `most` uploads, the bound on the sends left falls with each
//!   send of the commit. A key that another actor adds raises the bound by at most `rise`, and not
//!   at all for a magic job.
ghost use Rattle.commit_lanes.specs.CommitEnds.{EndsByEntries, CommitFalls};

/// How a job commit ends.
pub fn ends_by_entries()
    ensures { EndsByEntries }
{}

/// A job commit sends no more requests than it has left.
pub fn falls()
    ensures { CommitFalls }
{}
