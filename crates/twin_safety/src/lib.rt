//! How the driver's operations end in every run of a job that shares its destination with another
//! job. The definitions are in `specs/`.
//!
//! # What is proved
//!
//! - `checks`: the check of the mode fail ends in one of three ways: a request of it ran out of
//!   retries, it is a conflict with the path or partition that its last answer showed, or it is
//!   clear.
//! - `commits`: the commit of a job at a shared destination ends by the first of these that
//!   applies, whatever the other job sends: a task that none had reported; the end of its check;
//!   the end that is due of a job alone, by its requests that ran out of retries and by its picks.
//! - `shared`: the same at each point between two events of a run, for every committer, mode and
//!   number of lanes, with lost requests and replies, retries, several attempts, kills, mixes and
//!   restarts. Strangers may send between the events what leaves the job's own alone. The commit
//!   and its check end as above; only the mode fail has a check. An abort or clean ends done or at
//!   fault. If it is done and no attempt of the job has sent since it began, no upload is left that
//!   the job's own records and sets named then, and nothing is left in the job's directory,
//!   whatever the others sent.
#![tactic(auto)]

ghost use Rattle.twin_safety.specs.Checks.{ChecksEnd};
ghost use Rattle.twin_safety.specs.Ends.{SharedCommitsEnd};
ghost use Rattle.twin_safety.specs.Shared.{RunsAreKeptShared};

/// How the check before a commit ends, by its entries alone.
pub fn checks()
    ensures end { ChecksEnd }
{}

/// How the commit of a job at a shared destination ends, in every run among strangers.
pub fn commits()
    ensures end { SharedCommitsEnd }
{}

/// What is promised of the driver's commit, and of its abort or clean, at a shared destination.
pub fn shared()
    ensures kept { RunsAreKeptShared }
{}
