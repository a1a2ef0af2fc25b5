//! Every run of a job keeps what is promised of the job. The definitions are in `specs/`.
//!
//! # What is proved
//!
//! `runs` speaks of each point between two events of a run, for every committer, mode and number of
//! lanes, with lost requests and replies, retries, several attempts, kills, mixes and restarts.
//! Strangers may send between the events what leaves the job's own alone.
//!
//! - `among`: what no such stranger can break holds. The run is as its script says, each operation
//!   ends as it should, an attempt's commit that is done has published, and each entry changes only
//!   what it may.
//! - `kept`: all that is promised of a job alone at its destination holds. What readers see is
//!   promised if no stranger sent anything.
//! - `facts`: from the end of a set-up on, the facts of `job_invariant` hold.
#![tactic(auto)]

ghost use Rattle.job_safety.specs.RunsKeep.{RunsAreKeptAmong, RunsAreKept, RunsHoldFacts};

/// What is promised of a job's run, at each point between two events.
pub fn runs()
    ensures among { RunsAreKeptAmong }
    ensures kept { RunsAreKept }
    ensures facts { RunsHoldFacts }
{}
