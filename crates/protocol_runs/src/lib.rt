//! Whole runs of a job, request by request: its actors send in any order, and strangers send what
//! leaves the job's own keys, uploads and cluster files alone. The definitions are in `specs/`.
//!
//! # What is proved
//!
//! - `whole_runs`: every run, of every committer and mode, keeps the facts of `job_invariant` from the
//!   end of the set-up on. The job copies no file and changes nothing outside the destination. An
//!   attempt's commit that is done has published. If no stranger sends, readers see at each moment
//!   what the headline says.
//! - `journals`: what the fold over a journal says of an attempt is what the attempt knows from its
//!   own entries.
#![tactic(auto)]

ghost use Rattle.protocol_runs.specs.RunLaws.{AllRunsKeep, ToldIsSaid};

/// What a journal says of an attempt is what the attempt knows from its own entries.
pub fn journals()
    ensures told { ToldIsSaid }
{}

/// What every whole run does, in any order of its actors and among strangers that leave its own
/// alone, and what readers of the destination see if no stranger sends.
pub fn whole_runs()
    ensures keep { AllRunsKeep }
{}
