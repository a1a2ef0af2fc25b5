//! What happens in a run of a job, one step after another: events begin and end, requests are sent,
//! operations end. The definitions are in `specs/`, with what follows for the journal and the ends.
//!
//! # What is proved
//!
//! The steps that may happen: an event is refused or begins, an actor sends a request, an operation
//! ends, an event is over, and between events a stranger sends a request that is foreign to the
//! job.
//!
//! - `plays`: at each point between two events, the run is as its script says, judged by its
//!   journal and the ends of its events alone.
//! - `runs`: request by request, it is one of the runs of `protocol_runs`.
#![tactic(auto)]

ghost use Rattle.script_steps.specs.StepsPlay.{HappeningsPlay};
ghost use Rattle.script_steps.specs.Running.{HappeningsRun};

/// A run of allowed steps is as the script's events say.
pub fn plays()
    ensures played { HappeningsPlay }
{}

/// A run of allowed steps is, request by request, one of the job's runs.
pub fn runs()
    ensures run { HappeningsRun }
{}
