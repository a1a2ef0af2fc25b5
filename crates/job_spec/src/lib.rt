//! The promises that a run gives of its job: which files readers of the destination see, the lives
//! and turns of the actors, and how operations end. The definitions are in `specs/`.
//!
//! # What is proved
//!
//! - `folds`: The store that a journal shows is the store after the same entries.
//! - `eyes`: A journal as one job reads it keeps the store, the replies and the order of events.
//! - `commits`: A commit ends with Committed if it misses no task, no request of it runs out of
//!   retries, and no two tasks write the same path.
//! - `losses`: If the script names no fate, no request runs out of retries.
//! - `restarts`: A restart leaves an idle driver that knows no report.
//! - `verdicts`: If the job's commit has begun, it alone decides the status.
#![tactic(auto)]

ghost use Rattle.job_spec.specs.PromiseLaws.{SeenIsMoment, EyesAreTrue, CommitsComplete, NothingWorn, RestartsAnew, CommitDecides};

/// The law of the state that a journal shows.
pub fn folds()
    ensures seen { SeenIsMoment }
{}

/// The law of a journal in which others send too.
pub fn eyes()
    ensures faithful { EyesAreTrue }
{}

/// The law of a job's commit that meets no fault.
pub fn commits()
    ensures complete { CommitsComplete }
{}

/// The law of a script without lost sends.
pub fn losses()
    ensures none { NothingWorn }
{}

/// The law of a driver that replaces a dead one.
pub fn restarts()
    ensures anew { RestartsAnew }
{}

/// The law of the status of a run.
pub fn verdicts()
    ensures decided { CommitDecides }
{}
