//! The requests that each operation of a job sends, in order, and how the outcome of each send
//! changes the operation. The definitions are in `specs/`, for every committer.
//!
//! # What is proved
//!
//! - `paths`: The paths of a script's files keep the bounds of the layout's places.
//! - `operations`: An operation has a next request exactly until it is over, for every committer.
//! - `wearing_out`: An operation that sends one request at a time ends with StoreFault exactly if
//!   one of its requests ran out of retries.
//! - `shared_paths`: The end SamePath names the least path that two chosen attempts write, with the
//!   two lowest tasks.
//! - `lanes`: In a job's commit each upload is completed or belongs to exactly one lane's turn. The
//!   lanes send in cyclic order. If the uploads have different keys, the commit ends by its first
//!   request that ran out of retries.
//! - `plans`: By the plans that a script gives, operations send the same requests and go on in the
//!   same way as by the script itself.
#![tactic(auto)]

ghost use Rattle.job_protocol.specs.OperationLaws.{OperationTable, FaultsAreWorn, SharedPaths, LanesKeep, CommitsInLanes};
ghost use Rattle.job_protocol.specs.PathLaws.{ArePlaces};
ghost use Rattle.job_protocol.specs.PlanLaws.{TasksTell, JobsTell};

/// The law that the keys of different places differ, for the paths of a script's files.
pub fn paths()
    ensures places { ArePlaces }
{}

/// The law of the operations of a job's actors.
pub fn operations()
    ensures table { OperationTable }
{}

/// The law of requests that run out of retries.
pub fn wearing_out()
    ensures faults { FaultsAreWorn }
{}

/// The law of the path that two chosen attempts write.
pub fn shared_paths()
    ensures shared { SharedPaths }
{}

/// The law of the lanes in which a job's uploads are completed.
pub fn lanes()
    ensures table { LanesKeep }
    ensures end { CommitsInLanes }
{}

/// The law of operations that follow the plans of their actors.
pub fn plans()
    ensures tasks { TasksTell }
    ensures jobs { JobsTell }
{}
