//! Laws that connect the machines of a job's actors with the job's script, in `specs/`. If the
//! facts of the job hold, the answers that S3 must give are answers that the machines take.
//! Machines that follow plans do what their operations do by the job's script.
//!
//! # What is proved
//!
//! For every committer, if the facts of `job_invariant` hold:
//!
//! - `answers`: each machine takes the answer that S3 must give to its request, whether or not an
//!   earlier send was lost.
//! - `sets`: the driver's commit sends and goes on as the job's script says, although it knows only
//!   the sets that it read. Its chosen attempts are those that `see` derives from the entries.
//! - `machines`: each machine sends what its operation sends by the job's script, and goes on as
//!   the operation does. Requests of others do not change it.
//! - `deletions`: a replace mode's deletion that ends, over a store that nobody else changes,
//!   leaves no object below its prefixes. Only those of the destination's magic directories stay.
#![tactic(auto)]

ghost use Rattle.job_refinement.specs.Deleted.{DeletionsLeave};
ghost use Rattle.job_refinement.specs.MachinesFit.{CommitsKeep, DueFits, MachinesTell, OthersLeave, PicksTell, PremisesKeep, ReadsTell};

/// The answers that S3 must give to the machines of a job.
pub fn answers()
    ensures fit { DueFits }
    ensures keep { PremisesKeep }
    ensures commits { CommitsKeep }
{}

/// The driver's commit by the sets that it has read.
pub fn sets()
    ensures tell { ReadsTell }
    ensures picks { PicksTell }
{}

/// Machines by the plans of their actors.
pub fn machines()
    ensures tell { MachinesTell }
    ensures others { OthersLeave }
{}

/// The deletion of what a replace mode displaces.
pub fn deletions()
    ensures leave { DeletionsLeave }
{}
