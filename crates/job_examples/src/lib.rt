//! Whole runs written out as data, and what the definitions of a job's operations and of its
//! promise say about them.
//!
//! # What is proved
//!
//! The run of one file is finished, with every part of the promise. These runs keep what readers
//! see:
//!
//! - the run of one file with its last put lost
//! - two tasks that write the same path, and a set whose put is lost
//! - a driver that is killed in its commit
//! - two attempts of one task with a clean, also where a new driver misses the task
//! - a partition that has a file in the mode fail
//! - a job with four files: with a revert, with two lanes and a lost reply, with kills in one lane
//!   and in two, and with a restart
//!
//! Their laws tell what readers see after each entry, the requests and ends of operations, and the
//! statuses. Other laws tell what operations send in lanes, reverts, modes, staging and cleans.
//! Runs that break one part each are refused. Among these are entries of actors whose turn it is
//! not, and ends that no operation reports.
//!
//! For two jobs at one destination, each job's own entries copy nothing and change nothing outside,
//! and its commit is committed. The second job's keys outlast the first job's clean. For two jobs
//! of the magic committer, one file each, with a clean by the job's own records, no entry names
//! what belongs to the other job. After each entry that matters, readers see what two jobs promise,
//! by events alone. A clean that aborts the other job's upload is refused, and so is `_SUCCESS`
//! over a missing file. A job of the directory committer with the mode fail ends with the conflict
//! that its check lists, and with none if nothing is listed.
#![tactic(auto)]

ghost use Rattle.job_examples.specs.Conflict.{FoundConflict};
ghost use Rattle.job_examples.specs.Decisions.{DecidesSo, RestartsSo};
ghost use Rattle.job_examples.specs.FourFiles.{FourFiles};
ghost use Rattle.job_examples.specs.Lanes.{LanesRun};
ghost use Rattle.job_examples.specs.LanesKilled.{LanesKilled};
ghost use Rattle.job_examples.specs.LanesLost.{LanesLost};
ghost use Rattle.job_examples.specs.LanesReverted.{LanesReverted};
ghost use Rattle.job_examples.specs.LostMark.{LostMark};
ghost use Rattle.job_examples.specs.LostSet.{LostSet};
ghost use Rattle.job_examples.specs.Modes.{SetupsRun, StagingRuns, DriversRun};
ghost use Rattle.job_examples.specs.NewDriver.{NewDriver, Forgotten};
ghost use Rattle.job_examples.specs.OneFile.{OneFileRuns, OneFileSeen};
ghost use Rattle.job_examples.specs.OneFinished.{OneFileFinished};
ghost use Rattle.job_examples.specs.Refused.{Misshown, MisshownRuns};
ghost use Rattle.job_examples.specs.RefusedEnds.{Misended};
ghost use Rattle.job_examples.specs.Restarted.{Restarted};
ghost use Rattle.job_examples.specs.SharedPath.{SharedPath};
ghost use Rattle.job_examples.specs.Strays.{StraysAreRefused};
ghost use Rattle.job_examples.specs.Taken.{Taken};
ghost use Rattle.job_examples.specs.TwoAttempts.{TwoAttempts};
ghost use Rattle.job_examples.specs.TwoJobs.{TheOther, TwoJobs};
ghost use Rattle.job_examples.specs.TwoMagic.{TwoMagic};

/// The statuses of runs, and restarted drivers.
pub fn verdicts()
    ensures verdicts { DecidesSo }
    ensures restarts { RestartsSo }
{}

/// A run of one attempt with one file, with the magic committer.
pub fn one_file()
    ensures runs { OneFileRuns }
    ensures seen { OneFileSeen }
    ensures finished { OneFileFinished }
{}

/// A job's commit in lanes.
pub fn completions()
    ensures lanes { LanesRun }
{}

/// Conflict modes, staging attempts and cleans.
pub fn committers()
    ensures setups { SetupsRun }
    ensures staging { StagingRuns }
    ensures drivers { DriversRun }
{}

/// Journals after which readers see the wrong files.
pub fn misshown()
    ensures shown { Misshown }
    ensures runs { MisshownRuns }
{}

/// Wrong ends of operations, and `_SUCCESS` over the files of two attempts of one task.
pub fn misended()
    ensures ends { Misended }
{}

/// A run of one attempt with one file, in which the replies to the last put are lost.
pub fn lost_mark()
    ensures { LostMark }
{}

/// Entries of actors whose turn it is not.
pub fn strays()
    ensures { StraysAreRefused }
{}

/// A run of two tasks that write the same path, with the magic committer.
pub fn shared_path()
    ensures { SharedPath }
{}

/// A run of one attempt with one file, in which the replies to the put of its set are lost.
pub fn lost_set()
    ensures { LostSet }
{}

/// A run of one attempt with four files, in which the driver is killed in its commit.
pub fn four_files()
    ensures { FourFiles }
{}

/// A run of two attempts of one task that commit one after the other, and a clean.
pub fn two_attempts()
    ensures { TwoAttempts }
{}

/// A run of two attempts of one task, between which the driver is killed and restarted.
pub fn new_driver()
    ensures run { NewDriver }
    ensures forgotten { Forgotten }
{}

/// A run of a staging attempt whose partition already has a file, with the mode fail.
pub fn taken()
    ensures { Taken }
{}

/// A commit in one lane in which a completion runs out of retries.
pub fn lanes_reverted()
    ensures { LanesReverted }
{}

/// A commit in two lanes in which the reply to a completion is lost.
pub fn lanes_lost()
    ensures { LanesLost }
{}

/// A commit with such a lost reply, whose driver is killed after five sends.
pub fn lanes_killed()
    ensures { LanesKilled }
{}

/// A driver that is killed in its commit and restarted.
pub fn restarted()
    ensures { Restarted }
{}

/// Two jobs at one destination, as each of them sees the run.
pub fn two_jobs()
    ensures first { TwoJobs }
    ensures other { TheOther }
{}

/// Two jobs of the magic committer at one destination.
pub fn two_magic()
    ensures { TwoMagic }
{}

/// A job of the directory committer whose check finds the other job's file.
pub fn conflict()
    ensures { FoundConflict }
{}
