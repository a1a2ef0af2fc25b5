//! How the operations of a job's actors end, in the job's runs and by their own entries. The
//! definitions are in `specs/`.
//!
//! # What is proved
//!
//! - `commits`: the driver's commit ends as is due by the task that was missing, by the first of
//!   its requests that ran out of retries, and by the picks that the journal shows, which are those
//!   of the sets that it read. If it ends committed, the put of its marker was answered, and the
//!   marker exists if no stranger sends. Each set that it reads is there, unless some task has not
//!   published. A completion is refused only if an earlier send of it was lost.
//! - `moments`: if the commit ends before its first completion, readers see the opening files at
//!   each moment.
//! - `setups`: a set-up ends by what its own pages listed, and, if nobody else sends, by what the
//!   store held when it began.
//! - `attempts`: an attempt's operation ends as the table of its ends says. A write or commit finds
//!   something gone only if an abort or clean of the job has begun. A commit that is done has
//!   published.
//! - `cleans`: an abort or clean ends done or at fault. If it is done and nobody else sent, it has
//!   left nothing of the job and hidden nothing from readers.
#![tactic(auto)]

ghost use Rattle.job_outcomes.specs.CommitRuns.{CommitRuns, CommitAnswers};
ghost use Rattle.job_outcomes.specs.CommitMoments.{CommitMoments};
ghost use Rattle.job_outcomes.specs.SetupEnds.{SetupEnds};
ghost use Rattle.job_outcomes.specs.TaskEnds.{TaskEnds};
ghost use Rattle.job_outcomes.specs.CleanEnds.{CleanEnds};
ghost use Rattle.job_outcomes.specs.Alone.{GoAlone};
ghost use Rattle.job_outcomes.specs.RunEntries.{RunEntries};
ghost use Rattle.job_outcomes.specs.EventRows.{EventRows};

/// How the driver's commit of the job ends, in every run.
pub fn commits()
    ensures runs { CommitRuns }
    ensures answers { CommitAnswers }
{}

/// The picks at each moment of a run, and what readers see if a commit ended before its first
/// completion.
pub fn moments()
    ensures picks { CommitMoments }
{}

/// How the driver's set-up ends: by what its pages listed, and, if nobody else sends, by what the
/// store held.
pub fn setups()
    ensures end { SetupEnds }
{}

/// How an attempt's write, commit and abort of its task end.
pub fn attempts()
    ensures end { TaskEnds }
{}

/// How the driver's abort or clean of the job ends.
pub fn cleans()
    ensures end { CleanEnds }
{}

/// The driver's operations go on alike, whatever attempts know.
pub fn operations()
    ensures alone { GoAlone }
{}

/// Which entries of a run belong to which actor and operation.
pub fn entries()
    ensures whose { RunEntries }
{}

/// The entries of a journal, cut before an event and after one.
pub fn rows()
    ensures cut { EventRows }
{}
