//! The facts that hold of one job's store, of its files in the cluster and of what its attempts
//! know, between any two requests. The definitions are in `specs/`.
//!
//! # What is proved
//!
//! Each request of the job keeps the facts, by every outcome, and so does each request of a
//! stranger that changes nothing of the job's own. It holds for every committer.
//!
//! - `setups`, `beginning`: the facts begin where a set-up is done. The set-up leaves nothing in
//!   the job's magic directory and changes nothing else but the success marker. A staging job must
//!   have no files in the cluster before it.
//! - `attempts`: each request of an attempt keeps the facts. A file's upload goes where the magic
//!   path of its marker leads. An attempt names only what is its own, and takes nothing back once
//!   it has sent its publishing request.
//! - `driver`: each request of the driver's commit, and of its abort or clean of the job, keeps the
//!   facts.
//! - `requests`: no request of the job's actors changes anything outside the destination. Only a
//!   completion or a deletion of the driver's commit changes what readers see.
//! - `standing`: until an abort or clean of the job begins, no write or commit of an attempt finds
//!   anything of its own gone, and the set of a task whose commit is done exists.
//! - `answers`: a set that the driver reads is absent or that of the last publisher, and is read as
//!   that. The same holds of a record and its attempt. S3 accepts a part of a live upload and
//!   completes a whole upload.
//! - `completions`: while the driver's commit completes, the uploads of its sets and their keys are
//!   all different, and a completion is refused only if an earlier send of it was lost.
//! - `wanted_files`: an upload that the driver has ended never comes back. The object at a wanted
//!   path is the old one, none, or the whole file, by the progress of the commit. After a revert it
//!   is the file only if its deletion ran out of retries.
//! - `cleans`: an abort or clean that is done leaves nothing, if nobody else sends.
#![tactic(auto)]

ghost use Rattle.job_invariant.specs.FactsKeep.{AnswersFit, AttemptBegins, AttemptGoes, AttemptNames, CleanGoes, CommitGoes, DrivingKeeps, FactsBegin, ForeignKeeps, MarkersLead, ReadsKeep};
ghost use Rattle.job_invariant.specs.SetupLaws.{SetupGoes};
ghost use Rattle.job_invariant.specs.Clearing.{CleanClears};
ghost use Rattle.job_invariant.specs.Turning.{CommitTurns};
ghost use Rattle.job_invariant.specs.FiledLaws.{EndedAreGone, FindsKeys, NeverBack, SetsDecide, WantedFiles};
ghost use Rattle.job_invariant.specs.Within.{OwnChange};
ghost use Rattle.job_invariant.specs.StandingLaws.{DriverCloses, NothingGone};

/// The driver's set-up, which ends where the facts begin.
pub fn setups()
    ensures goes { SetupGoes }
{}

/// Where the facts begin, and requests that change nothing.
pub fn beginning()
    ensures begins { FactsBegin }
    ensures reads { ReadsKeep }
{}

/// A stranger's request keeps the facts.
pub fn strangers()
    ensures foreign { ForeignKeeps }
{}

/// An attempt's operations keep the facts.
pub fn attempts()
    ensures begins { AttemptBegins }
    ensures goes { AttemptGoes }
    ensures names { AttemptNames }
    ensures markers { MarkersLead }
{}

/// The driver's requests keep the facts once its set-up is done: those of its commit, and of its
/// abort or clean of the job.
pub fn driver()
    ensures keep { DrivingKeeps }
    ensures commit { CommitGoes }
    ensures clean { CleanGoes }
{}

/// What a request of the job's actors may change: nothing outside the destination, and what readers
/// see only if it completes or deletes for the driver's commit.
pub fn requests()
    ensures own { OwnChange }
{}

/// What exists until the driver's abort or clean of the job begins.
pub fn standing()
    ensures closes { DriverCloses }
    ensures gone { NothingGone }
{}

/// The uploads that the driver's commit completes.
pub fn completions()
    ensures turns { CommitTurns }
{}

/// What exists at the paths of the job's files while the driver's commit completes their uploads
/// and while it reverts; an upload that the driver has ended is gone.
pub fn wanted_files()
    ensures decides { SetsDecide }
    ensures gone { EndedAreGone }
    ensures finds { FindsKeys }
    ensures never_back { NeverBack }
    ensures files { WantedFiles }
{}

/// What the driver's abort or clean of the job leaves if nobody else sends.
pub fn cleans()
    ensures clears { CleanClears }
{}

/// The answers that S3 must give while the facts hold.
pub fn answers()
    ensures fit { AnswersFit }
{}
