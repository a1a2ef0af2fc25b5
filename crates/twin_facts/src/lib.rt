//! Two jobs at one destination, request by request, in any order of their actors: what the requests
//! of each name, that they are a stranger's to the other, and what readers of the destination see
//! of both. The definitions are in `specs/`.
//!
//! # What is proved
//!
//! All is said of two legal scripts with one destination, different job ids and no mode that
//! replaces, over any content. It holds with restarts, losses and kills, for every committer, any
//! number of lanes and every such mode. The operations are those of a shared destination: a check
//! comes before the commit of the mode fail, and an abort or clean aborts only what the job's own
//! records and sets name.
//!
//! - `names`: each request of a job names only keys that are its own or in no job's magic
//!   directory, uploads that its own attempts know, and its own paths in the cluster.
//! - `twins`: so each request of one job is a stranger's to the other, whatever uploads that one
//!   drew in the whole run. It is also foreign to the other's facts, which each step of either job
//!   keeps.
//! - `shown`: only the job's commit changes the object at a path where files are shown. One request
//!   of it leaves the object as it is, or makes it a picked file, or deletes it if a file is wanted
//!   there or the mode does not keep the old one.
//! - `moments`: at each moment each path has its opening bytes or those of a job whose commit has
//!   begun, and a file that neither job wants stays. If the last put or deletion of `_SUCCESS` is a
//!   put by a job's driver, each task of that job has a pick, all its files exist that the other
//!   job does not write too, and the marker says so. This is said by the numbers of events in the
//!   joint journal alone.
//! - `sparings`: if an abort or clean of a job at a shared destination ends Done, and no attempt of
//!   the job sends meanwhile, it leaves no live upload that a record or set of the job named as it
//!   began, and nothing in the job's own directory, whatever others send.
#![tactic(auto)]

ghost use Rattle.twin_facts.specs.Joined.{EyesTurn, TwinsAreForeign, TwinsJoin};
ghost use Rattle.twin_facts.specs.Strangers.{OwnNames, TwinsAreStrangers};
ghost use Rattle.twin_facts.specs.Named.{TwinsNameTheirOwn};
ghost use Rattle.twin_facts.specs.Events.{TwinsAlways, TwinsAreSaid};
ghost use Rattle.twin_facts.specs.Shown.{CommitShows, OthersShow};
ghost use Rattle.twin_facts.specs.Spared.{SparingsLeave};
ghost use Rattle.twin_facts.specs.TwinLaws.{AllTwinsKeep, TwinMoments, TwinsTurn};

/// What the requests of a job name, of two at one destination: each request by itself, and all of a
/// run, over all uploads that the other job drew in it.
pub fn names()
    ensures own { OwnNames }
    ensures strangers { TwinsAreStrangers }
    ensures named { TwinsNameTheirOwn }
{}

/// What one request of a job changes at the paths where files are shown.
pub fn shown()
    ensures commit { CommitShows }
    ensures others { OthersShow }
{}

/// Runs of two jobs at one destination, in any order of their actors: the facts of each, that no
/// request of one names what is the other's, and what readers see at each moment.
pub fn twins()
    ensures keep { AllTwinsKeep }
    ensures moments { TwinMoments }
    ensures turn { TwinsTurn }
{}

/// Two runs over one journal, each as its side reads it, are one run of both, and what the first
/// side sends is foreign to the second.
pub fn joined()
    ensures join { TwinsJoin }
    ensures foreign { TwinsAreForeign }
    ensures turn { EyesTurn }
{}

/// What an abort or clean of a job at a shared destination leaves if it ends Done: no upload that
/// its records or sets named, and nothing in its own directory.
pub fn sparings()
    ensures leave { SparingsLeave }
{}

/// What the joint journal of two jobs says of each by the numbers of its events, and what readers
/// of the destination see at each moment.
pub fn moments()
    ensures said { TwinsAreSaid }
    ensures always { TwinsAlways }
{}
