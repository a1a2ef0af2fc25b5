ghost use Rattle.judging.specs.TaskByTask.{ByTask, InTurn, ListedClaims, OpeningFits, ReasonsTell, WhereChanged};

/// If readers see the opening files, every choice explains that.
pub fn opening_fits<I>()
    ensures { OpeningFits I }
{}

/// A run is sound exactly if each task by itself has an attempt that explains it.
pub fn judged_by_task<I>()
    ensures { ByTask I }
{}

/// A sound run stays sound with one more moment exactly if attempts that explained all before
/// explain that one too.
pub fn judged_in_turn<I>()
    ensures { InTurn I }
{}

/// From one moment to the next only the changed paths need to be looked at, unless a new marker has been put.
pub fn judged_where_changed<I>()
    ensures { WhereChanged I }
{}

/// Each reason of `Reasons` shows that a run is not sound with one more moment.
pub fn reasons_tell<I>()
    ensures { ReasonsTell I }
{}

/// The tasks and paths of a claim can be read off the list of its attempts.
pub fn listed_claims<I>()
    ensures { ListedClaims I }
{}
