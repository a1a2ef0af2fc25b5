ghost use Rattle.std.specs.List.{find};
ghost use Rattle.std.specs.List.Sorted.{IsStrictlySortedBy};
ghost use Rattle.std.specs.Option.{option_copied};
ghost use Rattle.std.specs.Prelude.{◌≡◌, ◌≢◌, ◌<◌, ℕ, List, [], false, true, IfOk, None};
ghost use Rattle.text_and_lists.specs.Order.{text_cmp};
ghost use Rattle.judging.specs.Listed.{of_task};
ghost use Rattle.soundness.specs.Moments.{Moment, Same};
ghost use Rattle.audit_claims.specs.Claims.{Tags};
ghost use Rattle.audit_judge.specs.Changes.{paths_of};
ghost use Rattle.audit_judge.specs.Deciding.{Answers, bench_of};
ghost use Rattle.audit_judge.specs.inner.Deciding.{Followed, FollowedSome, IsNeed, early_of, left_paths, marked_of};
ghost use Rattle.audit_judge.specs.inner.Deciding.{stale_of, whole_paths};
ghost use Rattle.audit_judge.specs.Following.{GoodList};
ghost use Rattle.audit_judge.specs.inner.Narrowed.{Fitting, least_from, narrow_all};
ghost use Rattle.audit_judge.specs.inner.Scene.{meets, seen, shows_sign};

use crate::change::Change;
use crate::flags::Flags;
use crate::known::Known;
use crate::narrow::{narrow_changes, narrow_listed};
use crate::reason::Reason;
use crate::signs::{Demand, Sign};
use s3_types::Text;
use soundness::Marker;
use std::alloc::AllocError;

/// Whether a moment needs a choice of attempts.
#[derive(Clone, Copy, PartialEq, Eq, Debug)]
pub enum Need {
    /// The moment needs no choice, and neither did any before.
    Calm,
    /// The moment needs a choice, and this task has no attempt.
    Missing(u32),
    /// The moment needs a choice, or one before did, and each task has an attempt.
    Choice,
}

/// Returns the first changed path at which readers see something else than in the opening, if the
/// commit has not begun.
fn first_early<'a>(known: &Known, begun: bool, changes: &'a [Change]) -> Option<&'a Text>
    requires started { known.now.started ≡ true }
    requires good { GoodList known.now.tasks known.now.claimed.listed }
    ensures early { option_copied result ≡ early_of begun (find (shows_sign Sign.Differs known.now) (paths_of changes.now)) }
{
    if begun {
        None
    } else {
        known.first_changed(Sign::Differs, changes)
    }
}

/// Returns the first changed path at which readers see something else than in the opening, if an
/// old marker exists.
fn first_stale<'a>(known: &Known, marker: Marker, changes: &'a [Change]) -> Option<&'a Text>
    requires started { known.now.started ≡ true }
    requires good { GoodList known.now.tasks known.now.claimed.listed }
    ensures stale { option_copied result ≡ stale_of marker (find (shows_sign Sign.Differs known.now) (paths_of changes.now)) }
{
    match marker {
        Marker::Old => known.first_changed(Sign::Differs, changes),
        Marker::Absent | Marker::New => None,
    }
}

/// Returns whether these changes or this marker need a choice.
fn calls_for_choice(known: &Known, marker: Marker, changes: &[Change]) -> bool
    requires started { known.now.started ≡ true }
    requires good { GoodList known.now.tasks known.now.claimed.listed }
    ensures calm { result ≡ false → find (shows_sign Sign.Differs known.now) (paths_of changes.now) ≡ None }
    ensures unmarked { result ≡ false → marker ≢ Marker.New }
    ensures calls { result ≡ true → marker ≢ Marker.New
        → find (shows_sign Sign.Differs known.now) (paths_of changes.now) ≢ None }
{
    match marker {
        Marker::New => true,
        Marker::Absent | Marker::Old => known.first_changed(Sign::Differs, changes).is_some(),
    }
}

/// Returns whether a choice is needed, and the task that has no attempt.
fn find_need(known: &Known, marker: Marker, needed: bool, changes: &[Change]) -> Need
    requires started { known.now.started ≡ true }
    requires good { GoodList known.now.tasks known.now.claimed.listed }
    ensures need { IsNeed known.now marker needed (paths_of changes.now) result }
{
    if needed {
        return Need::Choice;
    }
    if !calls_for_choice(known, marker, changes) {
        return Need::Calm;
    }
    match known.claims.missing(known.tasks) {
        Some(task) => Need::Missing(task),
        None => Need::Choice,
    }
}

/// Rules out the attempts whose whole readers do not see. Returns the least task that has no
/// attempt left after that.
fn narrow_whole(
    known: &Known,
    was: Marker,
    changes: &[Change],
    rows: &mut Vec<Flags>,
) -> Option<u32>
    requires started { known.now.started ≡ true }
    requires good { GoodList known.now.tasks known.now.claimed.listed }
    requires places { Fitting known.now.claimed.listed rows.old.items }
    ensures after { rows.new.items ≡ narrow_all (meets Demand.Whole known.now) known.now.claimed.listed
        (whole_paths was known.now.claimed.listed (paths_of changes.now)) rows.old.items }
    ensures least { result ≡ least_from (meets Demand.Whole known.now) known.now.claimed.listed
        (whole_paths was known.now.claimed.listed (paths_of changes.now)) rows.old.items None }
{
    match was {
        Marker::New => narrow_changes(known, Demand::Whole, changes, rows),
        Marker::Absent | Marker::Old => narrow_listed(known, Demand::Whole, rows),
    }
}

/// Returns the first path with a file that the job replaces and that is left.
fn first_left<'a>(known: &'a Known, was: Marker, changes: &'a [Change]) -> Option<&'a Text>
    requires started { known.now.started ≡ true }
    requires good { GoodList known.now.tasks known.now.claimed.listed }
    ensures left { option_copied result
        ≡ find (shows_sign Sign.Left known.now) (left_paths was known.now.shown (paths_of changes.now)) }
{
    match was {
        Marker::New => known.first_changed(Sign::Left, changes),
        Marker::Absent | Marker::Old => known.first_shown(Sign::Left),
    }
}

/// Returns the reason that a new marker gives against the run, if there is one.
fn marked_reason(
    known: &Known,
    was: Marker,
    changes: &[Change],
    rows: &mut Vec<Flags>,
) -> Result<Option<Reason>, AllocError>
    requires started { known.now.started ≡ true }
    requires good { GoodList known.now.tasks known.now.claimed.listed }
    requires places { Fitting known.now.claimed.listed rows.old.items }
    ensures after { rows.new.items ≡ narrow_all (meets Demand.Whole known.now) known.now.claimed.listed
        (whole_paths was known.now.claimed.listed (paths_of changes.now)) rows.old.items }
    ensures reason { IfOk result (λ r. r ≡ marked_of
        (least_from (meets Demand.Whole known.now) known.now.claimed.listed
        (whole_paths was known.now.claimed.listed (paths_of changes.now)) rows.old.items None)
        (find (shows_sign Sign.Left known.now) (left_paths was known.now.shown (paths_of changes.now)))) }
{
    match narrow_whole(known, was, changes, rows) {
        Some(task) => return Ok(Some(Reason::Half(task))),
        None => {}
    }
    match first_left(known, was, changes) {
        Some(path) => Ok(Some(Reason::Left(path.clone()?))),
        None => Ok(None),
    }
}

/// Returns the reason against the run at a moment that needs a choice of attempts, if there is one.
/// Each task must have an attempt.
fn chosen_reason(
    known: &Known,
    begun: bool,
    was: Marker,
    marker: Marker,
    needed: bool,
    changes: &[Change],
    rows: &mut Vec<Flags>,
) -> Result<Option<Reason>, AllocError>
    requires started { known.now.started ≡ true }
    requires follows { FollowedSome known.now begun was needed rows.old.items changes.now }
    requires rising { IsStrictlySortedBy text_cmp (paths_of changes.now) }
    requires old { marker ≡ Marker.Old → was ≡ Marker.Old }
    requires calm { begun ≡ false → Same (seen known.now.shown) (seen known.now.opening) }
    requires tasks { (t : ℕ) → t < known.now.tasks → of_task t known.now.claimed.listed ≢ [] }
    ensures right { IfOk result (λ r. (moments : List (Moment Tags))
        → Followed known.now begun was needed rows.old.items changes.now moments
        → Answers (bench_of known.now begun was needed rows.old.items known.now.shown) moments (paths_of changes.now) r
        (bench_of known.now begun marker true rows.new.items known.now.shown)) }
{
    match known.first_changed(Sign::Foreign, changes) {
        Some(path) => return Ok(Some(Reason::Foreign(path.clone()?))),
        None => {}
    }
    match known.first_changed(Sign::Lost, changes) {
        Some(path) => return Ok(Some(Reason::Lost(path.clone()?))),
        None => {}
    }
    match narrow_changes(known, Demand::Part, changes, rows) {
        Some(task) => return Ok(Some(Reason::Torn(task))),
        None => {}
    }
    match first_stale(known, marker, changes) {
        Some(path) => return Ok(Some(Reason::Stale(path.clone()?))),
        None => {}
    }
    match marker {
        Marker::New => {
            let reason = marked_reason(known, was, changes, rows)?;
            Ok(reason)
        }
        _ => Ok(None),
    }
}

/// Returns the reason against the run at one more moment, at which readers see these changes, if
/// there is one.
pub(crate) fn find_reason(
    known: &Known,
    begun: bool,
    was: Marker,
    marker: Marker,
    needed: &mut bool,
    changes: &[Change],
    rows: &mut Vec<Flags>,
) -> Result<Option<Reason>, AllocError>
    requires started { known.now.started ≡ true }
    requires follows { FollowedSome known.now begun was needed.old rows.old.items changes.now }
    requires rising { IsStrictlySortedBy text_cmp (paths_of changes.now) }
    requires old { marker ≡ Marker.Old → was ≡ Marker.Old }
    ensures right { IfOk result (λ r. (moments : List (Moment Tags))
        → Followed known.now begun was needed.old rows.old.items changes.now moments
        → Answers (bench_of known.now begun was needed.old rows.old.items known.now.shown) moments (paths_of changes.now) r
        (bench_of known.now begun marker needed.new rows.new.items known.now.shown)) }
{
    match first_early(known, begun, changes) {
        Some(path) => return Ok(Some(Reason::Early(path.clone()?))),
        None => {}
    }
    match find_need(known, marker, *needed, changes) {
        Need::Calm => Ok(None),
        Need::Missing(task) => Ok(Some(Reason::Missing(task))),
        Need::Choice => {
            let reason = chosen_reason(known, begun, was, marker, *needed, changes, rows)?;
            *needed = true;
            Ok(reason)
        }
    }
}
