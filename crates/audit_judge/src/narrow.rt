ghost use Rattle.std.specs.Prelude.{◌≡◌, None, true, length};
ghost use Rattle.audit_judge.specs.Changes.{paths_of};
ghost use Rattle.audit_judge.specs.Following.{GoodList};
ghost use Rattle.audit_judge.specs.inner.Narrowed.{Fitting, empty_at, keys_of, least_from, lesser, narrow, narrow_all, narrow_task};
ghost use Rattle.audit_judge.specs.inner.Narrowed.{paths_of_all, paths_of_task};
ghost use Rattle.audit_judge.specs.inner.Picking.{least_up, with_number};
ghost use Rattle.audit_judge.specs.inner.Scene.{meets};

use crate::change::Change;
use crate::flags::Flags;
use crate::known::Known;
use crate::signs::Demand;
use audit_claims::{Attempts, TagFiles};
use s3_types::Text;

/// Returns the lesser of two numbers, or the one that is there.
fn lesser(a: Option<u32>, b: Option<u32>) -> Option<u32>
    ensures lesser { result ≡ lesser a b }
{
    match (a, b) {
        (Some(t), Some(u)) => { if u < t { Some(u) } else { Some(t) } }
        (Some(t), None) => Some(t),
        (None, o) => o,
    }
}

fn with_number(up: bool, number: u32, least: Option<u32>) -> Option<u32>
    ensures with { result ≡ with_number up number least }
{
    if up {
        lesser(least, Some(number))
    } else {
        least
    }
}

/// Returns the least number of an attempt whose flag is up.
pub(crate) fn least_up(attempts: &Attempts, flags: &Flags) -> Option<u32>
    requires places { length flags.now ≡ length attempts.now }
    ensures least { result ≡ least_up attempts.now flags.now None }
{
    let _count = attempts.held().len();
    let mut least = None;
    let mut k = 0;
    for (number, _) in attempts.held() {
        least = with_number(flags.is_up(k), *number, least);
        k += 1;
    }
    least
}

/// Takes down the flags of a task's attempts that do not meet a demand at a path.
fn narrow_task(known: &Known, demand: Demand, path: &Text, attempts: &Attempts, flags: &mut Flags)
    requires started { known.now.started ≡ true }
    requires good { GoodList known.now.tasks known.now.claimed.listed }
    requires places { length flags.old ≡ length attempts.now }
    ensures after { flags.new ≡ narrow_task (meets demand known.now path.now) path.now attempts.now flags.old }
{
    let _count = attempts.held().len();
    let mut k = 0;
    for (_, files) in attempts.held() {
        let met = known.meets(demand, path, files.get(path));
        flags.lower_unless(met, k);
        k += 1;
    }
}

/// Rules out the attempts of a path's task that do not meet a demand there. Returns the task if
/// none of its attempts is left.
fn narrow_at(known: &Known, demand: Demand, path: &Text, rows: &mut Vec<Flags>) -> Option<u32>
    requires started { known.now.started ≡ true }
    requires good { GoodList known.now.tasks known.now.claimed.listed }
    requires places { Fitting known.now.claimed.listed rows.old.items }
    ensures after { rows.new.items ≡ narrow (meets demand known.now) known.now.claimed.listed path.now rows.old.items }
    ensures empty { result ≡ empty_at known.now.claimed.listed path.now rows.new.items }
    ensures places { Fitting known.now.claimed.listed rows.new.items }
{
    let Some((at, task, attempts)) = known.place_of(path) else {
        return None;
    };
    let flags = &mut rows[at];
    narrow_task(known, demand, path, attempts, flags);
    if flags.has_any() { None } else { Some(task) }
}

/// Rules out the attempts that do not meet a demand at a changed path of their task. Returns the
/// least task that has no attempt left after that.
pub(crate) fn narrow_changes(
    known: &Known,
    demand: Demand,
    changes: &[Change],
    rows: &mut Vec<Flags>,
) -> Option<u32>
    requires started { known.now.started ≡ true }
    requires good { GoodList known.now.tasks known.now.claimed.listed }
    requires places { Fitting known.now.claimed.listed rows.old.items }
    ensures after { rows.new.items
        ≡ narrow_all (meets demand known.now) known.now.claimed.listed (paths_of changes.now) rows.old.items }
    ensures least { result
        ≡ least_from (meets demand known.now) known.now.claimed.listed (paths_of changes.now) rows.old.items None }
    ensures places { Fitting known.now.claimed.listed rows.new.items }
{
    let mut least = None;
    for change in changes {
        let empty = narrow_at(known, demand, &change.path, rows);
        least = lesser(least, empty);
    }
    least
}

fn narrow_files(
    known: &Known,
    demand: Demand,
    files: &TagFiles,
    least: Option<u32>,
    rows: &mut Vec<Flags>,
) -> Option<u32>
    requires started { known.now.started ≡ true }
    requires good { GoodList known.now.tasks known.now.claimed.listed }
    requires places { Fitting known.now.claimed.listed rows.old.items }
    ensures after { rows.new.items
        ≡ narrow_all (meets demand known.now) known.now.claimed.listed (keys_of files.now) rows.old.items }
    ensures least { result
        ≡ least_from (meets demand known.now) known.now.claimed.listed (keys_of files.now) rows.old.items least }
    ensures places { Fitting known.now.claimed.listed rows.new.items }
{
    let mut least = least;
    for (path, _) in files.held() {
        let empty = narrow_at(known, demand, path, rows);
        least = lesser(least, empty);
    }
    least
}

fn narrow_attempts(
    known: &Known,
    demand: Demand,
    attempts: &Attempts,
    least: Option<u32>,
    rows: &mut Vec<Flags>,
) -> Option<u32>
    requires started { known.now.started ≡ true }
    requires good { GoodList known.now.tasks known.now.claimed.listed }
    requires places { Fitting known.now.claimed.listed rows.old.items }
    ensures after { rows.new.items
        ≡ narrow_all (meets demand known.now) known.now.claimed.listed (paths_of_task attempts.now) rows.old.items }
    ensures least { result
        ≡ least_from (meets demand known.now) known.now.claimed.listed (paths_of_task attempts.now) rows.old.items least }
    ensures places { Fitting known.now.claimed.listed rows.new.items }
{
    let mut least = least;
    for (_, files) in attempts.held() {
        least = narrow_files(known, demand, files, least, rows);
    }
    least
}

/// Rules out the attempts that do not meet a demand at some path of their task. Returns the least
/// task that has no attempt left after that.
pub(crate) fn narrow_listed(known: &Known, demand: Demand, rows: &mut Vec<Flags>) -> Option<u32>
    requires started { known.now.started ≡ true }
    requires good { GoodList known.now.tasks known.now.claimed.listed }
    requires places { Fitting known.now.claimed.listed rows.old.items }
    ensures after { rows.new.items
        ≡ narrow_all (meets demand known.now) known.now.claimed.listed (paths_of_all known.now.claimed.listed) rows.old.items }
    ensures least { result
        ≡ least_from (meets demand known.now) known.now.claimed.listed (paths_of_all known.now.claimed.listed) rows.old.items None }
    ensures places { Fitting known.now.claimed.listed rows.new.items }
{
    let mut least = None;
    for (_, attempts) in known.claims.held() {
        least = narrow_attempts(known, demand, attempts, least, rows);
    }
    least
}
