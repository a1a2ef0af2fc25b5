ghost use Rattle.std.specs.Prelude.{◌≡◌, ◌<◌, ℕ, List, ◌++◌, codes, length, map, get_or, [], true, false, replicate, IfOk, OnOk, IfSome, MatchOption, option_map};
ghost use Rattle.job_protocol.specs.AtWork.{task_script, who_of};
ghost use Rattle.job_protocol.specs.TaskCommits.{attempt_prefix, least_of};
ghost use Rattle.task_magic.specs.Committing.{record_of};
ghost use Rattle.task_magic.specs.inner.Committing.{IsListed, IsRecordAt, IsPlaceOf, places_in, records_in, set_at, least_unseen};

use crate::stepping::name_of;
use job_model::{TaskEnd, TaskPlan};
use s3_types::{Key, KeyList, Sequence, Text, let_go};
use std::alloc::{AllocError, Global};
use task_requests::{directory, file_at, record};

/// The files whose records are among the keys of a listing: their places in the order of the keys,
/// the keys of their records, and for each file whether its record is listed.
#[derive(Drop)]
pub struct Listed {
    pub places: Sequence<usize>,
    pub records: KeyList,
    pub seen: Vec<bool>,
}

/// Returns the text between a prefix and `.pending` in a key, if the key has that form.
fn path_in<'a>(prefix: &str, key: &'a str) -> Option<&'a str>
    ensures { MatchOption result ((path : List ℕ) → IsRecordAt prefix.now key.now path
        → ⊥) (λ path. IsRecordAt prefix.now key.now path.now) }
{
    match key.strip_prefix(prefix) {
        Some(rest) => rest.strip_suffix(".pending"),
        None => None,
    }
}

/// Returns the place of the file whose record has this key, if there is one.
fn place_of(
    alloc: Global,
    plan: &TaskPlan,
    prefix: &Text,
    key: &Key,
) -> Result<Option<usize>, AllocError>
    requires { prefix.now ≡ attempt_prefix (task_script plan.now) (who_of plan.now) }
    ensures within { IfOk result (λ place. IfSome place (λ i. i < length plan.now.files)) }
    ensures is { IfOk result (λ place. IsPlaceOf plan.now key.now place) }
{
    let Some(path) = path_in(prefix.as_str(), key.as_text().as_str()) else {
        return Ok(None);
    };
    let path = Text::copied(alloc, path)?;
    Ok(plan.files.held().get_index_of(&path))
}

/// Returns `count` flags, all false.
fn unseen(alloc: Global, count: usize) -> Result<Vec<bool>, AllocError>
    ensures { IfOk result (λ seen. seen.items ≡ replicate count false) }
{
    vec![in alloc; false; count]
}

/// Adds to `listed` the file at a place, if there is one, whose record has this key.
fn add_place(listed: &mut Listed, place: Option<usize>, key: &Key) -> Result<(), AllocError>
    requires { IfSome place (λ i. i < length listed.old.seen.items) }
    ensures places { OnOk result (listed.new.places ≡ listed.old.places ++ places_in place) }
    ensures records { OnOk result (listed.new.records ≡ listed.old.records ++ records_in place key.now) }
    ensures seen { OnOk result (listed.new.seen.items ≡ set_at listed.old.seen.items place) }
{
    let Some(place) = place else {
        return Ok(());
    };
    listed.places.push(place)?;
    listed.records.push(key.clone()?)?;
    listed.seen[place] = true;
    Ok(())
}

/// Finds the files whose records have these keys.
pub fn files_of_keys(
    alloc: Global,
    plan: &TaskPlan,
    prefix: &Text,
    keys: &[Key],
) -> Result<Listed, AllocError>
    requires { prefix.now ≡ attempt_prefix (task_script plan.now) (who_of plan.now) }
    ensures { IfOk result (IsListed plan.now keys.now) }
{
    let seen = unseen(alloc, plan.files.len())?;
    let mut listed = Listed {
        places: Sequence::new(alloc),
        records: KeyList::new(alloc),
        seen,
    };
    for key in keys {
        let Ok(place) = place_of(alloc, plan, prefix, key) else {
            let_go(listed);
            return Err(AllocError);
        };
        let Ok(()) = add_place(&mut listed, place, key) else {
            let_go(listed);
            return Err(AllocError);
        };
    }
    Ok(listed)
}

/// Returns the key of the record of the file at a place.
pub fn record_at(alloc: Global, plan: &TaskPlan, place: usize) -> Result<Key, AllocError>
    requires { place < length plan.now.files }
    ensures { IfOk result (λ key. key ≡ record_of plan.now (get_or plan.now.files place ([], []))) }
{
    let Some((path, _)) = file_at(plan, place) else {
        unreachable!();
    };
    let dir = directory(alloc, plan)?;
    record(alloc, plan, &dir, path)
}

/// Returns the lesser of two keys, or `key` if there is no other.
fn lesser(least: Option<Key>, key: Key) -> Key
    ensures { result ≡ least_of least key }
{
    match least {
        Some(least) => { if least < key { least } else { key } }
        None => key,
    }
}

/// Returns how a commit ends that has seen these records: Gone with the least key that is not seen,
/// or None if all are seen.
pub fn missing(alloc: Global, plan: &TaskPlan, seen: &[bool]) -> Result<Option<TaskEnd>, AllocError>
    requires { length seen.now ≡ length plan.now.files }
    ensures { IfOk result (λ end. end ≡ option_map TaskEnd.Gone
        (least_unseen seen.now (map (record_of plan.now) plan.now.files))) }
{
    let mut left = seen.len();
    let mut least = None;
    while 0 < left {
        left -= 1;
        if !seen[left] {
            let Ok(key) = record_at(alloc, plan, left) else {
                let_go(least);
                return Err(AllocError);
            };
            least = Some(lesser(least, key));
        }
    }
    match least {
        Some(key) => {
            let name = name_of(key)?;
            Ok(Some(TaskEnd::Gone(name)))
        }
        None => Ok(None),
    }
}
