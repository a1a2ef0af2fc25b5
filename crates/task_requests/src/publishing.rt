ghost use Rattle.std.specs.Prelude.{◌≡◌, ◌<◌, ℕ, List, length, map, get_or, [], true, cond, IfOk, OnOk, Some, None};
ghost use Rattle.text_and_lists.specs.Order.{text_eq};
ghost use Rattle.indexmap.specs.IndexMap.{get};
ghost use Rattle.job_protocol.specs.AtWork.{task_script, who_of, task_commit_wants};
ghost use Rattle.job_protocol.specs.Knowledge.{as_made};
ghost use Rattle.job_protocol.specs.Records.{file_record, set_text};
ghost use Rattle.job_protocol.specs.TaskCommits.{Publishing, task_commit_asks};
ghost use Rattle.task_requests.specs.Publishing.{picked, are_places, AreReady, IsPending, drawn_of};
ghost use Rattle.task_requests.specs.inner.Publishing.{IsLastAt};

use crate::drawn::{made, made_at};
use crate::names::{bucket_of, file_at, job_of, target};
use crate::requests::pending;
use indexmap::IndexMap;
use job_model::{DrawnUpload, TaskPlan};
use magic_paths::set_key;
use pending_json::{PendingList, PendingSet, PendingUpload};
use s3_types::{Bytes, Request, Sequence, Text, both, let_go};
use std::alloc::{AllocError, Global};

/// Maps the key of one more upload to its place.
fn add_place(
    places: &mut IndexMap<Text, usize>,
    drawn: &DrawnUpload,
    place: usize,
) -> Result<(), AllocError>
    ensures { OnOk result ((key : List ℕ)
        → get text_eq places.new key ≡ cond (text_eq drawn.now.key key) (Some place) (get text_eq places.old key)) }
{
    let key = drawn.key.as_text().clone()?;
    match places.insert(key, place) {
        Ok(_) => Ok(()),
        Err(refused) => {
            let_go(refused);
            Err(AllocError)
        }
    }
}

/// Maps each key to the place of its newest upload, counted from the oldest.
pub fn last_places(alloc: Global, made: &[DrawnUpload]) -> Result<IndexMap<Text, usize>, AllocError>
    ensures { IfOk result (λ places. (key : List ℕ) → IsLastAt made.now key (get text_eq places key)) }
{
    let mut places = IndexMap::new(alloc);
    for (place, drawn) in made.iter().enumerate() {
        let Ok(()) = add_place(&mut places, drawn, place) else {
            let_go(places);
            return Err(AllocError);
        };
    }
    Ok(places)
}

/// Returns the record of the file at a place.
fn pending_at(
    alloc: Global,
    plan: &TaskPlan,
    last: &IndexMap<Text, usize>,
    place: usize,
) -> Result<PendingUpload, AllocError>
    requires last { (key : List ℕ) → IsLastAt (as_made plan.now.known.drawn) key (get text_eq last.now key) }
    requires within { place < length plan.now.files }
    requires ready { let f = get_or plan.now.files place ([], []) in IsPending
        (drawn_of (task_script plan.now) plan.now.known f) (length f.1) }
    ensures { IfOk result (λ p. let f = get_or plan.now.files place ([], []) in p ≡ file_record (task_script plan.now)
        (who_of plan.now) f (drawn_of (task_script plan.now) plan.now.known f)) }
{
    let Some((path, bytes)) = file_at(plan, place) else {
        unreachable!();
    };
    let key = target(alloc, plan, path)?;
    let Some(last) = last.get(key.as_text()) else {
        unreachable!();
    };
    let Some(drawn) = made_at(&plan.known, *last) else {
        unreachable!();
    };
    pending(alloc, plan, path, bytes, drawn)
}

/// Returns the records of the files at these places.
fn pendings(alloc: Global, plan: &TaskPlan, places: &[usize]) -> Result<PendingList, AllocError>
    requires within { are_places (length plan.now.files) places.now ≡ true }
    requires ready { AreReady plan.now (picked plan.now.files places.now) }
    ensures { IfOk result (λ list. list ≡ map (λ f. file_record (task_script plan.now) (who_of plan.now) f
        (drawn_of (task_script plan.now) plan.now.known f)) (picked plan.now.files places.now)) }
{
    let last = last_places(alloc, made(&plan.known))?;
    let mut list = Sequence::new(alloc);
    for place in places {
        let Ok(pending) = pending_at(alloc, plan, &last, *place) else {
            let_go(last);
            let_go(list);
            return Err(AllocError);
        };
        let Ok(()) = list.push(pending) else {
            let_go(last);
            let_go(list);
            return Err(AllocError);
        };
    }
    let_go(last);
    Ok(list)
}

/// Returns the text of the set that publishes the files at these places.
fn set_bytes(alloc: Global, plan: &TaskPlan, places: &[usize]) -> Result<Bytes, AllocError>
    requires within { are_places (length plan.now.files) places.now ≡ true }
    requires ready { AreReady plan.now (picked plan.now.files places.now) }
    ensures { IfOk result (λ bytes. bytes ≡ set_text (task_script plan.now) (who_of plan.now)
        (picked plan.now.files places.now) plan.now.known) }
{
    let (commits, job) = both(pendings(alloc, plan, places), job_of(plan).job.clone())?;
    let set = PendingSet {
        job,
        task: plan.task,
        attempt: plan.attempt,
        commits,
    };
    let bytes = set.print(alloc);
    let_go(set);
    bytes
}

/// Returns the put of the set that publishes the files at these places.
pub fn publish_request(
    alloc: Global,
    plan: &TaskPlan,
    places: &[usize],
) -> Result<Option<Request>, AllocError>
    requires within { are_places (length plan.now.files) places.now ≡ true }
    requires ready { AreReady plan.now (picked plan.now.files places.now) }
    ensures { IfOk result (λ request. request ≡ task_commit_asks (task_script plan.now) (who_of plan.now) plan.now.known
        (Publishing (picked plan.now.files places.now))) }
{
    let job = job_of(plan);
    let key = set_key(alloc, &job.dest, &job.job, plan.task);
    let (key, bytes) = both(key, set_bytes(alloc, plan, places))?;
    let asked = Request::put_object(bucket_of(plan), &key, &bytes, None);
    let_go(key);
    let_go(bytes);
    match asked {
        Ok(request) => Ok(Some(request)),
        Err(error) => Err(error),
    }
}
