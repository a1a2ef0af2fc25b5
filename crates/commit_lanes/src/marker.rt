ghost use Rattle.std.specs.Prelude.{◌≡◌, ◌<◌, true, length, option_map, IfOk};
ghost use Rattle.std.specs.Option.{unwrap_or};
ghost use Rattle.path_keys.specs.Paths.{relative_in};
ghost use Rattle.job_protocol.specs.Outputs.{ordered, wanted_paths};
ghost use Rattle.job_protocol.specs.JobCommits.{all_commits, Marking, commit_asks, picks_of};
ghost use Rattle.job_protocol.specs.AtWork.{read_script};
ghost use Rattle.commit_lanes.specs.Places.{places_from};
ghost use Rattle.commit_lanes.specs.ReadSets.{HasAll};
ghost use Rattle.commit_lanes.specs.Relatives.{relative_of};
ghost use Rattle.commit_lanes.specs.inner.Relatives.{paths_below};

use crate::places::{Place, upload};
use job_model::JobPlan;
use magic_paths::success_key;
use path_keys::S3Path;
use pending_json::{PendingSet, SuccessMark};
use s3_types::{Key, Request, Sequence, Text, TextList};
use std::alloc::{AllocError, Global};
use std::collections::BTreeSet;

/// Returns the text after `key` and a `/`, if the text begins with these.
fn behind<'a>(key: &str, text: &'a str) -> Option<&'a str>
    requires { 0 < length key.now }
    ensures { option_map (λ r. r.now) result ≡ relative_in key.now text.now }
{
    match text.strip_prefix(key) {
        Some(rest) => rest.strip_prefix("/"),
        None => None,
    }
}

/// Returns the path of a key below the destination, or an empty path if the key is not below it.
pub fn relative(alloc: Global, dest: &S3Path, key: &Key) -> Result<Text, AllocError>
    requires { 0 < length dest.now.key }
    ensures { IfOk result (λ path. path ≡ relative_of dest.now key.now) }
{
    match behind(dest.key().as_str(), key.as_text().as_str()) {
        Some(path) => Text::copied(alloc, path),
        None => Text::empty(alloc),
    }
}

/// Returns the paths of all uploads, each once, in the order of their bytes.
fn ordered_paths(
    alloc: Global,
    dest: &S3Path,
    sets: &[PendingSet],
    places: &[Place],
) -> Result<BTreeSet<Text>, AllocError>
    requires places { places.now ≡ places_from 0 sets.now }
    requires some { 0 < length dest.now.key }
    ensures { IfOk result (λ set. set.keys ≡ ordered (paths_below dest.now (all_commits sets.now))) }
{
    let mut paths = BTreeSet::new(alloc);
    let mut n = places.len();
    while 0 < n {
        n -= 1;
        let path = relative(alloc, dest, upload(sets, places, n).destination())?;
        paths.insert(path)?;
    }
    Ok(paths)
}

fn listed(alloc: Global, paths: &BTreeSet<Text>) -> Result<TextList, AllocError>
    ensures { IfOk result (λ list. list ≡ paths.now.keys) }
{
    let mut list = Sequence::new(alloc);
    for path in paths {
        list.push(path.clone()?)?;
    }
    Ok(list)
}

/// Returns the paths that the tasks of these sets write, each once, in the order of their bytes.
pub fn wanted_paths(
    alloc: Global,
    plan: &JobPlan,
    sets: &[PendingSet],
    places: &[Place],
) -> Result<TextList, AllocError>
    requires { HasAll plan.now sets.now places.now }
    ensures { IfOk result (λ paths. paths ≡ wanted_paths (read_script plan.now sets.now) (picks_of sets.now)) }
{
    let paths = ordered_paths(alloc, &plan.dest, sets, places)?;
    listed(alloc, &paths)
}

/// Returns the put of a committed job's marker, which lists the wanted paths as its files.
pub fn mark_request(
    alloc: Global,
    plan: &JobPlan,
    sets: &[PendingSet],
    places: &[Place],
) -> Result<Request, AllocError>
    requires { HasAll plan.now sets.now places.now }
    ensures { IfOk result (λ request. Some request ≡ commit_asks (read_script plan.now sets.now) (Marking sets.now 0)) }
{
    let files = wanted_paths(alloc, plan, sets, places)?;
    let mark = SuccessMark {
        job: plan.job.clone()?,
        committer: plan.committer,
        files,
        stamp: plan.stamp,
    };
    let bytes = mark.print(alloc)?;
    let key = success_key(alloc, &plan.dest)?;
    Request::put_object(plan.dest.bucket(), &key, &bytes, None)
}
