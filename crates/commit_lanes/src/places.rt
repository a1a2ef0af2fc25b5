ghost use Rattle.std.specs.Prelude.{◌≡◌, ◌++◌, ◌<◌, length, slice_index_or, IfOk, OnOk};
ghost use Rattle.job_protocol.specs.Lanes.{nth};
ghost use Rattle.job_protocol.specs.JobCommits.{all_commits};
ghost use Rattle.commit_lanes.specs.Places.{row, places_from};

use pending_json::{PendingSet, PendingUpload};
use s3_types::Sequence;
use std::alloc::{AllocError, Global};

/// The place of an upload: the index of its set, and its index in that set.
#[derive(Clone, Copy)]
pub struct Place {
    pub set: usize,
    pub index: usize,
}

fn add_row(places: &mut Sequence<Place>, set: usize, count: usize) -> Result<(), AllocError>
    ensures { OnOk result (places.new ≡ places.old ++ row set count) }
{
    for index in 0..count {
        places.push(Place { set, index })?;
    }
    Ok(())
}

/// Returns the places of all uploads, by number.
pub fn placed(alloc: Global, sets: &[PendingSet]) -> Result<Sequence<Place>, AllocError>
    ensures { IfOk result (λ places. places ≡ places_from 0 sets.now) }
{
    let mut places = Sequence::new(alloc);
    for (n, set) in sets.iter().enumerate() {
        add_row(&mut places, n, set.commits.len())?;
    }
    Ok(places)
}

fn place_at(places: &[Place], number: usize) -> Place
    requires { number < length places.now }
    ensures { result ≡ slice_index_or places.now number result }
{
    places[number]
}

fn set_at(sets: &[PendingSet], number: usize) -> &PendingSet
    requires { number < length sets.now }
    ensures { result.now ≡ slice_index_or sets.now number result.now }
{
    &sets[number]
}

fn upload_in(set: &PendingSet, number: usize) -> &PendingUpload
    requires { number < length set.now.commits }
    ensures { result.now ≡ slice_index_or set.now.commits number result.now }
{
    &set.commits.as_slice()[number]
}

/// Returns the upload with this number. Takes no memory.
pub fn upload<'a>(sets: &'a [PendingSet], places: &[Place], number: usize) -> &'a PendingUpload
    requires places { places.now ≡ places_from 0 sets.now }
    requires within { number < length (all_commits sets.now) }
    ensures { result.now ≡ nth (all_commits sets.now) number }
{
    let place = place_at(places, number);
    upload_in(set_at(sets, place.set), place.index)
}
