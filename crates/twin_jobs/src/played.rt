ghost use Rattle.std.specs.Prelude.{◌≡◌, ◌<◌, length, slice_get};
ghost use Rattle.twin_script.specs.declared.turns.Side.TheVariants.{First, Second};
ghost use Rattle.twin_jobs.specs.Pairs.{side_in, job_in};
ghost use Rattle.twin_jobs.specs.Played.{told_of};

use crate::pair::Pair;
use job_actor::Works;
use job_model::{EndList, PickList, Script};
use job_run::{Body, Hand, JobRun, into_picks};
use s3_service::Service;
use s3_types::{Journal, Sequence};
use std::mem;
use twin_script::Side;

/// What a run leaves of one job: its script, the picks of its commit, and the ends of its events.
#[derive(Drop)]
pub struct JobLeft {
    pub script: Script,
    pub picks: PickList,
    pub ends: EndList,
}

/// What a run of two jobs leaves: the store, the journal, what is left of each job, and the side of
/// each event that the order asks for.
#[derive(Drop)]
pub struct TwinPlayed {
    pub service: Service,
    pub journal: Journal,
    pub first: JobLeft,
    pub second: JobLeft,
    pub sides: Sequence<Side>,
}

/// Takes a side apart into what its run leaves. Takes no memory.
fn left_of<W: Works>(side: JobRun<W>) -> JobLeft
    requires hands { 0 < length side.hands.items }
    ensures { told_of result ≡ job_in W.picks_of side }
{
    let mut hands = side.hands;
    let hand = mem::replace(&mut hands[0], Hand::Empty);
    JobLeft {
        script: side.script,
        picks: into_picks(hand, side.picks),
        ends: Sequence::from_vec(side.ends),
    }
}

/// Takes a pair apart into what the run leaves. Takes no memory.
pub fn left_by<W: Works>(pair: Pair<W>) -> TwinPlayed
    requires moving { 0 < length pair.body.side.hands.items }
    requires other { 0 < length pair.other.hands.items }
    ensures service { result.service ≡ pair.body.shared.store.scene.content }
    ensures journal { result.journal ≡ pair.body.shared.journal }
    ensures first { told_of result.first ≡ job_in W.picks_of (side_in First pair) }
    ensures second { told_of result.second ≡ job_in W.picks_of (side_in Second pair) }
    ensures sides { result.sides ≡ pair.sides.items }
{
    let Pair {
        body,
        other,
        moving,
        sides,
    } = pair;
    let Body { side, shared } = body;
    let (first, second) = match moving {
        Side::First => (left_of(side), left_of(other)),
        Side::Second => (left_of(other), left_of(side)),
    };
    TwinPlayed {
        service: shared.store.into_service(),
        journal: shared.journal,
        first,
        second,
        sides: Sequence::from_vec(sides),
    }
}
