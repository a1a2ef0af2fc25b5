ghost use Rattle.std.specs.Prelude.{◌≡◌, ◌<◌, length, slice_get};
ghost use Rattle.job_run.specs.Events.{picks_in};

use job_actor::Works;
use job_model::{EndList, PickList, Script};
use job_run::{Body, Hand, into_picks};
use s3_service::Service;
use s3_types::{Journal, Sequence};
use std::mem;

/// What a run leaves: its script, the store, the journal of all that was sent, the picks of the
/// job's commit, and the ends of the events.
#[derive(Drop)]
pub struct Played {
    pub script: Script,
    pub service: Service,
    pub journal: Journal,
    pub picks: PickList,
    pub ends: EndList,
}

/// Takes a world apart into what its run leaves. Takes no memory.
pub fn left_by<W: Works>(body: Body<W>) -> Played
    requires hands { 0 < length body.side.hands.items }
    ensures script { result.script ≡ body.side.script }
    ensures service { result.service ≡ body.shared.store.scene.content }
    ensures journal { result.journal ≡ body.shared.journal }
    ensures picks { result.picks ≡ picks_in W.picks_of body.side.picks (slice_get body.side.hands.items 0) }
    ensures ends { result.ends ≡ body.side.ends.items }
{
    let Body { side, shared } = body;
    let mut hands = side.hands;
    let hand = mem::replace(&mut hands[0], Hand::Empty);
    Played {
        script: side.script,
        service: shared.store.into_service(),
        journal: shared.journal,
        picks: into_picks(hand, side.picks),
        ends: Sequence::from_vec(side.ends),
    }
}
