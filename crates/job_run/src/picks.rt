ghost use Rattle.std.specs.Prelude.{◌≡◌, Some};
ghost use Rattle.job_run.specs.Events.{picks_in};

use crate::hands::Hand;
use job_actor::Works;
use job_model::PickList;
use s3_types::let_go;

/// The picks of the operation in hand, or those put by earlier if the hand has none.
pub fn picks_in<'a, W: Works>(hand: &'a Hand<W>, put_by: &'a PickList) -> &'a PickList
    ensures { result.now ≡ picks_in W.picks_of put_by.now (Some hand.now) }
{
    match hand {
        Hand::At(work) => match work.picks() {
            Some(picks) => picks,
            None => put_by,
        },
        _ => put_by,
    }
}

/// Turns a hand and the picks put by earlier into the picks that `picks_in` shows.
pub fn into_picks<W: Works>(hand: Hand<W>, put_by: PickList) -> PickList
    ensures { result ≡ picks_in W.picks_of put_by (Some hand) }
{
    match hand {
        Hand::At(work) => match work.into_picks() {
            Some(picks) => {
                let_go(put_by);
                picks
            }
            None => put_by,
        },
        Hand::Plan(plan) => {
            let_go(plan);
            put_by
        }
        Hand::Empty => put_by,
    }
}
