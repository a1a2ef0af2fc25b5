ghost use Rattle.std.specs.Prelude.{◌≡◌, ◌<◌, ◌^◌, ◌-◌, Some, IfOk, IfErr, OnErr};
ghost use Rattle.journal_log.specs.Images.{NotReplaced};
ghost use Rattle.job_spec.specs.States.{verdict};
ghost use Rattle.job_world.specs.Worlds.{MayBegin};
ghost use Rattle.twin_script.specs.TwinScripts.{AreTwins};
ghost use Rattle.durable_job.specs.Jobs.{verdict_of_two};
ghost use Rattle.durable_job.specs.inner.Jobs.{told_both};
ghost use Rattle.durable_job.specs.Played.{IsPlayed, Counts};

use crate::jobs::{Jobs, Told};
use crate::keeping::keep;
use devices::kept::{Shelf, ShelfStop};
use job_actor::Works;
use job_model::{EndList, PickList, Script};
use job_world::{Played, World};
use journal_log::keeps_images;
use s3_service::Service;
use s3_types::{Journal, Sequence, let_go};
use std::alloc::{AllocError, Global};
use twin_jobs::{TwinPlayed, TwinWorld};
use twin_script::{Side, TurnList, Twins};

/// The run of one job or two, and why it stopped before all events had ended, if it did.
#[derive(Drop)]
pub struct Kept {
    pub stop: Option<ShelfStop>,
    /// The status by the ends of the events: 0, 1, 8 or 9. Of two jobs it is the first one's,
    /// unless that is 0; then it is the second one's.
    pub verdict: u8,
    pub jobs: Jobs,
    /// The store as the requests have left it.
    pub service: Service,
    /// The journal of all that was sent.
    pub journal: Journal,
    pub told: Told,
}

/// Plays one job and keeps its run on the shelf.
fn play_one<W: Works, F: Shelf>(
    alloc: Global,
    shelf: &mut F,
    script: Script,
    service: Service,
) -> Result<Kept, ShelfStop>
    requires store { MayBegin service }
    requires count { F.faults shelf.old < 2 ^ 64 - 1 }
    ensures played { IfOk result (λ kept. IsPlayed F.sight (Jobs.One script) service kept shelf.old shelf.new) }
    ensures counted { IfOk result (λ kept. Counts kept.stop (F.faults shelf.old) (F.faults shelf.new)) }
    ensures err { OnErr result (NotReplaced F.sight service shelf.old shelf.new) }
    ensures faults { IfErr result (λ stop. Counts (Some stop) (F.faults shelf.old) (F.faults shelf.new)) }
{
    let Ok(mut world) = World::<W>::new(alloc, script, service) else {
        return Err(ShelfStop::NoMemory);
    };
    let stop = match keep(alloc, shelf, &mut world) {
        Ok(stop) => stop,
        Err(fault) => {
            let_go(world);
            return Err(fault);
        }
    };
    let verdict = world.verdict();
    let left = world.finish();
    keeps_images(&left.journal);
    let Played {
        script,
        service,
        journal,
        picks,
        ends,
    } = left;
    let second_picks = PickList::new(alloc);
    let second_ends = EndList::new(alloc);
    Ok(Kept {
        stop,
        verdict,
        jobs: Jobs::One(script),
        service,
        journal,
        told: Told {
            picks,
            ends,
            second_picks,
            second_ends,
        },
    })
}

/// The first of two statuses that is not 0, or 0 if both are.
fn first_of(first: u8, second: u8) -> u8
    ensures { result ≡ verdict_of_two first second }
{
    if first == 0 { second } else { first }
}

/// The status of a run of two jobs.
fn verdict_of<W: Works>(world: &TwinWorld<W>) -> u8
    ensures { result ≡ verdict_of_two (verdict world.now.first.script world.now.first.ends)
        (verdict world.now.second.script world.now.second.ends) }
{
    let first = world.verdict(Side::First);
    let second = world.verdict(Side::Second);
    first_of(first, second)
}

/// A copy of the order of two jobs' turns.
fn order_of(alloc: Global, twins: &Twins) -> Result<TurnList, AllocError>
    ensures { IfOk result (λ order. order ≡ twins.now.order) }
{
    let mut turns = Vec::new(alloc);
    turns.extend_from_slice(twins.order.as_slice())?;
    Ok(Sequence::from_vec(turns))
}

/// The run of two jobs, from what their world leaves.
fn kept_of(stop: Option<ShelfStop>, verdict: u8, order: TurnList, left: TwinPlayed) -> Kept
    requires { AreTwins (record { first = left.first.script; second = left.second.script; order = order }) }
    ensures { result ≡ record {
      stop = stop;
      verdict = verdict;
      jobs = Jobs.Two (record { first = left.first.script; second = left.second.script; order = order });
      service = left.service;
      journal = left.journal;
      told = told_both left.first left.second;
    } }
{
    let TwinPlayed {
        service,
        journal,
        first,
        second,
        sides,
    } = left;
    let_go(sides);
    Kept {
        stop,
        verdict,
        jobs: Jobs::Two(Twins {
            first: first.script,
            second: second.script,
            order,
        }),
        service,
        journal,
        told: Told {
            picks: first.picks,
            ends: first.ends,
            second_picks: second.picks,
            second_ends: second.ends,
        },
    }
}

/// Plays two jobs at one destination and keeps their run on the shelf.
fn play_two<W: Works, F: Shelf>(
    alloc: Global,
    shelf: &mut F,
    twins: Twins,
    service: Service,
) -> Result<Kept, ShelfStop>
    requires store { MayBegin service }
    requires count { F.faults shelf.old < 2 ^ 64 - 1 }
    ensures played { IfOk result (λ kept. IsPlayed F.sight (Jobs.Two twins) service kept shelf.old shelf.new) }
    ensures counted { IfOk result (λ kept. Counts kept.stop (F.faults shelf.old) (F.faults shelf.new)) }
    ensures err { OnErr result (NotReplaced F.sight service shelf.old shelf.new) }
    ensures faults { IfErr result (λ stop. Counts (Some stop) (F.faults shelf.old) (F.faults shelf.new)) }
{
    twins.keeps();
    let Ok(order) = order_of(alloc, &twins) else {
        let_go(twins);
        let_go(service);
        return Err(ShelfStop::NoMemory);
    };
    let Ok(mut world) = TwinWorld::<W>::new(alloc, twins, service) else {
        let_go(order);
        return Err(ShelfStop::NoMemory);
    };
    let stop = match keep(alloc, shelf, &mut world) {
        Ok(stop) => stop,
        Err(fault) => {
            let_go(order);
            let_go(world);
            return Err(fault);
        }
    };
    let verdict = verdict_of(&world);
    let left = world.finish();
    keeps_images(&left.journal);
    Ok(kept_of(stop, verdict, order, left))
}

/// Plays one job, or two by their order, over a store and keeps the run on a shelf. It first
/// replaces what the shelf holds by the store's image. After each event it makes one append for
/// each request that took effect and may change the store. The run stops early if an append fails
/// or memory runs out, and the result has what was sent until then. Fails if the shelf does not
/// take the image, or memory runs out before it does; then nothing was sent, and the shelf holds
/// what it held. Copies share bytes.
pub fn play<W: Works, F: Shelf>(
    alloc: Global,
    shelf: &mut F,
    jobs: Jobs,
    service: Service,
) -> Result<Kept, ShelfStop>
    requires store { MayBegin service }
    requires count { F.faults shelf.old < 2 ^ 64 - 1 }
    ensures played { IfOk result (λ kept. IsPlayed F.sight jobs service kept shelf.old shelf.new) }
    ensures counted { IfOk result (λ kept. Counts kept.stop (F.faults shelf.old) (F.faults shelf.new)) }
    ensures err { OnErr result (NotReplaced F.sight service shelf.old shelf.new) }
    ensures faults { IfErr result (λ stop. Counts (Some stop) (F.faults shelf.old) (F.faults shelf.new)) }
{
    match jobs {
        Jobs::One(script) => play_one::<W, F>(alloc, shelf, script, service),
        Jobs::Two(twins) => play_two::<W, F>(alloc, shelf, twins, service),
    }
}
