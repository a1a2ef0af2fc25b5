ghost use Rattle.std.specs.Prelude.{◌≡◌, ◌≤◌, length, IfOk, OnOk};
ghost use Rattle.job_world.specs.Worlds.{MayBegin};
ghost use Rattle.trace_text.specs.DryRuns.{IsDryRun};

use crate::trace::trace_text;
use job_actor::Works;
use job_model::{EndList, PickList, Script};
use job_world::{Played, World};
use s3_service::Service;
use s3_types::{Journal, let_go};
use std::alloc::{AllocError, Global};

/// A run of a job that is stored nowhere: its script, the journal of its sends, the attempts that
/// its commit chose, the ends of its events, the exit status (0, 1, 8 or 9), and its trace.
#[derive(Drop)]
pub struct DryRun {
    pub script: Script,
    pub journal: Journal,
    pub picks: PickList,
    pub ends: EndList,
    pub status: u8,
    pub text: String,
}

/// Runs the events of a world's script that are left.
fn run_all<W: Works>(world: &mut World<W>) -> Result<(), AllocError>
    requires { length world.old.ends ≤ length world.old.script.events }
    ensures script { world.new.script ≡ world.old.script }
    ensures opening { world.new.opening ≡ world.old.opening }
    ensures over { OnOk result (length world.new.ends ≡ length world.new.script.events) }
{
    'events: while let Some(event) = world.next() {
        world.event(&event)?;
    }
    Ok(())
}

/// Returns the results of a run without its store, with its status and its trace.
fn shown(played: Played, status: u8, text: String) -> DryRun
    ensures { result ≡ record {
      script = played.script;
      journal = played.journal;
      picks = played.picks;
      ends = played.ends;
      status = status;
      text = text;
    } }
{
    let Played {
        script,
        service,
        journal,
        picks,
        ends,
    } = played;
    let_go(service);
    DryRun {
        script,
        journal,
        picks,
        ends,
        status,
        text,
    }
}

/// Returns the run of a world whose events have all ended, with its trace over the store that it
/// began with.
fn traced<W: Works>(alloc: Global, world: World<W>, opening: Service) -> Result<DryRun, AllocError>
    requires over { length world.ends ≡ length world.script.events }
    requires opening { world.opening ≡ opening }
    requires store { MayBegin opening }
    ensures { IfOk result (IsDryRun world.script opening) }
{
    let status = world.verdict();
    let played = world.finish();
    match trace_text(
        alloc,
        &played.script,
        opening,
        &played.journal,
        &played.ends,
        status,
    ) {
        Ok(text) => Ok(shown(played, status, text)),
        Err(error) => {
            let_go(played);
            Err(error)
        }
    }
}

/// Runs the events of a world that are left, and returns the run with its trace over the store that
/// it began with.
fn run_traced<W: Works>(
    alloc: Global,
    mut world: World<W>,
    opening: Service,
) -> Result<DryRun, AllocError>
    requires within { length world.ends ≤ length world.script.events }
    requires opening { world.opening ≡ opening }
    requires store { MayBegin opening }
    ensures { IfOk result (IsDryRun world.script opening) }
{
    match run_all(&mut world) {
        Ok(()) => traced(alloc, world, opening),
        Err(error) => {
            let_go(world);
            let_go(opening);
            Err(error)
        }
    }
}

/// Runs a job over a store to the end of its script, stores nothing, and returns the run with its
/// trace. Fails with `AllocError` only if memory runs out.
pub fn dry_run<W: Works>(
    alloc: Global,
    script: Script,
    service: Service,
) -> Result<DryRun, AllocError>
    // The store's next upload id is at most 2^62.
    requires store { MayBegin service }
    // The result is a run of this script over this store, with its trace, and the run keeps all
    // that is promised of a job.
    ensures { IfOk result (IsDryRun script service) }
{
    let Ok(opening) = service.copy() else {
        let_go(script);
        let_go(service);
        return Err(AllocError);
    };
    let Ok(world) = World::<W>::new(alloc, script, service) else {
        let_go(opening);
        return Err(AllocError);
    };
    run_traced(alloc, world, opening)
}
