ghost use Rattle.std.specs.Prelude.{◌≡◌, ◌==◌, true, false, [], ◌∷◌, length, Err};
ghost use Rattle.operations.specs.declared.plan.Step.TheVariants.{End};
ghost use Rattle.fs_tree.specs.declared.answers.FsRefusal.TheVariants.{NoSuchBucket};
ghost use Rattle.fs_ops.specs.code.AtPath.{on_here, on_below, heard};
ghost use Rattle.fs_ops.specs.code.Steps.{unless};

use crate::place::Place;
use bucket_ops::Look;
use fs_tree::FsRefusal;
use operations::Step;

/// The stage of a question about a path.
#[derive(Clone, Copy)]
pub enum PathStage {
    /// Asks whether a file exists at the path.
    Here,
    /// Asks whether anything exists below it.
    Below,
}

/// The step after the reply about a file at the path: `found` if there is one, `directory` at the
/// root, else a look below.
fn on_here<A: Drop>(
    place: &Place,
    found: Option<A>,
    directory: Result<A, FsRefusal>,
) -> Step<PathStage, Result<A, FsRefusal>>
    ensures { result ≡ on_here directory found place.now }
{
    if place.is_root() {
        return Step::End(directory);
    }
    match found {
        Some(answer) => Step::End(Ok(answer)),
        None => Step::Next(PathStage::Below),
    }
}

fn on_below<A: Drop>(
    seen: Look,
    directory: Result<A, FsRefusal>,
) -> Step<PathStage, Result<A, FsRefusal>>
    ensures { result ≡ on_below directory seen }
{
    match seen {
        Look::There => Step::End(directory),
        _ => Step::End(Err(FsRefusal::NotFound)),
    }
}

/// The step after a reply, which showed this look and this file.
pub(crate) fn heard<A: Drop>(
    place: &Place,
    stage: PathStage,
    seen: Look,
    found: Option<A>,
    directory: Result<A, FsRefusal>,
) -> Step<PathStage, Result<A, FsRefusal>>
    ensures { result ≡ unless seen (End (Err NoSuchBucket)) (heard directory found place.now stage seen) }
{
    if let Look::NoBucket = seen {
        return Step::End(Err(FsRefusal::NoSuchBucket));
    }
    match stage {
        PathStage::Here => on_here(place, found, directory),
        PathStage::Below => on_below(seen, directory),
    }
}
