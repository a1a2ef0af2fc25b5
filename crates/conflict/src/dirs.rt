ghost use Rattle.std.specs.Prelude.{◌≡◌, IfOk, OnOk, option_map};
ghost use Rattle.job_protocol.specs.Conflicts.{dir_of, partitions};
ghost use Rattle.conflict.specs.inner.Partitions.{with_partition};

use s3_types::{Sequence, Text, TextList};
use std::alloc::{AllocError, Global};
use std::collections::BTreeSet;

/// Returns the directory of a path, if the path has a `/`. Takes no memory.
fn dir_of(path: &str) -> Option<&str>
    ensures { option_map (λ d. d.now) result ≡ dir_of path.now }
{
    match path.rsplit_once('/') {
        Some((dir, _)) => Some(dir),
        None => None,
    }
}

/// Adds the directory of a path, if there is one.
fn add_dir(alloc: Global, dirs: &mut BTreeSet<Text>, path: &Text) -> Result<(), AllocError>
    ensures { OnOk result (dirs.new.keys ≡ with_partition (dir_of path.now) dirs.old.keys) }
{
    let Some(dir) = dir_of(path.as_str()) else {
        return Ok(());
    };
    let dir = Text::copied(alloc, dir)?;
    dirs.insert(dir)?;
    Ok(())
}

fn ordered_dirs(alloc: Global, paths: &[Text]) -> Result<BTreeSet<Text>, AllocError>
    ensures { IfOk result (λ dirs. dirs.keys ≡ partitions paths.now) }
{
    let mut dirs = BTreeSet::new(alloc);
    let mut n = paths.len();
    while 0 < n {
        n -= 1;
        add_dir(alloc, &mut dirs, &paths[n])?;
    }
    Ok(dirs)
}

fn listed(alloc: Global, texts: &BTreeSet<Text>) -> Result<TextList, AllocError>
    ensures { IfOk result (λ list. list ≡ texts.now.keys) }
{
    let mut list = Sequence::new(alloc);
    for text in texts {
        list.push(text.clone()?)?;
    }
    Ok(list)
}

/// Returns the directories of these paths, each once, in the order of their bytes. A path without a
/// `/` has no directory. Takes time proportional to the number of paths times its logarithm.
pub fn partitions(alloc: Global, paths: &[Text]) -> Result<TextList, AllocError>
    ensures { IfOk result (λ dirs. dirs ≡ partitions paths.now) }
{
    let dirs = ordered_dirs(alloc, paths)?;
    listed(alloc, &dirs)
}
