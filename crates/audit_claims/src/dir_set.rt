ghost use Rattle.std.specs.Prelude.{◌≡◌, ◌<◌, ◌+◌, ◌&&◌, ◌||◌, ◌==◌, ℕ, List, [], take, length, slice_index, IfOk, OnOk};
ghost use Rattle.std.specs.List.{list_any};
ghost use Rattle.text_and_lists.specs.Order.{text_eq};
ghost use Rattle.soundness.specs.Claims.{directory, is_below};
ghost use Rattle.audit_claims.specs.Directories.{has_dir};

use std::alloc::{AllocError, Global};
use std::collections::BTreeSet;
use std::marker::Model;

/// Directories, ordered by their bytes; each ends in `/`, or is empty.
#[derive(Drop)]
pub(crate) struct DirSet {
    dirs: BTreeSet<Vec<u8>>,
}

impl Model for DirSet {
    ghost use Rattle.std.specs.Prelude.{ℕ, List, map};
    ghost use Rattle.audit_claims.specs.inner.Directories.{AreDirectories};

    ghost Value = { List (List ℕ) };

    ghost view = { λ s. map (λ d. d.items) s.dirs.keys };

    ghost invariant = { λ s. AreDirectories (map (λ d. d.items) s.dirs.keys) };
}

/// Returns the parent directory of a path, up to and with its last `/`.
pub(crate) fn directory(path: &[u8]) -> &[u8]
    ensures directory { result.now ≡ directory path.now }
{
    let mut dir = path;
    while let Some((last, front)) = dir.split_last() {
        if *last == b'/' {
            return dir;
        }
        dir = front;
    }
    dir
}

impl DirSet {
    /// Returns a set without directories. Takes no memory.
    pub(crate) fn new(alloc: Global) -> DirSet
        ensures empty { result ≡ [] }
    {
        DirSet {
            dirs: BTreeSet::new(alloc),
        }
    }

    /// Adds a directory. Fails only if memory runs out.
    pub(crate) fn add(&mut self, alloc: Global, dir: &[u8]) -> Result<(), AllocError>
        requires directory { directory dir.now ≡ dir.now }
        ensures ok { OnOk result ((d : List ℕ) → has_dir d self.new ≡ (text_eq d dir.now || has_dir d self.old)) }
    {
        let dir = Vec::from_slice(alloc, dir)?;
        self.dirs.insert(dir)?;
        Ok(())
    }

    /// Returns whether the set has this directory.
    pub(crate) fn has(&self, dir: &[u8]) -> bool
        ensures has { result ≡ has_dir dir.now self.now }
    {
        self.dirs.contains(dir)
    }

    fn has_at(&self, path: &[u8], n: usize) -> bool
        requires within { n < length path.now }
        ensures has { result
            ≡ ((slice_index path.now n == 47) && has_dir (take (n + 1) path.now) self.now) }
    {
        path[n] == b'/' && self.has(&path[..n + 1])
    }

    /// Returns whether a path is below one of the directories. Looks up the prefixes of the path
    /// that end in `/`.
    pub(crate) fn reaches(&self, path: &[u8]) -> bool
        ensures below { result ≡ list_any (λ d. is_below d path.now) self.now }
    {
        let _dirs = &self.dirs;
        for n in 0..path.len() {
            if self.has_at(path, n) {
                return true;
            }
        }
        false
    }

    /// Adds all directories of another set. Fails only if memory runs out.
    pub(crate) fn add_all(&mut self, alloc: Global, other: &DirSet) -> Result<(), AllocError>
        ensures ok { OnOk result ((d : List ℕ) → has_dir d self.new ≡ (has_dir d self.old || has_dir d other.now)) }
    {
        for dir in &other.dirs {
            self.add(alloc, dir.as_slice())?;
        }
        Ok(())
    }

    /// Returns the directories that another set has too. Fails only if memory runs out.
    pub(crate) fn shared(&self, alloc: Global, other: &DirSet) -> Result<DirSet, AllocError>
        ensures both { IfOk result (λ s. (d : List ℕ) → has_dir d s ≡ (has_dir d self.now && has_dir d other.now)) }
    {
        let mut shared = DirSet::new(alloc);
        for dir in &self.dirs {
            if other.has(dir.as_slice()) {
                shared.add(alloc, dir.as_slice())?;
            }
        }
        Ok(shared)
    }
}
