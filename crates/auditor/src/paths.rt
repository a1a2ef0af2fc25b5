ghost use Rattle.std.specs.List.{list_any};
ghost use Rattle.std.specs.List.Sorted.{IsStrictlySortedBy};
ghost use Rattle.std.specs.Prelude.{◌≡◌, ◌||◌, ℕ, List, [], None, IfOk, OnOk};
ghost use Rattle.text_and_lists.specs.Order.{text_cmp, text_eq};
ghost use Rattle.audit_model.specs.Answers.{seen_paths};
ghost use Rattle.auditor.specs.inner.Paths.{given, has_path};

use crate::destination::Destination;
use audit_judge::Change;
use s3_types::Text;
use std::alloc::{AllocError, Global};
use std::collections::BTreeSet;
use std::marker::Model;

/// Paths below a destination, ordered by their bytes, each once.
#[derive(Drop)]
pub(crate) struct PathSet {
    paths: BTreeSet<Text>,
}

impl Model for PathSet {
    ghost use Rattle.std.specs.Prelude.{ℕ, List};

    ghost Value = { List (List ℕ) };

    ghost view = { λ s. s.paths.keys };
}

impl PathSet {
    /// Returns a set without paths. Takes no memory.
    pub(crate) fn new(alloc: Global) -> PathSet
        ensures empty { result ≡ [] }
    {
        PathSet {
            paths: BTreeSet::new(alloc),
        }
    }

    /// Adds a path. Fails only if memory runs out.
    fn add(&mut self, path: Text) -> Result<(), AllocError>
        ensures ok { OnOk result ((p : List ℕ) → has_path p self.new ≡ (text_eq p path || has_path p self.old)) }
    {
        self.paths.insert(path)?;
        Ok(())
    }

    /// Returns the changes after which readers see no file at any of these paths. Fails only if
    /// memory runs out.
    pub(crate) fn all_gone(&self, alloc: Global) -> Result<Vec<Change>, AllocError>
        ensures gone { IfOk result (λ changes. changes.items ≡ given self.now None) }
        ensures rising { IsStrictlySortedBy text_cmp self.now }
    {
        let mut changes = Vec::new(alloc);
        for path in self.paths.iter() {
            changes.push(Change {
                path: path.clone()?,
                etags: None,
            })?;
        }
        Ok(changes)
    }
}

/// Returns the paths of these keys of a bucket that are below a destination and at which readers
/// see files. Fails only if memory runs out.
pub(crate) fn seen_paths(
    alloc: Global,
    dest: &Destination,
    bucket: &Text,
    keys: &[Text],
) -> Result<PathSet, AllocError>
    ensures seen { IfOk result (λ s. (p : List ℕ) → has_path p s ≡ has_path p (seen_paths dest.now bucket.now keys.now)) }
{
    let mut paths = PathSet::new(alloc);
    for key in keys {
        match dest.path_of(alloc, bucket, key)? {
            Some(path) => paths.add(path)?,
            None => {}
        }
    }
    Ok(paths)
}
