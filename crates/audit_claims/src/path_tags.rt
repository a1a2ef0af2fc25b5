ghost use Rattle.std.specs.FinMap as map;
ghost use Rattle.std.specs.Option.{option_copied};
ghost use Rattle.std.specs.Prelude.{◌≡◌, OnOk, OnErr};

use crate::etags::Etags;
use s3_types::Text;
use std::alloc::{AllocError, Global};
use std::collections::BTreeMap;
use std::marker::Model;

/// Paths with the tags of their contents, which contracts see as a finite map. The paths are
/// ordered by their bytes. Each call costs O(log n) for n paths.
#[derive(Drop)]
pub struct PathTags {
    tags: BTreeMap<Text, Etags>,
}

impl Model for PathTags {
    ghost use Rattle.std.specs.FinMap as map;
    ghost use Rattle.audit_claims.specs.Etags.{TagMap, coded_tags};

    ghost Value = { TagMap };

    ghost coded = { coded_tags };

    ghost view = { λ p. map.from_entries p.tags.entries };
}

impl PathTags {
    /// Returns a map without paths. Takes no memory.
    pub fn new(alloc: Global) -> PathTags
        ensures empty { result ≡ map.empty }
    {
        PathTags {
            tags: BTreeMap::new(alloc),
        }
    }

    /// Returns the tags at a path, if it has any.
    pub fn get(&self, path: &Text) -> Option<&Etags>
        ensures found { option_copied result ≡ map.get self.now path.now }
    {
        self.tags.get(path)
    }

    /// Gives a path these tags, in place of those that it has. Fails only if memory runs out; all
    /// is then unchanged.
    pub fn put(&mut self, path: Text, etags: Etags) -> Result<(), AllocError>
        ensures ok { OnOk result (self.new ≡ map.insert self.old path etags) }
        ensures err { OnErr result (self.new ≡ self.old) }
    {
        self.tags.insert(path, etags)?;
        Ok(())
    }

    /// Removes a path with its tags, if it has any.
    pub fn remove(&mut self, path: &Text)
        ensures gone { self.new ≡ map.remove self.old path.now }
    {
        let _ = self.tags.remove(path);
    }

    /// Returns the paths and their tags, in the order of the paths.
    pub fn held(&self) -> &BTreeMap<Text, Etags>
        ensures entries { result.now.entries ≡ map.entries self.now }
    {
        let _count = self.tags.len();
        &self.tags
    }
}
