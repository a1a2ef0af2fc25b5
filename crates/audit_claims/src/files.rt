ghost use Rattle.std.specs.Option.{option_copied};
ghost use Rattle.std.specs.Prelude.{◌≡◌, [], ◌∷◌, ◌++◌, ◌↔◌, length, is_some, IsTrue, OnOk, OnErr, false};
ghost use Rattle.soundness.specs.Claims.{file_at};

use crate::etags::Etags;
use indexmap::IndexMap;
use s3_types::Text;
use std::alloc::{AllocError, Global};
use std::marker::Model;

/// The files of an attempt, in the order of the trace, each path once: paths with the tags of their contents.
#[derive(Drop)]
pub struct TagFiles {
    files: IndexMap<Text, Etags>,
}

impl Model for TagFiles {
    ghost use Rattle.std.specs.Prelude.{ℕ, List};

    ghost Value = { List (List ℕ × List (List ℕ)) };

    ghost view = { λ f. f.files.entries };
}

impl TagFiles {
    /// Returns an empty list of files. Takes no memory.
    pub fn new(alloc: Global) -> TagFiles
        ensures empty { result ≡ [] }
    {
        TagFiles {
            files: IndexMap::new(alloc),
        }
    }

    /// Returns whether there is no file.
    pub fn is_empty(&self) -> bool
        ensures none { IsTrue result ↔ (length self.now ≡ 0) }
    {
        self.files.is_empty()
    }

    /// Returns whether a file has this path.
    pub fn has(&self, path: &Text) -> bool
        ensures found { result ≡ is_some (file_at self.now path.now) }
    {
        self.files.contains_key(path)
    }

    /// Returns the tags of the file at this path, if there is one.
    pub fn get(&self, path: &Text) -> Option<&Etags>
        ensures found { option_copied result ≡ file_at self.now path.now }
    {
        self.files.get(path)
    }

    /// Adds a file with another path after the others. Fails only if memory runs out; the files are
    /// then unchanged.
    pub fn add(&mut self, path: Text, etags: Etags) -> Result<(), AllocError>
        requires other { is_some (file_at self.old path) ≡ false }
        ensures ok { OnOk result (self.new ≡ self.old ++ (path, etags) ∷ []) }
        ensures err { OnErr result (self.new ≡ self.old) }
    {
        match self.files.insert(path, etags) {
            Ok(_) => Ok(()),
            Err(_) => Err(AllocError),
        }
    }

    /// Returns the files' paths and tags, in the order of the trace.
    pub fn held(&self) -> &IndexMap<Text, Etags>
        ensures entries { result.now.entries ≡ self.now }
    {
        &self.files
    }
}
