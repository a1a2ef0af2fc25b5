ghost use Rattle.std.specs.Prelude.{◌≡◌, [], ◌∷◌, ◌++◌, length, OnOk, OnErr, false};
ghost use Rattle.job_model.specs.Files.{has_path};

use indexmap::IndexMap;
use s3_types::{Bytes, Text};
use std::alloc::{AllocError, Global};
use std::marker::Model;

/// The files of an attempt in script order: paths with their bytes. Each path occurs once.
#[derive(Drop)]
pub struct FileList {
    files: IndexMap<Text, Bytes>,
}

impl Model for FileList {
    ghost use Rattle.std.specs.Prelude.{ℕ, List};

    ghost Value = { List (List ℕ × List ℕ) };

    ghost view = { λ f. f.files.entries };
}

impl FileList {
    /// An empty list of files. Takes no memory.
    pub fn new(alloc: Global) -> FileList
        ensures { result ≡ [] }
    {
        FileList {
            files: IndexMap::new(alloc),
        }
    }

    /// The number of files.
    pub fn len(&self) -> usize
        ensures { result ≡ length self.now }
    {
        self.files.len()
    }

    /// True if a file has this path.
    pub fn has(&self, path: &Text) -> bool
        ensures { result ≡ has_path self.now path.now }
    {
        self.files.contains_key(path)
    }

    /// Adds a file at the end. No file may have its path yet. If memory runs out, the files stay as
    /// they
    /// were.
    pub fn add(&mut self, path: Text, bytes: Bytes) -> Result<(), AllocError>
        requires { has_path self.old path ≡ false }
        ensures ok { OnOk result (self.new ≡ self.old ++ (path, bytes) ∷ []) }
        ensures err { OnErr result (self.new ≡ self.old) }
    {
        match self.files.insert(path, bytes) {
            Ok(_) => Ok(()),
            Err(_) => Err(AllocError),
        }
    }

    /// The paths of the files with their bytes.
    pub fn held(&self) -> &IndexMap<Text, Bytes>
        ensures { result.now.entries ≡ self.now }
    {
        &self.files
    }
}
