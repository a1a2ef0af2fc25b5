ghost use Rattle.std.specs.Prelude.{◌≡◌, ◌++◌, true, false, IfOk};
ghost use Rattle.s3_types.specs.Names.{are_elements, is_key_path};
ghost use Rattle.dir_markers.specs.Markers.{marker_of};
ghost use Rattle.fs_tree.specs.Tree.{is_marker};
ghost use Rattle.fs_tree.specs.Moves.{is_too_long};
ghost use Rattle.fs_rename.specs.Keys.{place_of, fitting, new_key, new_keys};

use fs_ops::rest_of;
use path_keys::S3Path;
use s3_types::{Key, KeyList, Text, let_go};
use std::alloc::{AllocError, Global};
use std::marker::Model;

/// True if the key is that of a directory's marker.
fn is_marker(key: &[u8]) -> bool
    ensures { result ≡ is_marker key.now }
{
    match key.last() {
        Some(byte) => *byte == b'/',
        None => false,
    }
}

/// True if the key is over its limit.
fn is_too_long(key: &[u8]) -> bool
    ensures { result ≡ is_too_long key.now }
{
    let limit = if is_marker(key) { 1024 } else { 1023 };
    key.len() > limit
}

/// The text as a key, unless it is over its limit.
fn fitting(text: Text) -> Option<Key>
    requires { is_too_long text ≡ false → is_key_path text ≡ true }
    ensures { result ≡ fitting text }
{
    if is_too_long(text.as_bytes()) {
        None
    } else {
        Some(Key::new(text))
    }
}

/// Two texts, one after the other.
fn joined(alloc: Global, text: &str, rest: &str) -> Result<Text, AllocError>
    ensures { IfOk result (λ whole. whole ≡ text.now ++ rest.now) }
{
    Text::new(alloc, format!(in alloc; "{text}{rest}")?)
}

/// A path to which keys are moved or copied, and the prefix of the keys below it. The path may be
/// over the limit of keys.
#[derive(Drop)]
pub struct Base {
    path: Text,
    prefix: Text,
}

impl Model for Base {
    ghost use Rattle.std.specs.Prelude.{◌≡◌, ℕ, List, true};
    ghost use Rattle.s3_types.specs.Names.{are_elements};
    ghost use Rattle.dir_markers.specs.Markers.{marker_of};

    ghost Value = { List ℕ };

    ghost view = { λ b. b.path };

    ghost invariant = { λ b. (b.prefix ≡ marker_of b.path) × (are_elements b.path ≡ true) };
}

impl Base {
    /// The base of a path.
    pub fn new(alloc: Global, path: Text) -> Result<Base, AllocError>
        requires { are_elements path ≡ true }
        ensures { IfOk result (λ base. base ≡ path) }
    {
        let Ok(prefix) = joined(alloc, path.as_str(), "/") else {
            let_go(path);
            return Err(AllocError);
        };
        Ok(Base { path, prefix })
    }

    /// The target as a base, or None if the source or the target is the root.
    #[tactic(auto, using(crate::proofs::Places::source_none, crate::proofs::Places::target_none, crate::proofs::Places::target_some, crate::proofs::Places::target_elements))]
    pub fn of_target(
        alloc: Global,
        source: &S3Path,
        target: &S3Path,
    ) -> Result<Option<Base>, AllocError>
        ensures { IfOk result (λ base. base ≡ place_of source.now.key target.now.key) }
    {
        if source.is_root() {
            return Ok(None);
        }
        if target.is_root() {
            return Ok(None);
        }
        Ok(Some(Base::new(alloc, target.key().clone()?)?))
    }

    /// The path. Takes no memory.
    pub fn path(&self) -> &Text
        ensures { result.now ≡ self.now }
    {
        &self.path
    }

    /// The prefix of the keys below it. Takes no memory.
    pub fn prefix(&self) -> &Text
        ensures { result.now ≡ marker_of self.now }
    {
        &self.prefix
    }

    /// The path's key, or None if it is over the limit.
    pub fn key(&self) -> Result<Option<Key>, AllocError>
        ensures { IfOk result (λ key. key ≡ fitting self.now) }
    {
        Ok(fitting(self.path.clone()?))
    }

    /// The new key of a key below this base, or None if that is over the limit: the rest after the
    /// marker `from` follows this base's marker. A key that does not begin with `from` stays as it
    /// is.
    fn new_key(&self, alloc: Global, from: &Text, key: &Key) -> Result<Option<Key>, AllocError>
        requires { is_marker from.now ≡ true }
        ensures { IfOk result (λ new. new ≡ fitting (new_key from.now (marker_of self.now) key.now)) }
    {
        match rest_of(from.as_str(), key.as_text().as_str()) {
            Some(rest) => Ok(fitting(joined(alloc, self.prefix.as_str(), rest)?)),
            None => Ok(fitting(key.as_text().clone()?)),
        }
    }

    /// The new keys below this base of keys below another path, or the first key whose new key
    /// would be over the limit.
    pub fn new_keys(
        &self,
        alloc: Global,
        from: &Text,
        keys: &[Key],
    ) -> Result<Result<KeyList, Key>, AllocError>
        requires { is_marker from.now ≡ true }
        ensures { IfOk result (λ new. new ≡ new_keys from.now (marker_of self.now) keys.now) }
    {
        let mut new = KeyList::new(alloc);
        for key in keys {
            match self.new_key(alloc, from, key)? {
                Some(place) => new.push(place)?,
                None => return Ok(Err(key.clone()?)),
            }
        }
        Ok(Ok(new))
    }
}
