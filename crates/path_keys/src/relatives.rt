ghost use Rattle.std.specs.Prelude.{◌≡◌, true, IfOk, option_map, string_bytes, length, ◌<◌};
ghost use Rattle.std.specs.List.{join_with_byte};
ghost use Rattle.text_and_lists.specs.Parts.{parts_of};
ghost use Rattle.path_keys.specs.Paths.{Gives, is_key, first_fault, checked, below, joined, without_last, parent_of, relative_in};

use crate::elements::first_fault;
use crate::fault::PathFault;
use crate::path::S3Path;
use s3_types::Text;
use std::alloc::{AllocError, Global};

fn below(alloc: Global, key: &str, relative: &str) -> Result<String, AllocError>
    ensures { IfOk result (λ text. string_bytes text ≡ below key.now relative.now) }
{
    if key.is_empty() {
        return String::from_str(alloc, relative);
    }
    let mut text = String::with_capacity(alloc, key.len() + 1 + relative.len())?;
    text.push_str(key)?;
    text.push('/')?;
    text.push_str(relative)?;
    Ok(text)
}

fn joined_key(alloc: Global, key: &str, relative: &str) -> Result<Text, PathFault>
    requires { is_key key.now ≡ true }
    ensures read { Gives result (checked (first_fault (parts_of 47 relative.now)) (below key.now relative.now)) }
    ensures key { IfOk result (λ k. is_key k ≡ true) }
{
    if let Some(fault) = first_fault(relative.as_bytes()) {
        return Err(fault);
    }
    let text = below(alloc, key, relative)?;
    if text.len() > 1023 {
        return Err(PathFault::TooLong);
    }
    Ok(Text::new(alloc, text)?)
}

fn before_last(key: &str) -> &str
    requires { is_key key.now ≡ true }
    ensures text { result.now ≡ join_with_byte 47 (without_last (parts_of 47 key.now)) }
    ensures key { is_key result.now ≡ true }
{
    match key.rsplit_once('/') {
        Some((front, _)) => front,
        None => "",
    }
}

/// Returns the rest of a text after a key and a `/`, if it begins so.
fn behind<'a>(key: &[u8], text: &'a [u8]) -> Option<&'a [u8]>
    requires { 0 < length key.now }
    ensures { option_map (λ r. r.now) result ≡ relative_in key.now text.now }
{
    match text.strip_prefix(key) {
        Some(rest) => rest.strip_prefix(b"/"),
        None => None,
    }
}

impl S3Path {
    /// Returns the path without its last element. Returns None exactly at a bucket's root.
    pub fn parent(&self, alloc: Global) -> Result<Option<S3Path>, AllocError>
        ensures { IfOk result (λ p. p ≡ parent_of self.now) }
    {
        if self.is_root() {
            return Ok(None);
        }
        let key = Text::copied(alloc, before_last(self.key().as_str()))?;
        Ok(Some(S3Path::new(self.bucket().clone()?, key)))
    }

    /// Returns the path whose key is this path's key, a `/`, and the relative text; at the root,
    /// the text alone. Fails as `read` does: with EmptyElement or DotElement for the first bad
    /// element of the text, and with TooLong if the whole key has more than 1,023 bytes.
    pub fn join(&self, alloc: Global, relative: &str) -> Result<S3Path, PathFault>
        ensures { Gives result (joined self.now relative.now) }
    {
        let key = joined_key(alloc, self.key().as_str(), relative)?;
        Ok(S3Path::new(self.bucket().clone()?, key))
    }

    /// Returns this path's key, a `/`, and a relative text; at the root, the relative text alone.
    pub fn text_below(&self, alloc: Global, relative: &str) -> Result<String, AllocError>
        ensures text { IfOk result (λ text. string_bytes text ≡ below self.now.key relative.now) }
        ensures key { is_key self.now.key ≡ true }
    {
        below(alloc, self.key().as_str(), relative)
    }

    /// Returns the rest of another key after this path's key and a `/`; at the root, the whole
    /// other key. Returns None exactly if the other key does not begin so.
    pub fn relative<'a>(&self, key: &'a [u8]) -> Option<&'a [u8]>
        ensures { option_map (λ r. r.now) result ≡ relative_in self.now.key key.now }
    {
        if self.is_root() {
            return Some(key);
        }
        behind(self.key().as_bytes(), key)
    }
}
