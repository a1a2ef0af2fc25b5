ghost use Rattle.std.specs.Prelude.{◌≡◌, ◌↔◌, ◌&&◌, ℕ, List, IfOk, IfSome, IsErrOf, is_some, Some, refl, true, false, length};
ghost use Rattle.std.specs.List.{list_all};
ghost use Rattle.std.specs.Str.{is_utf8};
ghost use Rattle.text_and_lists.specs.Parts.{parts_of};
ghost use Rattle.text_and_lists.specs.Order.{text_cmp, text_eq, text_partial_cmp, text_per, text_equiv, text_po, text_total, text_ties};
ghost use Rattle.s3_types.specs.Names.{is_key, is_key_path, is_element, are_elements, trimmed, is_bucket, is_name_byte, is_letter_or_digit};
ghost use Rattle.s3_types.specs.declared.names.NameFault.TheVariants.{NoMemory};

use crate::limits::MOST_KEY_BYTES;
use crate::text::Text;
use std::alloc::{AllocError, AllocFailed, Global};
use std::cmp::Ordering;
use std::marker::Model;
use text_and_lists::next_part;
use thiserror::Error;

/// Why a text is not a name.
#[derive(Clone, Copy, Debug, PartialEq, Eq, Error)]
pub enum NameFault {
    /// It breaks the rule of such names.
    #[error("the text breaks the rule of such names")]
    BadName,
    #[error("no memory")]
    NoMemory,
}

impl From<AllocError> for NameFault {
    ghost from_gives = { λ _ e. e ≡ NoMemory };

    fn from(_e: AllocError) -> NameFault {
        NameFault::NoMemory
    }
}

impl<T: Drop> From<AllocFailed<T>> for NameFault {
    ghost from_gives = { λ _ e. e ≡ NoMemory };

    fn from(_e: AllocFailed<T>) -> NameFault {
        NameFault::NoMemory
    }
}

/// Whether a text may be an element of a key: it is neither empty nor `.` nor `..`.
pub fn is_element(element: &[u8]) -> bool
    ensures { result ≡ is_element element.now }
{
    !element.is_empty() && element != b".".as_slice() && element != b"..".as_slice()
}

/// Whether all parts of a text between its `/` may be elements of a key.
pub fn are_elements(path: &[u8]) -> bool
    ensures { result ≡ are_elements path.now }
{
    let mut rest = path;
    loop {
        let (element, more) = next_part(b'/', rest);
        if !is_element(element) {
            return false;
        }
        match more {
            Some(after) => rest = after,
            None => return true,
        }
    }
}

/// Returns the text without one `/` at its end.
pub fn trimmed(path: &[u8]) -> &[u8]
    ensures { result.now ≡ trimmed path.now }
{
    let len = path.len();
    if len > 0 && path[len - 1] == b'/' {
        &path[..len - 1]
    } else {
        path
    }
}

/// Returns the bytes as text, or None if they are not UTF-8. Takes no memory.
pub fn as_utf8(bytes: &[u8]) -> Option<&str>
    ensures same { IfSome result (λ text. text.now ≡ bytes.now) }
    ensures found { is_some result ≡ is_utf8 bytes.now }
{
    match str::from_utf8(bytes) {
        Ok(text) => Some(text),
        Err(_) => None,
    }
}

fn is_key_path(path: &[u8]) -> bool
    ensures { result ≡ is_key_path path.now }
{
    1 <= path.len() && path.len() <= MOST_KEY_BYTES && are_elements(trimmed(path))
}

fn key_text(bytes: &[u8]) -> Option<&str>
    ensures same { IfSome result (λ text. text.now ≡ bytes.now) }
    ensures found { is_some result ≡ is_key bytes.now }
{
    let Some(text) = as_utf8(bytes) else {
        return None;
    };
    if is_key_path(bytes) { Some(text) } else { None }
}

/// An object's key: 1 to 1,024 bytes of UTF-8. It is elements joined by `/`, with at most one `/`
/// at the end; no element is empty, `.` or `..`. Keys are ordered by their bytes. (Amazon S3,
/// object key names; the rule on elements is this store's own.)
#[derive(Drop)]
pub struct Key {
    text: Text,
}

impl Model for Key {
    ghost use Rattle.std.specs.Prelude.{◌≡◌, ℕ, List, true};
    ghost use Rattle.s3_types.specs.Names.{is_key_path};

    ghost Value = { List ℕ };

    ghost view = { λ k. k.text };

    ghost invariant = { λ k. is_key_path k.text ≡ true };
}

impl Key {
    /// A key of this text. Takes no memory.
    pub fn new(text: Text) -> Key
        requires { is_key_path text ≡ true }
        ensures { result ≡ text }
    {
        Key { text }
    }

    /// Reads a key. Fails with BadName exactly if the bytes are not a key.
    pub fn read(alloc: Global, text: &[u8]) -> Result<Key, NameFault>
        ensures read { IfOk result (λ k. k ≡ text.now) }
        ensures bad { IsErrOf result NameFault.BadName ↔ (is_key text.now ≡ false) }
    {
        let Some(valid) = key_text(text) else {
            return Err(NameFault::BadName);
        };
        let text = Text::copied(alloc, valid)?;
        Ok(Key { text })
    }

    /// Returns the key as a text.
    pub fn as_text(&self) -> &Text
        ensures text { result.now ≡ self.now }
        ensures key { is_key_path self.now ≡ true }
    {
        &self.text
    }

    /// Returns the bytes of the key.
    pub fn as_bytes(&self) -> &[u8]
        ensures text { result.now ≡ self.now }
        ensures key { is_key_path self.now ≡ true }
    {
        self.text.as_bytes()
    }
}

impl Clone for Key {
    ghost is_clone = { λ k copy. copy ≡ k };

    fn clone(&self) -> Result<Key, AllocError> {
        Ok(Key {
            text: self.text.clone()?,
        })
    }
}

impl PartialEq for Key {
    ghost eq = { text_eq };

    ghost laws = { text_per };

    fn eq(&self, other: &Key) -> bool {
        self.text == other.text
    }
}

impl Eq for Key {
    ghost laws = { text_equiv };
}

impl PartialOrd for Key {
    ghost partial_cmp = { text_partial_cmp };

    ghost laws = { text_po };

    fn partial_cmp(&self, other: &Key) -> Option<Ordering> {
        Some(self.cmp(other))
    }
}

impl Ord for Key {
    ghost cmp = { text_cmp };

    ghost total = { text_total };

    ghost matches_partial_cmp = { λ x y. refl };

    ghost matches_eq = { text_ties };

    fn cmp(&self, other: &Key) -> Ordering {
        self.text.cmp(&other.text)
    }
}

fn is_letter_or_digit(b: u8) -> bool
    ensures { result ≡ is_letter_or_digit b }
{
    (97 <= b && b <= 122) || (48 <= b && b <= 57)
}

fn is_name_byte(b: u8) -> bool
    ensures { result ≡ is_name_byte b }
{
    is_letter_or_digit(b) || b == b'.' || b == b'-'
}

fn are_name_bytes(text: &[u8]) -> bool
    ensures { result ≡ list_all is_name_byte text.now }
{
    text.iter().all(|b| is_name_byte(*b))
}

fn is_bucket(text: &[u8]) -> bool
    ensures { result ≡ is_bucket text.now }
{
    3 <= text.len()
        && text.len() <= 63
        && are_name_bytes(text)
        && is_letter_or_digit(text[0])
        && is_letter_or_digit(text[text.len() - 1])
}

fn bucket_text(bytes: &[u8]) -> Option<&str>
    ensures same { IfSome result (λ text. text.now ≡ bytes.now) }
    ensures found { is_some result ≡ is_bucket bytes.now }
{
    if !is_bucket(bytes) {
        return None;
    }
    as_utf8(bytes)
}

/// A bucket's name: 3 to 63 lower-case letters, digits, dots and hyphens, with a letter or digit at
/// both ends. (Amazon S3, bucket naming rules; its further rules are left out.)
#[derive(Drop)]
pub struct Bucket {
    text: Text,
}

impl Model for Bucket {
    ghost use Rattle.std.specs.Prelude.{◌≡◌, ℕ, List, true};
    ghost use Rattle.s3_types.specs.Names.{is_bucket};

    ghost Value = { List ℕ };

    ghost view = { λ b. b.text };

    ghost invariant = { λ b. is_bucket b.text ≡ true };
}

impl Bucket {
    /// Reads a bucket's name. Fails with BadName exactly if the bytes are not one.
    pub fn read(alloc: Global, text: &[u8]) -> Result<Bucket, NameFault>
        ensures read { IfOk result (λ b. b ≡ text.now) }
        ensures bad { IsErrOf result NameFault.BadName ↔ (is_bucket text.now ≡ false) }
    {
        let Some(valid) = bucket_text(text) else {
            return Err(NameFault::BadName);
        };
        let text = Text::copied(alloc, valid)?;
        Ok(Bucket { text })
    }

    /// Returns the bucket's name as a text.
    pub fn as_text(&self) -> &Text
        ensures text { result.now ≡ self.now }
        ensures bucket { is_bucket self.now ≡ true }
    {
        &self.text
    }

    /// Returns the bytes of the bucket's name.
    pub fn as_bytes(&self) -> &[u8]
        ensures text { result.now ≡ self.now }
        ensures bucket { is_bucket self.now ≡ true }
    {
        self.text.as_bytes()
    }
}

impl Clone for Bucket {
    ghost is_clone = { λ b copy. copy ≡ b };

    fn clone(&self) -> Result<Bucket, AllocError> {
        Ok(Bucket {
            text: self.text.clone()?,
        })
    }
}

impl PartialEq for Bucket {
    ghost eq = { text_eq };

    ghost laws = { text_per };

    fn eq(&self, other: &Bucket) -> bool {
        self.text == other.text
    }
}

impl Eq for Bucket {
    ghost laws = { text_equiv };
}

impl PartialOrd for Bucket {
    ghost partial_cmp = { text_partial_cmp };

    ghost laws = { text_po };

    fn partial_cmp(&self, other: &Bucket) -> Option<Ordering> {
        Some(self.cmp(other))
    }
}

impl Ord for Bucket {
    ghost cmp = { text_cmp };

    ghost total = { text_total };

    ghost matches_partial_cmp = { λ x y. refl };

    ghost matches_eq = { text_ties };

    fn cmp(&self, other: &Bucket) -> Ordering {
        self.text.cmp(&other.text)
    }
}
