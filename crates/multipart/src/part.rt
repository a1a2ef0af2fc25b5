ghost use Rattle.std.specs.Option.{option_copied, option_map};
ghost use Rattle.std.specs.Prelude.{◌≡◌, ◌+◌, ◌<◌, ◌≤◌, ℕ, List, IfOk, IfErr, OnOk, OnErr, IsSome, true, false, length};
ghost use Rattle.std.specs.FinMap as fin;
ghost use Rattle.s3_types.specs.Tags.{plain_tag};
ghost use Rattle.s3_types.specs.Multipart.{is_part_number, sizes};
ghost use Rattle.std.specs.Ordering.{nat_cmp};
ghost use Rattle.std.specs.Map.{keys_of};
ghost use Rattle.std.specs.List.Sorted.{IsStrictlySortedBy};
ghost use Rattle.multipart.specs.Next.{next_of};
ghost use Rattle.multipart.specs.inner.Numbers.{IsPlace, is_number_at};
ghost use Rattle.s3_types.specs.declared.limits.TheConstants.{MOST_PARTS};

use s3_types::{Bytes, PartSize, PartSizes, Tag, part_digest, tag_of};
use std::alloc::{AllocError, Global};
use std::marker::Model;

/// The bytes of a part, and their digest, which was computed when they arrived.
#[derive(Drop)]
pub struct Part {
    bytes: Bytes,
    digest: [u8; 16],
}

impl Model for Part {
    ghost use Rattle.std.specs.Prelude.{◌≡◌, ℕ, List};
    ghost use Rattle.md5.specs.Md5.{md5};

    ghost Value = { List ℕ };

    ghost view = { λ p. p.bytes };

    ghost invariant = { λ p. p.digest ≡ md5 p.bytes };
}

impl Part {
    /// A part of these bytes. Computes their digest.
    pub fn new(bytes: Bytes) -> Part
        ensures { result ≡ bytes }
    {
        let digest = part_digest(bytes.as_slice());
        Part { bytes, digest }
    }

    /// Returns the tag of the part's bytes.
    #[tactic(auto, unfolding(s3_types::specs::Tags::plain_tag))]
    pub fn tag(&self) -> Tag
        ensures { result ≡ plain_tag self.now }
    {
        tag_of(&self.digest)
    }

    /// Returns the part's bytes.
    pub fn bytes(&self) -> &Bytes
        ensures { result.now ≡ self.now }
    {
        &self.bytes
    }
}

/// Copies the part. The two share the bytes.
impl Clone for Part {
    ghost is_clone = { λ p copy. copy ≡ p };

    fn clone(&self) -> Result<Part, AllocError> {
        Ok(Part {
            bytes: self.bytes.clone()?,
            digest: self.digest,
        })
    }
}

/// The parts of an upload by their numbers, 1 to 10,000, in a vector with rising numbers. Most
/// uploads have one part, and the smallest node of a tree has room for eleven.
#[derive(Drop)]
pub struct Parts {
    pub(crate) held: Vec<(u32, Part)>,
}

impl Model for Parts {
    ghost use Rattle.std.specs.Ordering.{nat_cmp};
    ghost use Rattle.std.specs.FinMap as fin;
    ghost use Rattle.std.specs.Map.{keys_of};
    ghost use Rattle.std.specs.List.Sorted.{IsStrictlySortedBy};
    ghost use Rattle.s3_types.specs.Store.{Parts as TheParts};
    ghost use Rattle.s3_types.specs.Coded.{coded_parts};
    ghost use Rattle.multipart.specs.inner.Numbers.{AreNumbered};

    ghost Value = { TheParts };

    ghost coded = { coded_parts };

    ghost view = { λ p. fin.from_entries p.held.items };

    ghost invariant = { λ p. IsStrictlySortedBy nat_cmp (keys_of p.held.items)
        × AreNumbered (fin.from_entries p.held.items) };
}

/// Copies the parts. The two share the bytes.
impl Clone for Parts {
    ghost is_clone = { λ p copy. copy ≡ p };

    fn clone(&self) -> Result<Parts, AllocError> {
        Ok(Parts {
            held: self.held.clone()?,
        })
    }
}

/// Returns the place of the part with this number, or the place where it would go, in O(log n) for
/// n parts.
fn search(held: &[(u32, Part)], number: u32) -> Result<usize, usize>
    requires { IsStrictlySortedBy nat_cmp (keys_of held.now) }
    ensures found { IfOk result (λ at. IsPlace number held.now at × (is_number_at held.now at number ≡ true)) }
    ensures within { IfOk result (λ at. at < length held.now) }
    ensures absent { IfErr result (λ at. IsPlace number held.now at × (is_number_at held.now at number ≡ false)) }
    ensures place { IfErr result (λ at. at ≤ length held.now) }
{
    held.binary_search_by_key(&number, |entry| entry.0)
}

/// Returns how many parts have this number or a lower one, in O(log n) for n parts.
fn place_behind(held: &[(u32, Part)], number: u32) -> usize
    requires { IsStrictlySortedBy nat_cmp (keys_of held.now) }
    ensures { IsPlace (number + 1) held.now result }
{
    match search(held, number) {
        Ok(at) => at + 1,
        Err(at) => at,
    }
}

impl Parts {
    /// No parts, with room for one.
    pub(crate) fn new(alloc: Global) -> Result<Parts, AllocError>
        ensures { IfOk result (λ parts. parts ≡ fin.empty) }
    {
        Ok(Parts {
            held: Vec::with_capacity(alloc, 1)?,
        })
    }

    pub(crate) fn insert(&mut self, number: u32, part: Part) -> Result<(), AllocError>
        requires { is_part_number number ≡ true }
        ensures ok { OnOk result (self.new ≡ fin.insert self.old number part) }
        ensures err { OnErr result (self.new ≡ self.old) }
    {
        match search(self.held.as_slice(), number) {
            Ok(at) => {
                self.held[at] = (number, part);
                Ok(())
            }
            Err(at) => Ok(self.held.insert(at, (number, part))?),
        }
    }

    pub(crate) fn get(&self, number: u32) -> Option<&Part>
        ensures found { option_copied result ≡ fin.get self.now number }
        ensures number { IsSome result → is_part_number number ≡ true }
    {
        let held = self.held.as_slice();
        match search(held, number) {
            Ok(at) => Some(&held[at].1),
            Err(_) => None,
        }
    }

    /// Returns the number of parts, at most 10,000.
    pub fn count(&self) -> u32
        ensures count { result ≡ fin.len self.now }
        ensures most { result ≤ MOST_PARTS }
    {
        self.held.as_slice().len() as u32
    }

    /// Returns the parts by rising number, each with its length and its tag.
    pub(crate) fn sizes(&self, alloc: Global) -> Result<PartSizes, AllocError>
        ensures { IfOk result (λ made. made ≡ sizes self.now) }
    {
        let held = self.held.as_slice();
        let mut sizes = Vec::with_capacity(alloc, held.len())?;
        for entry in held {
            sizes.push(PartSize {
                number: entry.0,
                length: entry.1.bytes().as_slice().len() as u64,
                tag: entry.1.tag(),
            })?;
        }
        Ok(PartSizes::from_vec(sizes))
    }

    /// Returns the part with the least number that is greater than `after`.
    pub(crate) fn next(&self, after: u32) -> Option<(u32, &Part)>
        ensures { option_map (λ p. (p.0, p.1.now)) result ≡ next_of after self.now }
    {
        let held = self.held.as_slice();
        let at = place_behind(held, after);
        if at < held.len() {
            let entry = &held[at];
            return Some((entry.0, &entry.1));
        }
        None
    }
}
