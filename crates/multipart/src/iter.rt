ghost use Rattle.std.specs.Prelude.{◌≡◌, true};
ghost use Rattle.std.specs.FinMap as fin;
ghost use Rattle.std.specs.Iterator.{YieldsFirstBy, item_count};
ghost use Rattle.std.specs.List.{AllByRecursion};
ghost use Rattle.s3_types.specs.Multipart.{is_part_number};

use crate::part::{Part, Parts};
use crate::tables::{Live, Lives};
use crate::uploads::Uploads;
use s3_types::{Bytes, Key};
use std::collections::btree_map::Iter;
use std::marker::Model;

/// A borrowed live upload: its id, its key and its parts.
#[derive(Clone, Copy)]
pub struct UploadView<'a> {
    pub upload: u64,
    pub key: &'a Key,
    pub parts: &'a Parts,
}

/// Live uploads in the order of their ids. Contracts see it as the list of those that are still to
/// come.
#[derive(Drop)]
pub struct UploadEntries<'a> {
    rest: Iter<'a, u64, Live>,
}

impl<'a> Model for UploadEntries<'a> {
    ghost use Rattle.std.specs.Prelude.{ℕ, List};
    ghost use Rattle.std.specs.Coded.{coded×, coded_ℕ, coded_list};
    ghost use Rattle.s3_types.specs.Store.{Upload};
    ghost use Rattle.s3_types.specs.Coded.{coded_upload};

    ghost Value = { List (ℕ × Upload) };

    ghost coded = { coded_list (coded× coded_ℕ coded_upload) };

    ghost view = { λ e. e.rest };
}

impl<'a> Iterator for UploadEntries<'a> {
    type Item = UploadView<'a>;

    ghost next_gives = { YieldsFirstBy (λ u. (u.upload, record { key = u.key.now; parts = u.parts.now }))
        (λ rest. rest) };

    ghost remaining = { item_count (λ rest. rest) };

    fn next(&mut self) -> Option<UploadView<'a>> {
        let (upload, live) = self.rest.next()?;
        Some(UploadView {
            upload: *upload,
            key: live.key(),
            parts: live.parts(),
        })
    }
}

/// Parts in the order of their numbers. Contracts see it as the list of those that are still to
/// come.
#[derive(Drop)]
pub struct PartEntries<'a> {
    rest: &'a [(u32, Part)],
}

impl<'a> Model for PartEntries<'a> {
    ghost use Rattle.std.specs.Prelude.{ℕ, List};

    ghost Value = { List (ℕ × List ℕ) };

    ghost view = { λ e. e.rest.now };
}

impl<'a> Iterator for PartEntries<'a> {
    type Item = (u32, &'a Bytes);

    ghost next_gives = { YieldsFirstBy (λ p. (p.0, p.1.now)) (λ rest. rest) };

    ghost remaining = { item_count (λ rest. rest) };

    fn next(&mut self) -> Option<(u32, &'a Bytes)> {
        let [entry, rest @ ..] = self.rest else {
            return None;
        };
        self.rest = rest;
        Some((entry.0, entry.1.bytes()))
    }
}

impl Parts {
    /// Returns all parts in the order of their numbers, which are 1 to 10,000.
    pub fn iter(&self) -> PartEntries<'_>
        ensures entries { result ≡ fin.entries self.now }
        ensures numbers { AllByRecursion (λ e. is_part_number e.0 ≡ true) result }
    {
        PartEntries {
            rest: self.held.as_slice(),
        }
    }
}

impl Lives {
    fn iter(&self) -> UploadEntries<'_>
        ensures { result ≡ fin.entries self.now }
    {
        UploadEntries {
            rest: self.held.iter(),
        }
    }
}

impl Uploads {
    /// Returns all live uploads in the order of their ids.
    pub fn iter(&self) -> UploadEntries<'_>
        ensures { result ≡ fin.entries self.now }
    {
        self.lives.iter()
    }
}
