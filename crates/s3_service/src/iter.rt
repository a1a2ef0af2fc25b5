ghost use Rattle.std.specs.Prelude.{◌≡◌, ℕ, List, slice_get};
ghost use Rattle.std.specs.Option.{option_copied, option_map};
ghost use Rattle.std.specs.FinMap as fin;
ghost use Rattle.std.specs.Iterator.{YieldsFirstBy, item_count};
ghost use Rattle.std.specs.Range.Bound.{bound_map};
ghost use Rattle.std.specs.BTreeMap.Range.{entries_between};
ghost use Rattle.std.specs.declared.ops.Bound.TheVariants.{Unbounded};
ghost use Rattle.text_and_lists.specs.Order.{text_cmp};
ghost use Rattle.s3_types.specs.Store.{BucketContent};
ghost use Rattle.s3_service.specs.inner.Next.{next_of, IsNext};

use crate::bucket::BucketStore;
use crate::buckets::Buckets;
use crate::service::Service;
use multipart::Uploads;
use object_store::Objects;
use s3_types::Bucket;
use std::collections::btree_map::Iter;
use std::marker::Model;
use std::ops::Bound;

/// A borrowed bucket: its name, its objects and its live uploads.
#[derive(Drop)]
pub struct BucketView<'a> {
    pub name: &'a Bucket,
    pub objects: &'a Objects,
    pub uploads: &'a Uploads,
}

/// Buckets in the order of their names. Contracts see it as the list of those that are still to
/// come.
#[derive(Drop)]
pub struct BucketEntries<'a> {
    rest: Iter<'a, Bucket, BucketStore>,
}

impl<'a> Model for BucketEntries<'a> {
    ghost use Rattle.std.specs.Prelude.{ℕ, List};
    ghost use Rattle.std.specs.Coded.{coded×, coded_list};
    ghost use Rattle.s3_types.specs.Store.{BucketContent};
    ghost use Rattle.s3_types.specs.Coded.{coded_text, coded_bucket};

    ghost Value = { List (List ℕ × BucketContent) };

    ghost coded = { coded_list (coded× coded_text coded_bucket) };

    ghost view = { λ e. e.rest };
}

impl<'a> Iterator for BucketEntries<'a> {
    type Item = BucketView<'a>;

    ghost next_gives = { YieldsFirstBy (λ b. (b.name.now, record { objects = b.objects.now; uploads = b.uploads.now }))
        (λ rest. rest) };

    ghost remaining = { item_count (λ rest. rest) };

    fn next(&mut self) -> Option<BucketView<'a>> {
        let (name, bucket) = self.rest.next()?;
        Some(BucketView {
            name,
            objects: bucket.objects(),
            uploads: bucket.uploads(),
        })
    }
}

impl Buckets {
    fn iter(&self) -> BucketEntries<'_>
        ensures { result ≡ fin.entries self.now }
    {
        BucketEntries {
            rest: self.held.iter(),
        }
    }

    /// Returns the first bucket from a bound on.
    fn first_from(&self, start: Bound<&Bucket>) -> Option<BucketView<'_>>
        ensures { option_map {U = List ℕ × BucketContent} (λ b. (
          b.name.now,
          record {
            objects = b.objects.now;
            uploads = b.uploads.now;
          },
        )) result ≡ slice_get (entries_between text_cmp
            (bound_map (λ x. x.now) start.entry) Unbounded (fin.entries self.now)) 0 }
    {
        match self.held.range((start, Bound::Unbounded)).next() {
            Some((name, bucket)) => Some(BucketView {
                name,
                objects: bucket.objects(),
                uploads: bucket.uploads(),
            }),
            None => None,
        }
    }
}

impl Service {
    /// Returns all buckets in the order of their names.
    pub fn iter(&self) -> BucketEntries<'_>
        ensures { result ≡ fin.entries self.now.buckets }
    {
        self.buckets.iter()
    }

    /// Returns the bucket with the least name that is greater than `after`, or the first bucket if
    /// `after` is None, in O(log n) for n buckets.
    pub fn next_bucket(&self, after: Option<&Bucket>) -> Option<BucketView<'_>>
        ensures next { option_map {U = List ℕ × BucketContent} (λ b. (
          b.name.now,
          record {
            objects = b.objects.now;
            uploads = b.uploads.now;
          },
        )) result ≡ next_of (option_copied after.entry) self.now.buckets }
        ensures rest { IsNext (option_copied after.entry) self.now.buckets
            (option_map {U = List ℕ × BucketContent} (λ b. (
              b.name.now,
              record {
                objects = b.objects.now;
                uploads = b.uploads.now;
              },
            )) result) }
    {
        match after {
            Some(name) => self.buckets.first_from(Bound::Excluded(name)),
            None => self.buckets.first_from(Bound::Unbounded),
        }
    }
}
