ghost use Rattle.std.specs.Prelude.{◌≡◌, true, false, IfOk, Some, string_bytes};
ghost use Rattle.std.specs.Option.{option_copied};
ghost use Rattle.bucket_ops.specs.Asks.{request_of};
ghost use Rattle.path_keys.specs.Paths.{is_key};
ghost use Rattle.fs_tree.specs.Changes.{parent};
ghost use Rattle.fs_tree.specs.Moves.{inside};
ghost use Rattle.fs_rename.specs.code.Rename.{inside_of, place_at, asks_at, inside_asks, look_at_asks};
ghost use Rattle.fs_rename.specs.inner.Rename.{is_root_at};

use crate::Base;
use crate::stages::Spot;
use fs_ops::{Place, first_key, last_element, marker_above};
use path_keys::S3Path;
use s3_types::{Bucket, Key, PageLimit, Request, Text, both};
use std::alloc::{AllocError, Global};
use std::marker::Model;

/// The paths of a rename.
///
/// - `source`, `target`, `above`: the source, the target, and the path above the target.
/// - `to_target`, `to_inside`: the two new places that the source may get.
/// - `under`: true if the target is the source or below it.
/// - `marker`: the marker of the directory above the source, unless that is the root.
#[derive(Drop)]
pub(crate) struct RenameNames {
    pub(crate) alloc: Global,
    pub(crate) source: Place,
    target: Place,
    above: Place,
    to_target: Option<Base>,
    to_inside: Option<Base>,
    pub(crate) under: bool,
    pub(crate) marker: Option<Key>,
}

impl Model for RenameNames {
    ghost use Rattle.std.specs.Prelude.{◌≡◌, true, false};
    ghost use Rattle.s3_types.specs.Pages.{begins};
    ghost use Rattle.fs_tree.specs.Changes.{parent, marker_if};
    ghost use Rattle.fs_ops.specs.Places.{prefix_of};
    ghost use Rattle.fs_rename.specs.Keys.{place_of};
    ghost use Rattle.fs_rename.specs.code.Rename.{Renaming, inside_of};

    ghost Value = { Renaming };

    ghost view = { λ o. record { source = o.source; target = o.target } };

    ghost invariant = { λ o.
        (o.above ≡ parent o.target) × (o.to_target ≡ place_of o.source o.target)
        × (o.to_inside ≡ inside_of o.source o.target)
        × (o.under ≡ begins (prefix_of o.source) (prefix_of o.target)) × (o.marker ≡ marker_if (parent o.source)) };
}

/// The path above a path; the root is above itself.
fn place_above(alloc: Global, path: &S3Path) -> Result<Place, AllocError>
    ensures { IfOk result (λ place. place ≡ parent path.now.key) }
{
    match path.parent(alloc)? {
        Some(parent) => Place::of(alloc, &parent),
        None => Place::of(alloc, path),
    }
}

/// The path inside the target that has the source's last element.
fn inside_text(alloc: Global, source: &S3Path, target: &S3Path) -> Result<String, AllocError>
    ensures text { IfOk result (λ text. string_bytes text ≡ inside source.now.key target.now.key) }
    ensures source { IfOk result (λ text. is_key source.now.key ≡ true) }
    ensures target { IfOk result (λ text. is_key target.now.key ≡ true) }
{
    let name = last_element(alloc, source.key().as_str())?;
    target.text_below(alloc, name.as_str())
}

/// The path inside the target that has the source's last element, as a new place, or None if the
/// source is the root.
#[tactic(auto, using(crate::proofs::Inside::inside_none, crate::proofs::Inside::inside_some))]
fn inside_base(alloc: Global, source: &S3Path, target: &S3Path) -> Result<Option<Base>, AllocError>
    ensures { IfOk result (λ base. base ≡ inside_of source.now.key target.now.key) }
{
    if source.is_root() {
        return Ok(None);
    }
    let text = Text::new(alloc, inside_text(alloc, source, target)?)?;
    Ok(Some(Base::new(alloc, text)?))
}

/// The request that looks for a file at a path, or for anything below it.
fn look(place: &Place, bucket: &Bucket, below: bool) -> Result<Request, AllocError>
    ensures { IfOk result (λ request. request ≡ request_of bucket.now (asks_at place.now below)) }
{
    if below {
        place.below(bucket, PageLimit::new(1))
    } else {
        place.look(bucket)
    }
}

/// The same request for a path that may be over the limit of keys. It lists the first key that
/// begins with the path.
fn look_inside(
    alloc: Global,
    base: &Base,
    bucket: &Bucket,
    below: bool,
) -> Result<Request, AllocError>
    ensures { IfOk result (λ request. request ≡ request_of bucket.now (inside_asks base.now below)) }
{
    let prefix = if below { base.prefix() } else { base.path() };
    first_key(alloc, bucket, prefix)
}

impl RenameNames {
    pub(crate) fn of(
        alloc: Global,
        source: &S3Path,
        target: &S3Path,
    ) -> Result<RenameNames, AllocError>
        ensures { IfOk result (λ names. names ≡ record { source = source.now.key; target = target.now.key }) }
    {
        let places = both(Place::of(alloc, source), Place::of(alloc, target));
        let above = both(place_above(alloc, target), marker_above(alloc, source));
        let bases = both(
            Base::of_target(alloc, source, target),
            inside_base(alloc, source, target),
        );
        let ((from, to), ((above, marker), (to_target, to_inside))) = both(
            places,
            both(above, bases),
        )?;
        let under = to.prefix().starts_with(from.prefix());
        Ok(RenameNames {
            alloc,
            source: from,
            target: to,
            above,
            to_target,
            to_inside,
            under,
            marker,
        })
    }

    /// True if the path that is looked at is the root. Takes no memory.
    pub(crate) fn is_root(&self, spot: Spot) -> bool
        ensures { result ≡ is_root_at self.now spot }
    {
        match spot {
            Spot::Source => self.source.is_root(),
            Spot::Target => self.target.is_root(),
            Spot::Inside => match &self.to_inside {
                Some(_) => false,
                None => true,
            },
            Spot::Above => self.above.is_root(),
        }
    }

    /// The new place, at the target or inside it. Takes no memory.
    pub(crate) fn place(&self, inside: bool) -> Option<&Base>
        ensures { option_copied result ≡ place_at self.now inside }
    {
        if inside {
            self.to_inside.as_ref()
        } else {
            self.to_target.as_ref()
        }
    }

    /// The request that looks at a path.
    pub(crate) fn look(
        &self,
        bucket: &Bucket,
        spot: Spot,
        below: bool,
    ) -> Result<Request, AllocError>
        ensures { IfOk result (λ request. request ≡ request_of bucket.now (look_at_asks self.now spot below)) }
    {
        match spot {
            Spot::Source => look(&self.source, bucket, below),
            Spot::Target => look(&self.target, bucket, below),
            Spot::Above => look(&self.above, bucket, below),
            Spot::Inside => match &self.to_inside {
                Some(base) => look_inside(self.alloc, base, bucket, below),
                None => look(&self.source, bucket, below),
            },
        }
    }
}
