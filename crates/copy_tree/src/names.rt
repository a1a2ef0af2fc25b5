ghost use Rattle.std.specs.Prelude.{◌≡◌, ◌++◌, IfOk, OnOk};
ghost use Rattle.std.specs.Option.{option_copied};
ghost use Rattle.dir_markers.specs.Markers.{keys_above};
ghost use Rattle.fs_ops.specs.Places.{key_if};
ghost use Rattle.fs_rename.specs.Keys.{place_of};
ghost use Rattle.copy_tree.specs.code.Copy.{one_of};

use fs_ops::{Place, keys_above};
use fs_rename::Base;
use path_keys::S3Path;
use s3_types::{Key, KeyList, both, let_go};
use std::alloc::{AllocError, Global};
use std::marker::Model;

/// The paths of a copy.
///
/// - `source`, `target`: the source and the target.
/// - `above`: the keys of the paths above the target, and its own.
/// - `to`: the target as a new place.
/// - `overlap`: true if one path is the other or below it.
#[derive(Drop)]
pub(crate) struct CopyNames {
    pub(crate) alloc: Global,
    pub(crate) source: Place,
    pub(crate) target: Place,
    pub(crate) above: KeyList,
    to: Option<Base>,
    pub(crate) overlap: bool,
}

impl Model for CopyNames {
    ghost use Rattle.std.specs.Prelude.{◌≡◌};
    ghost use Rattle.fs_rename.specs.Keys.{place_of};
    ghost use Rattle.copy_tree.specs.code.Copy.{CopyPaths, climb};
    ghost use Rattle.copy_tree.specs.inner.Copy.{overlaps};

    ghost Value = { CopyPaths };

    ghost view = { λ o. record { source = o.source; target = o.target } };

    ghost invariant = { λ o.
        (o.above ≡ climb o.target) × (o.to ≡ place_of o.source o.target)
        × (o.overlap ≡ overlaps (record { source = o.source; target = o.target })) };
}

/// Adds a key, if there is one.
fn add_key(keys: &mut KeyList, key: Option<&Key>) -> Result<(), AllocError>
    ensures { OnOk result (keys.new ≡ keys.old ++ one_of (option_copied key.entry)) }
{
    match key {
        Some(key) => keys.push(key.clone()?),
        None => Ok(()),
    }
}

/// The keys of the paths above a target, and its own.
fn climb_to(alloc: Global, target: &S3Path, place: &Place) -> Result<KeyList, AllocError>
    ensures { IfOk result (λ keys. keys ≡ keys_above target.now.key ++ one_of (key_if place.now)) }
{
    let mut keys = keys_above(alloc, target.key().as_str())?;
    let Ok(()) = add_key(&mut keys, place.key()) else {
        let_go(keys);
        return Err(AllocError);
    };
    Ok(keys)
}

impl CopyNames {
    pub(crate) fn of(
        alloc: Global,
        source: &S3Path,
        target: &S3Path,
    ) -> Result<CopyNames, AllocError>
        ensures { IfOk result (λ names. names ≡ record { source = source.now.key; target = target.now.key }) }
    {
        let places = both(Place::of(alloc, source), Place::of(alloc, target))?;
        let Ok((above, to)) = both(
            climb_to(alloc, target, &places.1),
            Base::of_target(alloc, source, target),
        ) else {
            let_go(places);
            return Err(AllocError);
        };
        let (from, place) = places;
        let overlap = place.prefix().starts_with(from.prefix())
            || from.prefix().starts_with(place.prefix());
        Ok(CopyNames {
            alloc,
            source: from,
            target: place,
            above,
            to,
            overlap,
        })
    }

    /// The target as a new place. Takes no memory.
    pub(crate) fn place(&self) -> Option<&Base>
        ensures { option_copied result ≡ place_of self.now.source self.now.target }
    {
        self.to.as_ref()
    }
}
