ghost use Rattle.std.specs.Prelude.{◌≡◌, ◌++◌, map, IfOk, OnOk};
ghost use Rattle.std.specs.List.{filter};
ghost use Rattle.fs_tree.specs.Tree.{is_marker};
ghost use Rattle.marker_tool.specs.Markers.{goes_on, kind_of, marker_at, markers_in, is_surplus, surplus_in, is_due, missing_at, missing_from, missing_in};

use dir_markers::markers_above;
use fs_tree::{MarkerEntry, MarkerKind, MarkerList};
use list_walk::text_of;
use s3_types::{Key, KeyList, PageEntry, Text};
use std::alloc::{AllocError, Global};

fn is_marker(key: &str) -> bool
    ensures { result ≡ is_marker key.now }
{
    match key.strip_suffix('/') {
        Some(_) => true,
        None => false,
    }
}

fn goes_on(key: &Text, behind: &[PageEntry]) -> bool
    ensures { result ≡ goes_on key.now behind.now }
{
    match behind.first() {
        Some(next) => text_of(next).starts_with(key),
        None => false,
    }
}

fn kind_of(length: u64, more: bool) -> MarkerKind
    ensures { result ≡ kind_of length more }
{
    if length != 0 {
        MarkerKind::Odd
    } else if more {
        MarkerKind::Surplus
    } else {
        MarkerKind::Leaf
    }
}

/// Adds an entry's marker, if it is one. The entries after it show whether other keys begin with
/// it.
fn add_marker(
    markers: &mut MarkerList,
    entry: &PageEntry,
    behind: &[PageEntry],
) -> Result<(), AllocError>
    ensures { OnOk result (markers.new ≡ markers.old ++ marker_at entry.now behind.now) }
{
    match entry {
        PageEntry::Prefix(_) => Ok(()),
        PageEntry::Object { key, length } => {
            if !is_marker(key.as_text().as_str()) {
                return Ok(());
            }
            let kind = kind_of(*length, goes_on(key.as_text(), behind));
            markers.push(MarkerEntry {
                key: key.clone()?,
                kind,
            })
        }
    }
}

/// The markers of a listing, each with its kind, in the order of their keys.
pub(crate) fn markers_in(alloc: Global, entries: &[PageEntry]) -> Result<MarkerList, AllocError>
    ensures { IfOk result (λ markers. markers ≡ markers_in entries.now) }
{
    let mut markers = MarkerList::new(alloc);
    let mut left = entries;
    while let Some((entry, behind)) = left.split_first() {
        add_marker(&mut markers, entry, behind)?;
        left = behind;
    }
    Ok(markers)
}

fn is_surplus(kind: MarkerKind) -> bool
    ensures { result ≡ is_surplus kind }
{
    match kind {
        MarkerKind::Surplus => true,
        _ => false,
    }
}

/// The keys of the surplus ones among these markers.
fn surplus_of(alloc: Global, markers: &[MarkerEntry]) -> Result<KeyList, AllocError>
    ensures { IfOk result (λ keys. keys ≡ map (λ x. x.key) (filter (λ x. is_surplus x.kind) markers.now)) }
{
    let mut keys = KeyList::new(alloc);
    for marker in markers {
        if is_surplus(marker.kind) {
            keys.push(marker.key.clone()?)?;
        }
    }
    Ok(keys)
}

/// The surplus markers of a listing.
pub(crate) fn surplus_in(alloc: Global, entries: &[PageEntry]) -> Result<KeyList, AllocError>
    ensures { IfOk result (λ keys. keys ≡ surplus_in entries.now) }
{
    let markers = markers_in(alloc, entries)?;
    surplus_of(alloc, markers.as_slice())
}

fn is_due(prefix: &Text, before: &Text, marker: &Text) -> bool
    ensures { result ≡ is_due prefix.now before.now marker.now }
{
    marker.starts_with(prefix) && !before.starts_with(marker)
}

/// Adds those of these markers that are below the prefix, unless the key before begins with them.
fn add_due(
    missing: &mut KeyList,
    prefix: &Text,
    before: &Text,
    markers: &[Key],
) -> Result<(), AllocError>
    ensures { OnOk result (missing.new ≡ missing.old ++ filter (is_due prefix.now before.now) markers.now) }
{
    for marker in markers {
        if is_due(prefix, before, marker.as_text()) {
            missing.push(marker.clone()?)?;
        }
    }
    Ok(())
}

/// Adds the markers above an entry, unless they are above the key before it too.
fn add_missing(
    alloc: Global,
    missing: &mut KeyList,
    prefix: &Text,
    before: &Text,
    entry: &PageEntry,
) -> Result<(), AllocError>
    ensures { OnOk result (missing.new ≡ missing.old ++ missing_at prefix.now before.now entry.now) }
{
    match entry {
        PageEntry::Prefix(_) => Ok(()),
        PageEntry::Object { key, .. } => {
            let markers = markers_above(alloc, key)?;
            add_due(missing, prefix, before, markers.as_slice())
        }
    }
}

/// The markers that are missing after a key.
fn missing_from<'t>(
    alloc: Global,
    prefix: &Text,
    before: &'t Text,
    entries: &'t [PageEntry],
) -> Result<KeyList, AllocError>
    ensures { IfOk result (λ keys. keys ≡ missing_from prefix.now before.now entries.now) }
{
    let mut missing = KeyList::new(alloc);
    let mut before = before;
    let mut left = entries;
    while let Some((entry, behind)) = left.split_first() {
        add_missing(alloc, &mut missing, prefix, before, entry)?;
        before = text_of(entry);
        left = behind;
    }
    Ok(missing)
}

/// The missing markers of a listing below a prefix, in their order.
pub(crate) fn missing_in(
    alloc: Global,
    prefix: &Text,
    entries: &[PageEntry],
) -> Result<KeyList, AllocError>
    ensures { IfOk result (λ keys. keys ≡ missing_in prefix.now entries.now) }
{
    let before = Text::empty(alloc)?;
    missing_from(alloc, prefix, &before, entries)
}
