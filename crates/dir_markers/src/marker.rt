ghost use Rattle.std.specs.Prelude.{◌≡◌, ◌++◌, ◌<◌, ◌≤◌, true, length, map, IfOk, OnOk};
ghost use Rattle.s3_types.specs.Names.{are_elements, is_key_path, trimmed};
ghost use Rattle.path_keys.specs.Paths.{is_key};
ghost use Rattle.dir_markers.specs.Markers.{marker_of, keys_above, created, deleted};

use path_keys::S3Path;
use s3_types::{Key, KeyList, Text};
use std::alloc::{AllocError, Global};

/// What happens to the markers above a new file. (Hadoop, S3A: fs.s3a.directory.marker.retention.)
#[derive(Clone, Copy, PartialEq, Eq, Drop)]
pub enum MarkerPolicy {
    Keep,
    Delete,
}

fn marker(alloc: Global, key: &str) -> Result<Key, AllocError>
    requires some { 0 < length key.now }
    requires key { is_key key.now ≡ true }
    ensures { IfOk result (λ k. k ≡ marker_of key.now) }
{
    Ok(Key::new(Text::new(alloc, format!(in alloc; "{key}/")?)?))
}

/// Returns the key of a directory's marker: the path's key and a `/`.
pub fn marker_key(alloc: Global, path: &S3Path) -> Result<Key, AllocError>
    requires { 0 < length path.now.key }
    ensures { IfOk result (λ k. k ≡ marker_of path.now.key) }
{
    marker(alloc, path.key().as_str())
}

/// Adds the markers of all directories above a key, from the top down, without the root.
fn add_above(alloc: Global, key: &str, markers: &mut KeyList) -> Result<(), AllocError>
    requires { is_key key.now ≡ true }
    ensures { OnOk result (markers.new ≡ markers.old ++ map marker_of (keys_above key.now)) }
{
    let Some((front, _)) = key.rsplit_once('/') else {
        return Ok(());
    };
    add_above(alloc, front, markers)?;
    markers.push(marker(alloc, front)?)
}

/// Returns the key without the `/` at its end, if it has one.
fn path_in(key: &Key) -> &str
    ensures path { result.now ≡ trimmed key.now }
    ensures key { is_key_path key.now ≡ true }
{
    let text = key.as_text().as_str();
    match text.strip_suffix('/') {
        Some(path) => path,
        None => text,
    }
}

/// Returns the markers of all directories above the file or directory with this key or marker,
/// from the top down, without the root.
pub fn markers_above(alloc: Global, key: &Key) -> Result<KeyList, AllocError>
    ensures { IfOk result (λ markers. markers ≡ map marker_of (keys_above (trimmed key.now))) }
{
    let mut markers = KeyList::new(alloc);
    let Some((front, _)) = path_in(key).rsplit_once('/') else {
        return Ok(markers);
    };
    add_above(alloc, front, &mut markers)?;
    let parent = marker(alloc, front)?;
    markers.push(parent)?;
    Ok(markers)
}

/// Returns the markers to delete after a file was made: none if markers are kept, else those of
/// all directories above it, from the top down, without the root.
pub fn after_create(
    alloc: Global,
    policy: MarkerPolicy,
    path: &S3Path,
) -> Result<KeyList, AllocError>
    ensures { IfOk result (λ markers. markers ≡ created policy path.now) }
{
    let mut markers = KeyList::new(alloc);
    match policy {
        MarkerPolicy::Keep => Ok(markers),
        MarkerPolicy::Delete => {
            add_above(alloc, path.key().as_str(), &mut markers)?;
            Ok(markers)
        }
    }
}

/// Returns the marker to put after something was deleted from a directory: the directory's own,
/// unless it is the root or something is left below it.
pub fn after_delete(alloc: Global, parent: &S3Path, below: bool) -> Result<Option<Key>, AllocError>
    ensures { IfOk result (λ marker. marker ≡ deleted parent.now below) }
{
    if below || parent.is_root() {
        return Ok(None);
    }
    Ok(Some(marker_key(alloc, parent)?))
}
