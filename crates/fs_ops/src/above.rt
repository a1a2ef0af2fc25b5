ghost use Rattle.std.specs.Prelude.{◌≡◌, ◌++◌, ◌∷◌, [], true, Some, None, IfOk, OnOk};
ghost use Rattle.path_keys.specs.Paths.{is_key};
ghost use Rattle.dir_markers.specs.Markers.{keys_above};

use s3_types::{Key, KeyList, Text};
use std::alloc::{AllocError, Global};

/// Adds the keys of all directories above a key, from the root down, without the root.
fn add_above(alloc: Global, key: &str, keys: &mut KeyList) -> Result<(), AllocError>
    requires { is_key key.now ≡ true }
    ensures { OnOk result (keys.new ≡ keys.old ++ keys_above key.now) }
{
    let Some((front, _)) = key.rsplit_once('/') else {
        return Ok(());
    };
    add_above(alloc, front, keys)?;
    keys.push(Key::new(Text::copied(alloc, front)?))
}

/// The keys of all directories above a key, from the root down, without the root.
pub fn keys_above(alloc: Global, key: &str) -> Result<KeyList, AllocError>
    requires { is_key key.now ≡ true }
    ensures { IfOk result (λ keys. keys ≡ keys_above key.now) }
{
    let mut keys = KeyList::new(alloc);
    add_above(alloc, key, &mut keys)?;
    Ok(keys)
}
