ghost use Rattle.std.specs.Prelude.{◌≡◌, ◌<◌, ◌-◌, ◌^◌, IfOk, OnOk, OnErr};
ghost use Rattle.store_image.specs.Image.{image};
ghost use Rattle.journal_log.specs.Images.{Replaced, NotReplaced, Counts};

use devices::kept::{Shelf, ShelfStop};
use s3_service::Service;
use std::alloc::{AllocError, Global};
use store_image::encode;

/// The image of a store.
fn image_of(alloc: Global, store: &Service) -> Result<Vec<u8>, AllocError>
    ensures { IfOk result (λ bytes. bytes.items ≡ image store.now) }
{
    let mut bytes = Vec::new(alloc);
    encode(alloc, store, &mut bytes)?;
    Ok(bytes)
}

/// Replaces what the shelf holds by a store's image. After `Ok` a crash leaves the image. A crash
/// within the call leaves what a crash before it may leave, or the image.
///
/// Fails with `Failed` only if the shelf's count of faults rose, and with `NoMemory` if memory runs
/// out for the image. After an error the shelf holds what it held.
pub fn put_image<F: Shelf>(alloc: Global, shelf: &mut F, store: &Service) -> Result<(), ShelfStop>
    requires { F.faults shelf.old < 2 ^ 64 - 1 }
    ensures ok { OnOk result (Replaced F.sight store.now shelf.old shelf.new) }
    ensures appends { OnOk result (F.takes_appends shelf.new) }
    ensures err { OnErr result (NotReplaced F.sight store.now shelf.old shelf.new) }
    ensures counted { Counts result (F.faults shelf.old) (F.faults shelf.new) }
{
    let Ok(bytes) = image_of(alloc, store) else {
        return Err(ShelfStop::NoMemory);
    };
    match shelf.replace(bytes.as_slice()) {
        Ok(()) => Ok(()),
        Err(_) => Err(ShelfStop::Failed),
    }
}
