ghost use Rattle.std.specs.Prelude.{◌≡◌, IfOk, OnOk};
ghost use Rattle.s3_types.specs.Store.{new_content};
ghost use Rattle.store_rows.specs.inner.Lake.{lake, lake_content};

use multipart::Uploads;
use object_store::Objects;
use s3_service::Service;
use s3_types::{Bucket, let_go};
use std::alloc::{AllocError, Global};
use store_link::MemStore;

/// The length in bytes of a block, and the least length of each part but the last.
pub const BLOCK: u64 = 4;

/// Adds an empty bucket to a store that has none.
fn add_bucket(alloc: Global, service: &mut Service, bucket: &Bucket) -> Result<(), AllocError>
    requires { service.old ≡ new_content 4 }
    ensures { OnOk result (service.new ≡ lake_content bucket.now) }
{
    let name = bucket.clone()?;
    service.add_bucket(name, Objects::new(alloc), Uploads::new(alloc))
}

/// A store with one empty bucket, to which no request was sent.
pub fn new_store(alloc: Global, bucket: &Bucket) -> Result<MemStore, AllocError>
    ensures { IfOk result (λ store. store ≡ record { scene = lake bucket.now; requests = 0 }) }
{
    let mut service = Service::new(alloc, BLOCK);
    match add_bucket(alloc, &mut service, bucket) {
        Ok(()) => Ok(MemStore::new(alloc, service)),
        Err(fault) => {
            let_go(service);
            Err(fault)
        }
    }
}
