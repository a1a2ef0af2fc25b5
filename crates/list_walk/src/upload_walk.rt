ghost use Rattle.std.specs.Prelude.{◌≡◌, ◌++◌, [], IfOk, OnOk, None};
ghost use Rattle.list_walk.specs.Walks.{last_ref, uploads_after, walked_uploads, walked_by};

use s3_types::{Bucket, PageLimit, Reply, Request, Text, UploadList, UploadRef};
use std::alloc::{AllocError, Global};
use std::marker::Model;

/// Returns the last of the uploads, if there is one.
fn last_upload(uploads: &[UploadRef]) -> Result<Option<UploadRef>, AllocError>
    ensures { IfOk result (λ last. last ≡ last_ref None uploads.now) }
{
    match uploads.last() {
        Some(upload) => Ok(Some(upload.clone()?)),
        None => Ok(None),
    }
}

/// Adds the uploads of a page.
fn add_uploads(found: &mut UploadList, entries: &[UploadRef]) -> Result<(), AllocError>
    ensures { OnOk result (found.new ≡ found.old ++ entries.now) }
{
    for upload in entries {
        found.push(upload.clone()?)?;
    }
    Ok(())
}

/// A walk over the live uploads below a prefix, page by page. Contracts see it as the uploads
/// found so far.
#[derive(Drop)]
pub struct UploadWalk {
    found: UploadList,
}

impl Model for UploadWalk {
    ghost use Rattle.std.specs.Prelude.{List};
    ghost use Rattle.s3_types.specs.declared.request.UploadRef.{UploadRef};

    ghost Value = { List UploadRef };

    ghost view = { λ w. w.found };
}

impl UploadWalk {
    /// A walk before its first page. Takes no memory.
    pub fn new(alloc: Global) -> UploadWalk
        ensures { result ≡ [] }
    {
        UploadWalk {
            found: UploadList::new(alloc),
        }
    }

    /// Returns the uploads found so far. Takes no memory.
    pub fn found(&self) -> &UploadList
        ensures { result.now ≡ self.now }
    {
        &self.found
    }

    /// Gives up the uploads found so far. Takes no memory.
    pub fn into_found(self) -> UploadList
        ensures { result ≡ self }
    {
        self.found
    }

    /// Returns the request for the next page, of at most 1,000 uploads.
    pub fn request(&self, bucket: &Bucket, prefix: &Text) -> Result<Request, AllocError>
        ensures { IfOk result (λ request. request ≡ uploads_after bucket.now prefix.now self.now) }
    {
        let after = last_upload(self.found.as_slice())?;
        Request::list_uploads(bucket, prefix, &after, PageLimit::new(PageLimit::MOST))
    }

    /// Takes a reply, and returns whether more pages remain. If memory runs out, the walk has some
    /// of the uploads of the page.
    pub fn hear(&mut self, reply: &Reply) -> Result<bool, AllocError>
        ensures { IfOk result (λ more. walked_uploads self.old reply.now ≡ walked_by more self.new) }
    {
        match reply {
            Reply::Uploads { entries, more } => {
                add_uploads(&mut self.found, entries.as_slice())?;
                Ok(*more)
            }
            _ => Ok(true),
        }
    }
}
