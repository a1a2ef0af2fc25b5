ghost use Rattle.std.specs.Prelude.{◌≡◌, option_map};
ghost use Rattle.s3_types.specs.Answer.{draws};
ghost use Rattle.s3_service.specs.inner.Named.{named};

use s3_types::{Bucket, Request};

/// Returns the bucket that a request names, and None for CreateBucket and requests to the cluster.
pub fn bucket_named(request: &Request) -> Option<&Bucket>
    ensures { option_map (λ b. b.now) result ≡ named request.now }
{
    match request {
        Request::PutObject { bucket, .. } => Some(bucket),
        Request::GetObject { bucket, .. } => Some(bucket),
        Request::HeadObject { bucket, .. } => Some(bucket),
        Request::DeleteObject { bucket, .. } => Some(bucket),
        Request::DeleteObjects { bucket, .. } => Some(bucket),
        Request::CopyObject { bucket, .. } => Some(bucket),
        Request::ListPage { bucket, .. } => Some(bucket),
        Request::CreateUpload { bucket, .. } => Some(bucket),
        Request::UploadPart { bucket, .. } => Some(bucket),
        Request::CompleteUpload { bucket, .. } => Some(bucket),
        Request::AbortUpload { bucket, .. } => Some(bucket),
        Request::ListParts { bucket, .. } => Some(bucket),
        Request::ListUploads { bucket, .. } => Some(bucket),
        _ => None,
    }
}

/// Whether a request takes an upload's id.
pub fn draws(request: &Request) -> bool
    ensures { result ≡ draws request.now }
{
    match request {
        Request::CreateUpload { .. } => true,
        _ => false,
    }
}
