ghost use Rattle.std.specs.Prelude.{◌≡◌};
ghost use Rattle.trace_lines.specs.Words.{error_code, operation_name, outcome_word};

use s3_types::{Outcome, Refusal, Request};

/// Returns the operation of a request, as the Amazon S3 API Reference names it. Requests to the
/// cluster's file system have names that begin with `Cluster`. Takes no memory.
pub fn operation_name(request: &Request) -> &'static str
    ensures { result.now ≡ operation_name request.now }
{
    match request {
        Request::MakeBucket { .. } => "CreateBucket",
        Request::PutObject { .. } => "PutObject",
        Request::GetObject { .. } => "GetObject",
        Request::HeadObject { .. } => "HeadObject",
        Request::DeleteObject { .. } => "DeleteObject",
        Request::DeleteObjects { .. } => "DeleteObjects",
        Request::CopyObject { .. } => "CopyObject",
        Request::ListPage { .. } => "ListObjectsV2",
        Request::CreateUpload { .. } => "CreateMultipartUpload",
        Request::UploadPart { .. } => "UploadPart",
        Request::CompleteUpload { .. } => "CompleteMultipartUpload",
        Request::AbortUpload { .. } => "AbortMultipartUpload",
        Request::ListParts { .. } => "ListParts",
        Request::ListUploads { .. } => "ListMultipartUploads",
        Request::ClusterPut { .. } => "ClusterPut",
        Request::ClusterRename { .. } => "ClusterRename",
        Request::ClusterGet { .. } => "ClusterGet",
        Request::ClusterDelete { .. } => "ClusterDelete",
        Request::ClusterList { .. } => "ClusterList",
    }
}

/// Returns the error code of a refusal, as the Amazon S3 API Reference has it; the cluster's own is
/// `NoSuchFile`. Takes no memory.
pub fn error_code(refusal: Refusal) -> &'static str
    ensures { result.now ≡ error_code refusal }
{
    match refusal {
        Refusal::NoSuchBucket => "NoSuchBucket",
        Refusal::NoSuchKey => "NoSuchKey",
        Refusal::NoSuchUpload => "NoSuchUpload",
        Refusal::MalformedList => "MalformedXML",
        Refusal::InvalidPartOrder => "InvalidPartOrder",
        Refusal::InvalidPart => "InvalidPart",
        Refusal::EntityTooSmall => "EntityTooSmall",
        Refusal::BadPartNumber => "InvalidArgument",
        Refusal::TooManyKeys => "MalformedXML",
        Refusal::BucketExists => "BucketAlreadyExists",
        Refusal::BadName => "InvalidBucketName",
        Refusal::NoSuchFile => "NoSuchFile",
    }
}

/// Returns the word for the outcome of a send. Takes no memory.
///
/// - `answered`: the request was answered.
/// - `slow`: the answer was SlowDown.
/// - `lost-before`: the request was lost on the way to S3.
/// - `lost-after`: the request took effect, but the reply was lost.
pub fn outcome_word(outcome: &Outcome) -> &'static str
    ensures { result.now ≡ outcome_word outcome.now }
{
    match outcome {
        Outcome::Answered(_) => "answered",
        Outcome::Slow => "slow",
        Outcome::RequestLost => "lost-before",
        Outcome::ReplyLost => "lost-after",
    }
}
