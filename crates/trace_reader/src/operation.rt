ghost use Rattle.std.specs.Prelude.{◌≡◌};
ghost use Rattle.std.specs.List.{list_any};
ghost use Rattle.std.specs.Str.{bytes_eq};
ghost use Rattle.trace_reader.specs.Operations.{operation_of, others};

/// The kind of a line of a trace.
#[derive(Clone, Copy, PartialEq, Eq, Debug)]
pub enum Operation {
    Job,
    Attempt,
    File,
    Object,
    Commit,
    PutObject,
    CopyObject,
    DeleteObject,
    DeleteObjects,
    CompleteMultipartUpload,
    /// An operation of which no more members are read, and which changes no object's bytes.
    Other,
}

const OTHERS: [&str; 22] = [
    "Event",
    "End",
    "CreateBucket",
    "GetObject",
    "HeadObject",
    "ListObjectsV2",
    "CreateMultipartUpload",
    "UploadPart",
    "AbortMultipartUpload",
    "ListParts",
    "ListMultipartUploads",
    "ClusterPut",
    "ClusterGet",
    "ClusterDelete",
    "ClusterRename",
    "ClusterList",
    "HeadBucket",
    "DeleteBucket",
    "ListBuckets",
    "ListObjects",
    "UploadPartCopy",
    "Other",
];

fn is_other(name: &str) -> bool
    ensures { result ≡ list_any (bytes_eq name.now) others }
{
    OTHERS.contains(&name)
}

/// Returns the operation with this name, if there is one.
pub fn operation_of(name: &str) -> Option<Operation>
    ensures { result ≡ operation_of name.now }
{
    match name {
        "Job" => Some(Operation::Job),
        "Attempt" => Some(Operation::Attempt),
        "File" => Some(Operation::File),
        "Object" => Some(Operation::Object),
        "Commit" => Some(Operation::Commit),
        "PutObject" => Some(Operation::PutObject),
        "CopyObject" => Some(Operation::CopyObject),
        "DeleteObject" => Some(Operation::DeleteObject),
        "DeleteObjects" => Some(Operation::DeleteObjects),
        "CompleteMultipartUpload" => Some(Operation::CompleteMultipartUpload),
        _ => {
            if is_other(name) {
                Some(Operation::Other)
            } else {
                None
            }
        }
    }
}
