//! The live multipart uploads of a bucket: their parts, the object that a completion makes of
//! them, and listings. (Amazon S3 API: CreateMultipartUpload, UploadPart, CompleteMultipartUpload,
//! AbortMultipartUpload, ListParts, ListMultipartUploads.)
//!
//! # What is proved
//!
//! `Uploads`: each call does exactly what its definition says on the finite map from ids to live
//! uploads, whether it succeeds or fails. A completion makes its checks in the defined order. The
//! listings of uploads and of an upload's parts are those of the definitions.
#![tactic(auto)]

mod fault;
mod iter;
mod join;
mod list;
mod part;
mod tables;
mod uploads;

pub use fault::UploadFault;
pub use iter::{PartEntries, UploadEntries, UploadView};
pub use join::Joined;
pub use list::UploadPage;
pub use part::Parts;
pub use uploads::{LiveUpload, Uploads};
