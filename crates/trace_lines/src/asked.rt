//! Writes the members of a line that describe a request.
ghost use Rattle.std.specs.Prelude.{◌≡◌, ◌++◌, IfSome, OnOk};
ghost use Rattle.s3_types.specs.Spelling.{tag_text};
ghost use Rattle.s3_types.specs.Tags.{plain_tag};
ghost use Rattle.trace_lines.specs.Lines.{put_all};
ghost use Rattle.trace_lines.specs.Members.{members_of};
ghost use Rattle.trace_lines.specs.Requests.{asked, behind, delimiter, magic_length, payload, place, upload_place};
ghost use Rattle.trace_lines.specs.inner.Requests.{sent_bytes};

use crate::line::Line;
use s3_types::{
    Bucket, Bytes, Key, KeyList, LengthHeader, PageLimit, PartList, Request, Text, UploadRef,
};
use std::alloc::AllocError;

fn put_place<'a>(line: &mut Line<'a>, bucket: &'a Bucket, key: &'a Key) -> Result<(), AllocError>
    ensures { OnOk result (members_of line.new ≡ put_all (place bucket.now key.now) (members_of line.old)) }
{
    line.text("bucket", bucket.as_text().as_str())?;
    line.text("key", key.as_text().as_str())
}

fn put_upload<'a>(
    line: &mut Line<'a>,
    bucket: &'a Bucket,
    key: &'a Key,
    upload: u64,
) -> Result<(), AllocError>
    ensures { OnOk result
        (members_of line.new ≡ put_all (upload_place bucket.now key.now upload) (members_of line.old)) }
{
    put_place(line, bucket, key)?;
    line.whole("upload", upload)
}

/// Puts the ETag and the length of the bytes that a request sends.
fn put_payload<'a>(line: &mut Line<'a>, bytes: &Bytes, etag: &'a str) -> Result<(), AllocError>
    requires { etag.now ≡ tag_text (plain_tag bytes.now) }
    ensures { OnOk result (members_of line.new ≡ put_all (payload bytes.now) (members_of line.old)) }
{
    line.text("etag", etag)?;
    line.whole("length", bytes.as_slice().len() as u64)
}

fn put_header<'a>(line: &mut Line<'a>, header: Option<LengthHeader>) -> Result<(), AllocError>
    ensures { OnOk result (members_of line.new ≡ put_all (magic_length header) (members_of line.old)) }
{
    match header {
        Some(length) => line.whole("magic_length", length.get()),
        None => Ok(()),
    }
}

fn put_delimiter<'a>(line: &mut Line<'a>, delimited: bool) -> Result<(), AllocError>
    ensures { OnOk result (members_of line.new ≡ put_all (delimiter delimited) (members_of line.old)) }
{
    if delimited {
        line.text("delimiter", "/")
    } else {
        Ok(())
    }
}

fn put_behind<'a>(line: &mut Line<'a>, after: &'a Option<UploadRef>) -> Result<(), AllocError>
    ensures { OnOk result (members_of line.new ≡ put_all (behind after.now) (members_of line.old)) }
{
    match after {
        Some(last) => {
            line.text("after", last.key.as_text().as_str())?;
            line.whole("after_upload", last.upload)
        }
        None => Ok(()),
    }
}

fn put_object<'a>(
    line: &mut Line<'a>,
    bucket: &'a Bucket,
    key: &'a Key,
    bytes: &Bytes,
    header: Option<LengthHeader>,
    etag: &'a str,
) -> Result<(), AllocError>
    requires { etag.now ≡ tag_text (plain_tag bytes.now) }
    ensures { OnOk result (members_of line.new
        ≡ put_all (place bucket.now key.now ++ payload bytes.now ++ magic_length header) (members_of line.old)) }
{
    put_place(line, bucket, key)?;
    put_payload(line, bytes, etag)?;
    put_header(line, header)
}

fn copy_object<'a>(
    line: &mut Line<'a>,
    bucket: &'a Bucket,
    source: &'a Key,
    target: &'a Key,
) -> Result<(), AllocError>
    ensures { OnOk result (members_of line.new
        ≡ put_all (asked (Request.CopyObject bucket.now source.now target.now)) (members_of line.old)) }
{
    put_place(line, bucket, target)?;
    line.text("source", source.as_text().as_str())
}

fn delete_objects<'a>(
    line: &mut Line<'a>,
    bucket: &'a Bucket,
    keys: &'a KeyList,
) -> Result<(), AllocError>
    ensures { OnOk result (members_of line.new
        ≡ put_all (asked (Request.DeleteObjects bucket.now keys.now)) (members_of line.old)) }
{
    line.text("bucket", bucket.as_text().as_str())?;
    line.texts("keys", keys.as_slice())
}

fn list_page<'a>(
    line: &mut Line<'a>,
    bucket: &'a Bucket,
    prefix: &'a Text,
    delimited: bool,
    after: &'a Text,
    limit: PageLimit,
) -> Result<(), AllocError>
    ensures { OnOk result (members_of line.new
        ≡ put_all (asked (Request.ListPage bucket.now prefix.now delimited after.now limit)) (members_of line.old)) }
{
    line.text("bucket", bucket.as_text().as_str())?;
    line.text("prefix", prefix.as_str())?;
    line.text("after", after.as_str())?;
    line.whole("max", u64::from(limit.get()))?;
    put_delimiter(line, delimited)
}

fn upload_part<'a>(
    line: &mut Line<'a>,
    bucket: &'a Bucket,
    key: &'a Key,
    upload: u64,
    number: u32,
    bytes: &Bytes,
    etag: &'a str,
) -> Result<(), AllocError>
    requires { etag.now ≡ tag_text (plain_tag bytes.now) }
    ensures { OnOk result (members_of line.new
        ≡ put_all (asked (Request.UploadPart bucket.now key.now upload number bytes.now)) (members_of line.old)) }
{
    put_upload(line, bucket, key, upload)?;
    line.whole("part", u64::from(number))?;
    put_payload(line, bytes, etag)
}

fn complete_upload<'a>(
    line: &mut Line<'a>,
    bucket: &'a Bucket,
    key: &'a Key,
    upload: u64,
    parts: &'a PartList,
) -> Result<(), AllocError>
    ensures { OnOk result (members_of line.new
        ≡ put_all (asked (Request.CompleteUpload bucket.now key.now upload parts.now)) (members_of line.old)) }
{
    put_upload(line, bucket, key, upload)?;
    line.parts("parts", parts.as_slice())
}

fn list_uploads<'a>(
    line: &mut Line<'a>,
    bucket: &'a Bucket,
    prefix: &'a Text,
    after: &'a Option<UploadRef>,
    limit: PageLimit,
) -> Result<(), AllocError>
    ensures { OnOk result (members_of line.new
        ≡ put_all (asked (Request.ListUploads bucket.now prefix.now after.now limit)) (members_of line.old)) }
{
    line.text("bucket", bucket.as_text().as_str())?;
    line.text("prefix", prefix.as_str())?;
    line.whole("max", u64::from(limit.get()))?;
    put_behind(line, after)
}

fn cluster_put<'a>(line: &mut Line<'a>, path: &'a Text, bytes: &Bytes) -> Result<(), AllocError>
    ensures { OnOk result (members_of line.new
        ≡ put_all (asked (Request.ClusterPut path.now bytes.now)) (members_of line.old)) }
{
    line.text("path", path.as_str())?;
    line.whole("length", bytes.as_slice().len() as u64)
}

fn cluster_rename<'a>(
    line: &mut Line<'a>,
    source: &'a Text,
    target: &'a Text,
) -> Result<(), AllocError>
    ensures { OnOk result (members_of line.new
        ≡ put_all (asked (Request.ClusterRename source.now target.now)) (members_of line.old)) }
{
    line.text("source", source.as_str())?;
    line.text("target", target.as_str())
}

/// Puts the members that describe a request. `etag` is the ETag of the bytes if the request sends
/// an object or a part.
pub(crate) fn put_asked<'a>(
    line: &mut Line<'a>,
    request: &'a Request,
    etag: &'a str,
) -> Result<(), AllocError>
    requires { IfSome (sent_bytes request.now) (λ bytes. etag.now ≡ tag_text (plain_tag bytes)) }
    ensures { OnOk result (members_of line.new ≡ put_all (asked request.now) (members_of line.old)) }
{
    match request {
        Request::MakeBucket { name } => line.text("bucket", name.as_str()),
        Request::PutObject {
            bucket,
            key,
            bytes,
            header,
        } => put_object(line, bucket, key, bytes, *header, etag),
        Request::GetObject { bucket, key } => put_place(line, bucket, key),
        Request::HeadObject { bucket, key } => put_place(line, bucket, key),
        Request::DeleteObject { bucket, key } => put_place(line, bucket, key),
        Request::DeleteObjects { bucket, keys } => delete_objects(line, bucket, keys),
        Request::CopyObject {
            bucket,
            source,
            target,
        } => copy_object(line, bucket, source, target),
        Request::ListPage {
            bucket,
            prefix,
            delimited,
            after,
            limit,
        } => list_page(line, bucket, prefix, *delimited, after, *limit),
        Request::CreateUpload { bucket, key } => put_place(line, bucket, key),
        Request::UploadPart {
            bucket,
            key,
            upload,
            number,
            bytes,
        } => upload_part(line, bucket, key, *upload, *number, bytes, etag),
        Request::CompleteUpload {
            bucket,
            key,
            upload,
            parts,
        } => complete_upload(line, bucket, key, *upload, parts),
        Request::AbortUpload {
            bucket,
            key,
            upload,
        } => put_upload(line, bucket, key, *upload),
        Request::ListParts {
            bucket,
            key,
            upload,
        } => put_upload(line, bucket, key, *upload),
        Request::ListUploads {
            bucket,
            prefix,
            after,
            limit,
        } => list_uploads(line, bucket, prefix, after, *limit),
        Request::ClusterPut { path, bytes } => cluster_put(line, path, bytes),
        Request::ClusterRename { source, target } => cluster_rename(line, source, target),
        Request::ClusterGet { path } => line.text("path", path.as_str()),
        Request::ClusterDelete { path } => line.text("path", path.as_str()),
        Request::ClusterList { prefix } => line.text("prefix", prefix.as_str()),
    }
}
