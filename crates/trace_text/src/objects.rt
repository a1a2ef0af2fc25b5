ghost use Rattle.std.specs.Prelude.{◌≡◌, ◌++◌, [], string_bytes, IfOk, OnOk};
ghost use Rattle.std.specs.List.{filter, flat_map};
ghost use Rattle.std.specs.FinMap as fin;
ghost use Rattle.s3_types.specs.Pages.{begins};
ghost use Rattle.path_keys.specs.Paths.{below};
ghost use Rattle.serde_json.specs.Data.{no_members};
ghost use Rattle.trace_lines.specs.Members.{members_of};
ghost use Rattle.trace_text.specs.Heads as lines;
ghost use Rattle.trace_text.specs.inner.Texts.{text_of};

use object_store::Objects;
use path_keys::S3Path;
use s3_service::Service;
use s3_types::{Bucket, Key, Object, Tag, Text, let_go, part_tag};
use std::alloc::{AllocError, Global};
use trace_lines::Line;

/// Puts the members of the line of an object with this bucket, key and tags.
fn put_object<'a>(
    line: &mut Line<'a>,
    bucket: &'a Bucket,
    key: &'a Key,
    tags: &'a [Tag],
) -> Result<(), AllocError>
    requires { members_of line.old ≡ no_members }
    ensures { OnOk result (text_of line.new ≡ lines.object_words bucket.now key.now tags.now) }
{
    line.text("op", "Object")?;
    line.text("bucket", bucket.as_text().as_str())?;
    line.text("key", key.as_text().as_str())?;
    line.tags("etags", tags)
}

/// Writes the line of an object.
fn write_object(
    alloc: Global,
    text: &mut String,
    bucket: &Bucket,
    key: &Key,
    object: &Object,
) -> Result<(), AllocError>
    ensures { OnOk result (string_bytes text.new ≡ string_bytes text.old
        ++ lines.object_line bucket.now (key.now, object.now)) }
{
    let tags = [part_tag(object.bytes.as_slice())];
    let mut line = Line::new(alloc);
    put_object(&mut line, bucket, key, &tags)?;
    line.write(alloc, text)
}

/// Writes the lines of a bucket's objects whose keys begin with a prefix.
fn write_below(
    alloc: Global,
    text: &mut String,
    bucket: &Bucket,
    prefix: &Text,
    objects: &Objects,
) -> Result<(), AllocError>
    ensures { OnOk result (string_bytes text.new ≡ string_bytes text.old
        ++ flat_map (lines.object_line bucket.now) (filter (λ o. begins prefix.now o.0) (fin.entries objects.now))) }
{
    for (key, object) in objects.iter() {
        if key.as_text().starts_with(prefix) {
            write_object(alloc, text, bucket, key, object)?;
        }
    }
    Ok(())
}

/// Returns the prefix of the keys below a path.
fn prefix_below(alloc: Global, path: &S3Path) -> Result<Text, AllocError>
    ensures { IfOk result (λ prefix. prefix ≡ below path.now.key []) }
{
    Text::new(alloc, path.text_below(alloc, "")?)
}

/// Writes the lines of a store's objects below a path with this prefix.
fn write_all(
    alloc: Global,
    text: &mut String,
    dest: &S3Path,
    prefix: &Text,
    service: &Service,
) -> Result<(), AllocError>
    requires { prefix.now ≡ below dest.now.key [] }
    ensures { OnOk result (string_bytes text.new ≡ string_bytes text.old ++ lines.object_lines dest.now service.now) }
{
    let name = dest.bucket();
    for bucket in service.iter() {
        if bucket.name == name {
            write_below(alloc, text, name, prefix, bucket.objects)?;
        }
    }
    Ok(())
}

/// Writes the lines of a store's objects below a path, in the order of their keys.
pub fn write_objects(
    alloc: Global,
    text: &mut String,
    dest: &S3Path,
    service: &Service,
) -> Result<(), AllocError>
    ensures { OnOk result (string_bytes text.new ≡ string_bytes text.old ++ lines.object_lines dest.now service.now) }
{
    let prefix = prefix_below(alloc, dest)?;
    let written = write_all(alloc, text, dest, &prefix, service);
    let_go(prefix);
    written
}
