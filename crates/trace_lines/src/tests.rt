//! Compares lines with texts that were written by hand.
ghost use Rattle.trace_lines.specs.Requests.{TellsTag};

use crate::{Line, write_request};
use s3_types::{
    Actor, Bucket, Bytes, Entry, EntryList, Key, KeyList, NameFault, NamedPart, Outcome, PageLimit,
    PartList, Refusal, Reply, Request, Tag, Text, both, let_go, part_tag,
};
use std::alloc::{AllocError, Global};

/// Writes the line of an answered request.
fn write_answered(
    alloc: Global,
    text: &mut String,
    number: u64,
    actor: Actor,
    request: Request,
    reply: Reply,
    due: Reply,
) -> Result<(), AllocError>
    requires { TellsTag request due }
{
    let entry = Entry {
        event: 1,
        actor,
        request,
        outcome: Outcome::Answered(reply),
    };
    let written = write_request(alloc, text, number, &entry, &due);
    let_go(entry);
    let_go(due);
    written
}

fn place(alloc: Global, key: &str) -> Result<(Bucket, Key), NameFault> {
    both(
        Bucket::read(alloc, b"lake"),
        Key::read(alloc, key.as_bytes()),
    )
}

fn write_refused(alloc: Global, text: &mut String) -> Result<(), NameFault> {
    let (bucket, key) = place(alloc, "out")?;
    let request = Request::HeadObject { bucket, key };
    let reply = || Reply::Refused(Refusal::NoSuchKey);
    write_answered(alloc, text, 1, Actor::Driver, request, reply(), reply())?;
    Ok(())
}

/// Writes the lines of a listing whose page is empty.
fn write_listing(alloc: Global, text: &mut String) -> Result<(), NameFault> {
    let texts = both(
        Text::copied(alloc, "out/__magic/job-j1/"),
        Text::empty(alloc),
    )?;
    let bucket = Bucket::read(alloc, b"lake")?;
    let request = Request::ListPage {
        bucket,
        prefix: texts.0,
        delimited: false,
        after: texts.1,
        limit: PageLimit::new(1000),
    };
    let page = || Reply::Page {
        entries: EntryList::new(alloc),
        more: false,
    };
    write_answered(alloc, text, 3, Actor::Driver, request, page(), page())?;
    Ok(())
}

fn write_part(alloc: Global, text: &mut String) -> Result<(), NameFault> {
    let bytes = Bytes::from_slice(alloc, b"hello")?;
    let (bucket, key) = place(alloc, "out/part-00000")?;
    let tag = part_tag(bytes.as_slice());
    let request = Request::UploadPart {
        bucket,
        key,
        upload: 1,
        number: 1,
        bytes,
    };
    let actor = Actor::Attempt {
        task: 0,
        attempt: 0,
    };
    write_answered(
        alloc,
        text,
        5,
        actor,
        request,
        Reply::Part(tag),
        Reply::Part(tag),
    )?;
    Ok(())
}

fn write_completion(alloc: Global, text: &mut String) -> Result<(), NameFault> {
    let tag = part_tag(b"hello");
    let mut parts = PartList::new(alloc);
    parts.push(NamedPart { number: 1, tag })?;
    let (bucket, key) = place(alloc, "out/part-00000")?;
    let request = Request::CompleteUpload {
        bucket,
        key,
        upload: 1,
        parts,
    };
    let reply = || Reply::Completed(tag);
    write_answered(alloc, text, 12, Actor::Driver, request, reply(), reply())?;
    Ok(())
}

/// Writes the line of a key with a quotation mark, a control character and a letter beyond ASCII.
fn write_odd_key(alloc: Global, text: &mut String) -> Result<(), NameFault> {
    let (bucket, key) = place(alloc, "a\"b\u{1}\u{e9}")?;
    let mut keys = KeyList::new(alloc);
    keys.push(key)?;
    let request = Request::DeleteObjects { bucket, keys };
    write_answered(
        alloc,
        text,
        13,
        Actor::Shell,
        request,
        Reply::Deleted,
        Reply::Deleted,
    )?;
    Ok(())
}

#[test]
fn lines_of_sends(rt: HostRuntime) -> Result<(), NameFault> {
    let alloc = rt.alloc();
    let mut text = String::new(alloc);
    write_refused(alloc, &mut text)?;
    write_listing(alloc, &mut text)?;
    write_part(alloc, &mut text)?;
    write_completion(alloc, &mut text)?;
    write_odd_key(alloc, &mut text)?;
    let want =
        r#"{"actor":"driver","bucket":"lake","effect":false,"error":"NoSuchKey","event":1,"key":"out","n":1,"op":"HeadObject","outcome":"answered"}
{"actor":"driver","after":"","bucket":"lake","effect":true,"event":1,"listed":0,"max":1000,"more":false,"n":3,"op":"ListObjectsV2","outcome":"answered","prefix":"out/__magic/job-j1/"}
{"actor":"0.0","bucket":"lake","effect":true,"etag":"5d41402abc4b2a76b9719d911017c592","event":1,"key":"out/part-00000","length":5,"n":5,"op":"UploadPart","outcome":"answered","part":1,"upload":1}
{"actor":"driver","bucket":"lake","effect":true,"event":1,"key":"out/part-00000","n":12,"op":"CompleteMultipartUpload","outcome":"answered","parts":[{"etag":"5d41402abc4b2a76b9719d911017c592","part":1}],"upload":1}
{"actor":"shell","bucket":"lake","effect":true,"event":1,"keys":["a\"b\u0001é"],"n":13,"op":"DeleteObjects","outcome":"answered"}
"#;
    assert_eq!(rt; text.as_str(), want);
    Ok(())
}

/// Writes a line with a list of tags, and with a member that replaces another.
fn write_tags(alloc: Global, text: &mut String) -> Result<(), AllocError> {
    let tag = part_tag(b"hello");
    let tags = [tag, Tag::new(*tag.digits(), 2)];
    let mut line = Line::new(alloc);
    line.text("type", "file")?;
    line.tags("etags", tags.as_slice())?;
    line.text("type", "claim")?;
    line.write(alloc, text)
}

#[test]
fn a_line_of_tags(rt: HostRuntime) -> Result<(), AllocError> {
    let mut text = String::new(rt.alloc());
    write_tags(rt.alloc(), &mut text)?;
    let want =
        r#"{"etags":["5d41402abc4b2a76b9719d911017c592","5d41402abc4b2a76b9719d911017c592-2"],"type":"claim"}
"#;
    assert_eq!(rt; text.as_str(), want);
    Ok(())
}
