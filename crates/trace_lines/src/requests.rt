ghost use Rattle.std.specs.Prelude.{◌≡◌, ◌++◌, IfOk, IfSome, OnErr, OnOk, option_map, string_bytes};
ghost use Rattle.s3_types.specs.Spelling.{actor_text, tag_text};
ghost use Rattle.s3_types.specs.Tags.{plain_tag};
ghost use Rattle.trace_lines.specs.Lines.{put_all};
ghost use Rattle.trace_lines.specs.Members.{members_of};
ghost use Rattle.trace_lines.specs.Requests.{TellsTag, part_tag, request_line, request_members, send_members, stored_tag};
ghost use Rattle.trace_lines.specs.inner.Requests.{sent_bytes};

use crate::asked::put_asked;
use crate::line::Line;
use crate::told::{put_effect, put_told_to};
use crate::words::{operation_name, outcome_word};
use s3_types::{Actor, Bytes, Entry, Reply, Request, Tag, part_tag};
use std::alloc::{AllocError, Global};

/// Returns the tag of an object's bytes. It takes the tag from the reply if S3 stored the object.
fn object_tag(bytes: &Bytes, due: &Reply) -> Tag
    requires { IfSome (stored_tag due.now) (λ tag. tag ≡ plain_tag bytes.now) }
    ensures { result ≡ plain_tag bytes.now }
{
    match due {
        Reply::Stored(tag) => *tag,
        _ => part_tag(bytes.as_slice()),
    }
}

/// Returns the tag of a part's bytes. It takes the tag from the reply if S3 stored the part.
fn tag_of_part(bytes: &Bytes, due: &Reply) -> Tag
    requires { IfSome (part_tag due.now) (λ tag. tag ≡ plain_tag bytes.now) }
    ensures { result ≡ plain_tag bytes.now }
{
    match due {
        Reply::Part(tag) => *tag,
        _ => part_tag(bytes.as_slice()),
    }
}

/// Returns the tag of the bytes of the object or part that a request sends, if it sends one.
fn sent_tag(request: &Request, due: &Reply) -> Option<Tag>
    requires { TellsTag request.now due.now }
    ensures { result ≡ option_map plain_tag (sent_bytes request.now) }
{
    match request {
        Request::PutObject { bytes, .. } => Some(object_tag(bytes, due)),
        Request::UploadPart { bytes, .. } => Some(tag_of_part(bytes, due)),
        _ => None,
    }
}

/// Returns the digits of a tag, if there is one.
fn digits(tag: &Option<Tag>) -> &str
    ensures { IfSome tag.now (λ t. result.now ≡ t.digits) }
{
    match tag {
        Some(tag) => tag.digits_text(),
        None => "",
    }
}

/// Puts the number, the event, the actor, the operation and the outcome of a send.
fn put_send<'a>(
    line: &mut Line<'a>,
    number: u64,
    entry: &Entry,
    actor: &'a str,
) -> Result<(), AllocError>
    requires { actor.now ≡ actor_text entry.now.actor }
    ensures { OnOk result (members_of line.new
        ≡ put_all (send_members number entry.now) (members_of line.old)) }
{
    line.whole("n", number)?;
    line.whole("event", u64::from(entry.event))?;
    line.text("actor", actor)?;
    line.text("op", operation_name(&entry.request))?;
    line.text("outcome", outcome_word(&entry.outcome))
}

/// Puts all members of the line of a send.
fn put_request<'a>(
    line: &mut Line<'a>,
    number: u64,
    entry: &'a Entry,
    due: &Reply,
    actor: &'a str,
    etag: &'a str,
) -> Result<(), AllocError>
    requires actor { actor.now ≡ actor_text entry.now.actor }
    requires etag { IfSome (sent_bytes entry.now.request) (λ bytes. etag.now ≡ tag_text (plain_tag bytes)) }
    ensures { OnOk result (members_of line.new
        ≡ put_all (request_members number entry.now due.now) (members_of line.old)) }
{
    put_send(line, number, entry, actor)?;
    put_effect(line, &entry.outcome, due)?;
    put_asked(line, &entry.request, etag)?;
    put_told_to(line, &entry.outcome)
}

/// Writes the line of a send by an actor with this name.
fn write_by(
    alloc: Global,
    text: &mut String,
    number: u64,
    entry: &Entry,
    due: &Reply,
    actor: &str,
) -> Result<(), AllocError>
    requires actor { actor.now ≡ actor_text entry.now.actor }
    requires tag { TellsTag entry.now.request due.now }
    ensures ok { OnOk result
        (string_bytes text.new ≡ string_bytes text.old ++ request_line number entry.now due.now) }
    ensures err { OnErr result (string_bytes text.new ≡ string_bytes text.old) }
{
    let tag = sent_tag(&entry.request, due);
    let mut line = Line::new(alloc);
    put_request(&mut line, number, entry, due, actor, digits(&tag))?;
    line.write(alloc, text)
}

/// Returns the name of an actor.
fn actor_name(alloc: Global, actor: Actor) -> Result<String, AllocError>
    ensures { IfOk result (λ name. string_bytes name ≡ actor_text actor) }
{
    format!(in alloc; "{actor}")
}

/// Appends the line of a send to a text. `number` is the send's number within the run, from 1 on,
/// `entry` its entry in the journal, and `due` the reply that S3 must give, which may have been
/// lost. If an error comes, the text is unchanged.
pub fn write_request(
    alloc: Global,
    text: &mut String,
    number: u64,
    entry: &Entry,
    due: &Reply,
) -> Result<(), AllocError>
    // A tag in the reply is that of the bytes that were sent.
    requires { TellsTag entry.now.request due.now }
    // The line of the send is appended to the text.
    ensures ok { OnOk result
        (string_bytes text.new ≡ string_bytes text.old ++ request_line number entry.now due.now) }
    ensures err { OnErr result (string_bytes text.new ≡ string_bytes text.old) }
{
    match entry.actor {
        Actor::Driver => write_by(alloc, text, number, entry, due, "driver"),
        Actor::Shell => write_by(alloc, text, number, entry, due, "shell"),
        Actor::Attempt { .. } => {
            let name = actor_name(alloc, entry.actor)?;
            write_by(alloc, text, number, entry, due, name.as_str())
        }
    }
}
