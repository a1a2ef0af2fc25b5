//! Sends a line to a writer of JSON, member by member.
ghost use Rattle.std.specs.Prelude.{◌≡◌, ◌∷◌, ◌++◌, [], IfOk, OnErr, OnOk, string_bytes};
ghost use Rattle.serde_json.specs.Data.{object, string};
ghost use Rattle.serde_json.specs.Events.{SendsValue};
ghost use Rattle.serde_json.specs.Written.{compact_text};
ghost use Rattle.s3_types.specs.Spelling.{tag_text};
ghost use Rattle.trace_lines.specs.Lines.{etags, texts};
ghost use Rattle.trace_lines.specs.Members.{data_of, members_of};
ghost use Rattle.trace_lines.specs.Requests.{part_object, part_objects};

use crate::line::{Line, MemberValue};
use s3_types::{Key, NamedPart, Tag};
use serde::{Described, Serialize, Serializer};
use std::alloc::{AllocError, Global};

/// Returns the text of a tag with its number of parts.
fn counted_tag(alloc: Global, tag: &Tag) -> Result<String, AllocError>
    ensures { IfOk result (λ text. string_bytes text ≡ tag_text tag.now) }
{
    format!(in alloc; "{tag}")
}

fn send_tag<S: Serializer>(alloc: Global, out: &mut S, tag: &Tag) -> Result<(), S::Error>
    ensures { OnOk result (SendsValue (string (tag_text tag.now)) (S.written out.old) (S.written out.new)) }
{
    if tag.parts() == 0 {
        return out.str(tag.digits_text());
    }
    match counted_tag(alloc, tag) {
        Ok(text) => out.str(text.as_str()),
        Err(_) => Err(out.custom("out of memory")),
    }
}

fn send_tags<S: Serializer>(alloc: Global, out: &mut S, tags: &[Tag]) -> Result<(), S::Error>
    ensures { OnOk result (SendsValue (etags tags.now) (S.written out.old) (S.written out.new)) }
{
    out.begin_seq(Some(tags.len()))?;
    for tag in tags {
        send_tag(alloc, out, tag)?;
    }
    out.end_seq()
}

fn send_texts<S: Serializer>(out: &mut S, keys: &[Key]) -> Result<(), S::Error>
    ensures { OnOk result (SendsValue (texts keys.now) (S.written out.old) (S.written out.new)) }
{
    out.begin_seq(Some(keys.len()))?;
    for key in keys {
        out.str(key.as_text().as_str())?;
    }
    out.end_seq()
}

fn send_part<S: Serializer>(alloc: Global, out: &mut S, part: &NamedPart) -> Result<(), S::Error>
    ensures { OnOk result (SendsValue (part_object part.now) (S.written out.old) (S.written out.new)) }
{
    out.begin_map(Some(2))?;
    out.key("etag")?;
    send_tag(alloc, out, &part.tag)?;
    out.key("part")?;
    out.u64(u64::from(part.number))?;
    out.end_map()
}

fn send_parts<S: Serializer>(
    alloc: Global,
    out: &mut S,
    parts: &[NamedPart],
) -> Result<(), S::Error>
    ensures { OnOk result (SendsValue (part_objects parts.now) (S.written out.old) (S.written out.new)) }
{
    out.begin_seq(Some(parts.len()))?;
    for part in parts {
        send_part(alloc, out, part)?;
    }
    out.end_seq()
}

fn send_value<S: Serializer>(
    alloc: Global,
    out: &mut S,
    value: &MemberValue<'_>,
) -> Result<(), S::Error>
    ensures { OnOk result (SendsValue (data_of value.now) (S.written out.old) (S.written out.new)) }
{
    match value {
        MemberValue::Text(text) => out.str(text),
        MemberValue::Whole(number) => out.u64(*number),
        MemberValue::Flag(flag) => out.bool(*flag),
        MemberValue::Tags(tags) => send_tags(alloc, out, tags),
        MemberValue::Texts(keys) => send_texts(out, keys),
        MemberValue::Parts(parts) => send_parts(alloc, out, parts),
    }
}

impl Described for Line<'_> {
    ghost use Rattle.serde_json.specs.Data.{object};
    ghost use Rattle.serde_json.specs.Events.{SendsValue};
    ghost use Rattle.trace_lines.specs.Members.{members_of};

    ghost writes = { λ line. SendsValue (object (members_of line)) };
}

impl Serialize for Line<'_> {
    fn serialize<S: Serializer>(&self, out: &mut S) -> Result<(), S::Error> {
        let members = self.members.as_slice();
        out.begin_map(Some(members.len()))?;
        for member in members {
            out.key(member.name)?;
            send_value(self.alloc, out, &member.value)?;
        }
        out.end_map()
    }
}

/// Appends a text and a line feed.
fn push_line(text: &mut String, line: String) -> Result<(), AllocError>
    ensures ok { OnOk result (string_bytes text.new ≡ string_bytes text.old ++ (string_bytes line ++ 10 ∷ [])) }
    ensures err { OnErr result (string_bytes text.new ≡ string_bytes text.old) }
{
    let mut line = line;
    line.push('\n')?;
    text.push_str(line.as_str())
}

impl Line<'_> {
    /// Appends the line to a text: the object of its members as JSON without blanks, and a line
    /// feed. If an error comes, the text is unchanged.
    pub fn write(&self, alloc: Global, text: &mut String) -> Result<(), AllocError>
        ensures ok { OnOk result
            (string_bytes text.new ≡ string_bytes text.old ++ (compact_text (object (members_of self.now)) ++ 10 ∷ [])) }
        ensures err { OnErr result (string_bytes text.new ≡ string_bytes text.old) }
    {
        match serde_json::to_string(alloc, self) {
            Ok(line) => push_line(text, line),
            Err(_) => Err(AllocError),
        }
    }
}
