ghost use Rattle.std.specs.Prelude.{◌≡◌, ◌≤◌, OnErr, OnOk, insert, length};
ghost use Rattle.std.specs.Cmp.Lexicographic.{slice_cmp};
ghost use Rattle.std.specs.Ordering.{nat_cmp};
ghost use Rattle.serde_json.specs.Data.{boolean, no_members, put, string};
ghost use Rattle.trace_lines.specs.Lines.{etags, texts, whole};
ghost use Rattle.trace_lines.specs.Members.{data_of, listed, members_of};
ghost use Rattle.trace_lines.specs.Requests.{part_objects};

use s3_types::{Key, NamedPart, Tag};
use std::alloc::{AllocError, Global};
use std::cmp::Ordering;

/// The value of a member.
#[derive(Clone, Copy, Drop)]
pub(crate) enum MemberValue<'a> {
    Text(&'a str),
    Whole(u64),
    Flag(bool),
    Tags(&'a [Tag]),
    Texts(&'a [Key]),
    Parts(&'a [NamedPart]),
}

/// A member of a line: its name and its value.
#[derive(Clone, Copy, Drop)]
pub(crate) struct Member<'a> {
    pub(crate) name: &'a str,
    pub(crate) value: MemberValue<'a>,
}

/// The number of members for which a line reserves room at first. No line of a request has more.
const ROOM: usize = 16;

/// Inserts a member at a place among others, and moves those after it.
fn insert_at<'a>(
    members: &mut Vec<Member<'a>>,
    at: usize,
    member: Member<'a>,
) -> Result<(), AllocError>
    requires { at ≤ length members.old.items }
    ensures ok { OnOk result (members.new.items ≡ insert members.old.items at member.entry) }
    ensures err { OnErr result (members.new.items ≡ members.old.items) }
{
    if members.is_empty() {
        members.reserve(ROOM)?;
    }
    match members.insert(at, member) {
        Ok(()) => Ok(()),
        Err(_) => Err(AllocError),
    }
}

/// Returns the order of two names by their bytes. It compares the first bytes separately, since
/// most names differ there.
#[inline]
fn name_order(name: &str, other: &str) -> Ordering
    ensures { result ≡ slice_cmp nat_cmp name.now other.now }
{
    let (left, right) = (name.as_bytes(), other.as_bytes());
    if !left.is_empty() && !right.is_empty() && left[0] != right[0] {
        return left[0].cmp(&right[0]);
    }
    name.cmp(other)
}

/// Puts a member at its place in the byte order of the names. It replaces the member of the same
/// name.
fn put<'a>(members: &mut Vec<Member<'a>>, member: Member<'a>) -> Result<(), AllocError>
    ensures ok { OnOk result
        (listed members.new.items ≡ put member.entry.name.now (data_of member.entry.value) (listed members.old.items)) }
    ensures err { OnErr result (listed members.new.items ≡ listed members.old.items) }
{
    for at in 0..members.len() {
        match name_order(member.name, members[at].name) {
            Ordering::Less => return insert_at(members, at, member),
            Ordering::Equal => {
                members[at] = member;
                return Ok(());
            }
            Ordering::Greater => {}
        }
    }
    let end = members.len();
    insert_at(members, end, member)
}

/// The members of one line, each at its place in the byte order of the names.
#[derive(Drop)]
pub struct Line<'a> {
    pub(crate) alloc: Global,
    pub(crate) members: Vec<Member<'a>>,
}

impl<'a> Line<'a> {
    /// Returns a line without members. Takes no memory.
    pub fn new(alloc: Global) -> Line<'a>
        ensures { members_of result ≡ no_members }
    {
        Line {
            alloc,
            members: Vec::new(alloc),
        }
    }

    /// Puts a text, in the place of the member of this name if there is one.
    pub fn text(&mut self, name: &'a str, text: &'a str) -> Result<(), AllocError>
        ensures ok { OnOk result
            (members_of self.new ≡ put name.now (string text.now) (members_of self.old)) }
        ensures err { OnErr result (members_of self.new ≡ members_of self.old) }
    {
        put(
            &mut self.members,
            Member {
                name,
                value: MemberValue::Text(text),
            },
        )
    }

    /// Puts a whole number, in the place of the member of this name if there is one.
    pub fn whole(&mut self, name: &'a str, number: u64) -> Result<(), AllocError>
        ensures ok { OnOk result
            (members_of self.new ≡ put name.now (whole number) (members_of self.old)) }
        ensures err { OnErr result (members_of self.new ≡ members_of self.old) }
    {
        put(
            &mut self.members,
            Member {
                name,
                value: MemberValue::Whole(number),
            },
        )
    }

    /// Puts a truth value, in the place of the member of this name if there is one.
    pub fn flag(&mut self, name: &'a str, flag: bool) -> Result<(), AllocError>
        ensures ok { OnOk result
            (members_of self.new ≡ put name.now (boolean flag) (members_of self.old)) }
        ensures err { OnErr result (members_of self.new ≡ members_of self.old) }
    {
        put(
            &mut self.members,
            Member {
                name,
                value: MemberValue::Flag(flag),
            },
        )
    }

    /// Puts a list of tags, each as an ETag without quotes, in the place of the member of this name if
    /// there is one.
    pub fn tags(&mut self, name: &'a str, tags: &'a [Tag]) -> Result<(), AllocError>
        ensures ok { OnOk result
            (members_of self.new ≡ put name.now (etags tags.now) (members_of self.old)) }
        ensures err { OnErr result (members_of self.new ≡ members_of self.old) }
    {
        put(
            &mut self.members,
            Member {
                name,
                value: MemberValue::Tags(tags),
            },
        )
    }

    /// Puts a list of keys, in the place of the member of this name if there is one.
    pub fn texts(&mut self, name: &'a str, keys: &'a [Key]) -> Result<(), AllocError>
        ensures ok { OnOk result
            (members_of self.new ≡ put name.now (texts keys.now) (members_of self.old)) }
        ensures err { OnErr result (members_of self.new ≡ members_of self.old) }
    {
        put(
            &mut self.members,
            Member {
                name,
                value: MemberValue::Texts(keys),
            },
        )
    }

    /// Puts the parts that a completion names, in the place of the member of this name if there is one.
    pub fn parts(&mut self, name: &'a str, parts: &'a [NamedPart]) -> Result<(), AllocError>
        ensures ok { OnOk result
            (members_of self.new ≡ put name.now (part_objects parts.now) (members_of self.old)) }
        ensures err { OnErr result (members_of self.new ≡ members_of self.old) }
    {
        put(
            &mut self.members,
            Member {
                name,
                value: MemberValue::Parts(parts),
            },
        )
    }
}
