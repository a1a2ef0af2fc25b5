//! Sends the records to a writer of JSON, member by member in the byte order of the names.
ghost use Rattle.std.specs.Prelude.{◌≡◌, ◌+◌, ◌<◌, codes, map, cond, OnOk};
ghost use Rattle.std.specs.Option.{option_copied};
ghost use Rattle.serde_json.specs.Data.{array, string};
ghost use Rattle.serde_json.specs.View.{items_of};
ghost use Rattle.pending_json.specs.inner.Sending.{SendsMember, SendsSizes, SendsStamp};
ghost use Rattle.pending_json.specs.Trees.{whole, texts, wholes, tag_digits, version_of, pending_tree, set_tree, success_tree};

use crate::committers::committer_word;
use crate::pending::PendingUpload;
use crate::records::{PendingSet, SuccessMark};
use s3_types::{SizeList, Tag, Text};
use serde::{Described, Serialize, Serializer};

/// The version of the form of sets and of `_SUCCESS`.
const VERSION: u64 = 1;

fn send_whole<S: Serializer>(out: &mut S, name: &str, n: u64) -> Result<(), S::Error>
    ensures { OnOk result (SendsMember name.now (whole n) (S.written out.old) (S.written out.new)) }
{
    out.key(name)?;
    out.u64(n)
}

fn send_text<S: Serializer>(out: &mut S, name: &str, text: &str) -> Result<(), S::Error>
    ensures { OnOk result (SendsMember name.now (string text.now) (S.written out.old) (S.written out.new)) }
{
    out.key(name)?;
    out.str(text)
}

fn send_tags<S: Serializer>(out: &mut S, name: &str, tags: &[Tag]) -> Result<(), S::Error>
    ensures { OnOk result (SendsMember name.now (array (texts (map tag_digits tags.now))) (S.written out.old)
        (S.written out.new)) }
{
    out.key(name)?;
    out.begin_seq(Some(tags.len()))?;
    for tag in tags {
        out.str(tag.digits_text())?;
    }
    out.end_seq()
}

fn send_texts<S: Serializer>(out: &mut S, name: &str, all: &[Text]) -> Result<(), S::Error>
    ensures { OnOk result (SendsMember name.now (array (texts all.now)) (S.written out.old) (S.written out.new)) }
{
    out.key(name)?;
    out.begin_seq(Some(all.len()))?;
    for text in all {
        out.str(text.as_str())?;
    }
    out.end_seq()
}

fn send_wholes<S: Serializer>(out: &mut S, name: &str, all: &[u64]) -> Result<(), S::Error>
    ensures { OnOk result (SendsMember name.now (array (wholes all.now)) (S.written out.old) (S.written out.new)) }
{
    out.key(name)?;
    all.serialize(out)
}

fn send_uploads<S: Serializer>(
    out: &mut S,
    name: &str,
    all: &[PendingUpload],
) -> Result<(), S::Error>
    ensures { OnOk result (SendsMember name.now (array (items_of (map pending_tree all.now))) (S.written out.old)
        (S.written out.new)) }
{
    out.key(name)?;
    all.serialize(out)
}

/// Sends the lengths of parts, if there are any.
fn send_sizes<S: Serializer>(out: &mut S, sizes: Option<&SizeList>) -> Result<(), S::Error>
    ensures { OnOk result (SendsSizes (option_copied sizes.entry) (S.written out.old) (S.written out.new)) }
{
    match sizes {
        Some(sizes) => send_wholes(out, "sizes", sizes.as_slice()),
        None => Ok(()),
    }
}

/// Sends the stamp, if there is one.
fn send_stamp<S: Serializer>(out: &mut S, stamp: Option<u64>) -> Result<(), S::Error>
    ensures { OnOk result (SendsStamp stamp (S.written out.old) (S.written out.new)) }
{
    match stamp {
        Some(stamp) => send_whole(out, "stamp", stamp),
        None => Ok(()),
    }
}

/// The number of members, with one more if `told`.
fn count(others: usize, told: bool) -> usize
    requires { others < 100 }
    ensures { result ≡ cond told (others + 1) others }
{
    if told { others + 1 } else { others }
}

/// The version of a pending upload's form: version 2 has the lengths of the parts.
fn upload_version(sized: bool) -> u64
    ensures { result ≡ version_of sized }
{
    if sized { 2 } else { 1 }
}

impl Described for PendingUpload {
    ghost use Rattle.serde_json.specs.Events.{SendsValue};
    ghost use Rattle.pending_json.specs.Trees.{pending_tree};

    ghost writes = { λ p. SendsValue (pending_tree p) };
}

impl Serialize for PendingUpload {
    fn serialize<S: Serializer>(&self, out: &mut S) -> Result<(), S::Error> {
        let sizes = self.sizes();
        let sized = sizes.is_some();
        out.begin_map(Some(count(9, sized)))?;
        send_whole(out, "attempt", u64::from(self.attempt()))?;
        send_text(out, "bucket", self.bucket().as_text().as_str())?;
        send_text(out, "destination", self.destination().as_text().as_str())?;
        send_tags(out, "etags", self.tags().as_slice())?;
        send_text(out, "kind", "pending")?;
        send_whole(out, "length", self.length())?;
        send_sizes(out, sizes)?;
        send_whole(out, "task", u64::from(self.task()))?;
        send_whole(out, "upload", self.upload())?;
        send_whole(out, "version", upload_version(sized))?;
        out.end_map()
    }
}

impl Described for PendingSet {
    ghost use Rattle.serde_json.specs.Events.{SendsValue};
    ghost use Rattle.pending_json.specs.Trees.{set_tree};

    ghost writes = { λ s. SendsValue (set_tree s) };
}

impl Serialize for PendingSet {
    fn serialize<S: Serializer>(&self, out: &mut S) -> Result<(), S::Error> {
        out.begin_map(Some(6))?;
        send_whole(out, "attempt", u64::from(self.attempt))?;
        send_uploads(out, "commits", self.commits.as_slice())?;
        send_text(out, "job", self.job.as_str())?;
        send_text(out, "kind", "pendingset")?;
        send_whole(out, "task", u64::from(self.task))?;
        send_whole(out, "version", VERSION)?;
        out.end_map()
    }
}

impl Described for SuccessMark {
    ghost use Rattle.serde_json.specs.Events.{SendsValue};
    ghost use Rattle.pending_json.specs.Trees.{success_tree};

    ghost writes = { λ m. SendsValue (success_tree m) };
}

impl Serialize for SuccessMark {
    fn serialize<S: Serializer>(&self, out: &mut S) -> Result<(), S::Error> {
        out.begin_map(Some(count(5, self.stamp.is_some())))?;
        send_text(out, "committer", committer_word(self.committer))?;
        send_texts(out, "files", self.files.as_slice())?;
        send_text(out, "job", self.job.as_str())?;
        send_text(out, "kind", "success")?;
        send_stamp(out, self.stamp)?;
        send_whole(out, "version", VERSION)?;
        out.end_map()
    }
}
