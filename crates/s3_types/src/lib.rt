//! The types of the modelled S3 store and of the cluster file system beside it. Its `specs/` say
//! what their requests mean:
//!
//! - `answer` and `apply`: what each request is answered, and how it changes the store.
//! - `moment`: the states through which a journal leads, one after each entry.
//! - `IsHonest`: when the answers in a journal are those that the store gives.
//!
//! # What is proved
//!
//! - `part_tag`, `joined_tag`: return the MD5 digest of the bytes in hex, and the digest of the
//!   joined part digests with the number of parts. Left open: that different parts have different
//!   tags.
//! - `Key::read`, `Bucket::read`: fail with BadName exactly if the bytes break the rule of such
//!   names.
//! - Types: bytes and texts are what they were made of, and clones are equal.
#![tactic(auto)]

mod bytes;
mod digests;
mod drops;
mod fates;
mod journal;
mod kinds;
mod limits;
mod lists;
mod names;
mod object;
mod reply;
mod request;
mod sequence;
mod store;
mod tag;
mod text;

pub use bytes::Bytes;
pub use digests::{joined_tag, part_digest, part_tag, tag_of};
pub use drops::{both, let_go, put};
pub use fates::{Fate, FateFault, Fates};
pub use journal::{Entry, Journal, Outcome};
pub use limits::{
    LengthHeader, MOST_ENTRIES, MOST_KEY_BYTES, MOST_MINIMUM, MOST_PARTS, MOST_SCRIPT_BYTES,
    PageLimit,
};
pub use lists::{
    EntryList, KeyList, PartList, PartSizes, SizeList, TagList, TextList, UploadList, copied_keys,
    copied_parts, named_parts,
};
pub use names::{Bucket, Key, NameFault, are_elements, as_utf8, is_element, trimmed};
pub use object::{Head, Object};
pub use reply::{PageEntry, PartSize, Refusal, Reply};
pub use request::{Actor, Committer, Mode, NamedPart, Request, UploadRef};
pub use sequence::Sequence;
pub use store::ObjectStore;
pub use tag::{Tag, are_hex_digits};
pub use text::Text;
