//! Shows what the modelled store replies, line by line. Each line of standard input is a label, a
//! `:` and words.
//!
//! - `store N` begins a new store whose least part has N bytes. `many` puts 1,001 keys into it.
//! - `do` sends a change, given as the bytes of a log's record. There `'ab` stands for these
//!   letters, and `8:4` for the number 4 in 8 bytes.
//! - `get KEY`, `head KEY`, `parts KEY UPLOAD`, `uploads PREFIX LIMIT` and
//!   `page flat|folded PREFIX AFTER LIMIT` send a request that reads. `-` stands for the empty text.
//! - `keep` keeps a copy of the store, and `back` goes back to it.
//! - `walk` shows the objects one by one.
//! - `image` shows whether the store's image is the bytes that follow, and `read` what those bytes
//!   are as an image.
//! - `keys FATE FIRST COUNT` lists the bucket's root in a copy of the store for which some sends
//!   are lost or slow.
//! - `direct` and `delayed` write pieces to a stream that cuts them into blocks of 4 bytes, over a
//!   store of its own.
//! - `joined` shows the tag of an upload of these parts.
#![tactic(auto)]

mod images;
mod lake;
mod replies;
mod requests;
mod rows;
mod spelling;
mod streams;
mod streams_shown;
mod tags;
mod walks;

use anyhow::Result;
use rows::{Stores, show_rows};
use s3_types::let_go;

fn main(rt: HostRuntime) -> Result<()> {
    let alloc = rt.alloc();
    let mut stores = Stores::new(alloc);
    let shown = show_rows(&rt, alloc, &mut stores);
    let_go(stores);
    shown
}
