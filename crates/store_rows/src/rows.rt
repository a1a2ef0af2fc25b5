use crate::images::{show_decoded, show_image};
use crate::replies::{show_answer, show_bytes};
use crate::requests::answer;
use crate::spelling::cut;
use crate::streams::show_stream;
use crate::tags::show_joined;
use crate::walks::{put_keys, show_walk};
use anyhow::{Context, Result, bail};
use block_stream::StreamMode;
use object_store::Objects;
use s3_service::Service;
use s3_types::{let_go, put};
use std::alloc::Global;

/// The store that the rows are about, and its copy at the last `keep`.
#[derive(Drop)]
pub struct Stores {
    now: Service,
    kept: Service,
}

impl Stores {
    /// Two stores with no bucket. Each part but the last has at least 4 bytes.
    pub fn new(alloc: Global) -> Stores {
        Stores {
            now: Service::new(alloc, 4),
            kept: Service::new(alloc, 4),
        }
    }

    /// Begins a new store with no bucket.
    fn begin(&mut self, alloc: Global, word: &str) -> Result<()> {
        let minimum = word.parse::<u64>().context("the least part")?;
        if minimum < 1 || minimum > 5_242_880 {
            bail!("no store has such a least part");
        }
        put(&mut self.now, Service::new(alloc, minimum));
        Ok(())
    }

    fn keep(&mut self) -> Result<()> {
        let copy = self.now.copy()?;
        put(&mut self.kept, copy);
        Ok(())
    }

    fn go_back(&mut self) -> Result<()> {
        let copy = self.kept.copy()?;
        put(&mut self.now, copy);
        Ok(())
    }
}

/// Shows the store's reply to the request that the words spell.
fn ask(rt: &impl Print, alloc: Global, service: &mut Service, words: &str) -> Result<()> {
    let reply = answer(alloc, service, words)?;
    let shown = show_answer(rt, &reply);
    let_go(reply);
    shown
}

/// Shows the objects one after another, each found by the key before it.
pub fn show_steps(rt: &impl Print, objects: &Objects) -> Result<()> {
    let mut last = None;
    for _ in 0..=objects.count() {
        let Some((key, object)) = objects.next(last) else {
            break;
        };
        print!(rt; " {} ", key.as_text().as_str())?;
        show_bytes(rt, &object.bytes)?;
        last = Some(key);
    }
    Ok(())
}

fn show_objects(rt: &impl Print, service: &Service) -> Result<()> {
    for bucket in service.iter() {
        print!(rt; ": {}", bucket.objects.count())?;
        show_steps(rt, bucket.objects)?;
    }
    Ok(())
}

fn answer_row(rt: &impl Print, alloc: Global, stores: &mut Stores, words: &str) -> Result<()> {
    let (verb, rest) = cut(words);
    match verb {
        "store" => stores.begin(alloc, rest),
        "keep" => stores.keep(),
        "back" => stores.go_back(),
        "many" => put_keys(alloc, &mut stores.now),
        "walk" => show_objects(rt, &stores.now),
        "keys" => show_walk(rt, alloc, &stores.now, rest),
        "joined" => show_joined(rt, alloc, rest),
        "direct" => show_stream(rt, alloc, StreamMode::Direct, rest),
        "delayed" => show_stream(rt, alloc, StreamMode::Delayed, rest),
        "image" => show_image(rt, alloc, &stores.now, rest),
        "read" => show_decoded(rt, alloc, rest),
        _ => ask(rt, alloc, &mut stores.now, words),
    }
}

/// Answers a line `LABEL: WORDS`.
fn row(rt: &impl Print, alloc: Global, stores: &mut Stores, line: &str) -> Result<()> {
    let (label, words) = line.split_once(": ").context("a label and words")?;
    print!(rt; "{label}")?;
    answer_row(rt, alloc, stores, words)?;
    println!(rt)?;
    Ok(())
}

/// Answers the rows of standard input.
pub fn show_rows<R: Input + Print>(rt: &R, alloc: Global, stores: &mut Stores) -> Result<()> {
    for line in rt.lines(alloc) {
        row(rt, alloc, stores, line?.as_str())?;
    }
    Ok(())
}
