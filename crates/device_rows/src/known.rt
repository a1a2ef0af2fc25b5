use crate::left::loaded_image;
use crate::play::Played;
use folder_log::Choice;
use log_format::{LogFault, read_log};
use s3_service::Service;
use s3_types::{Bytes, Entry, Outcome, Sequence, let_go};
use std::alloc::{AllocError, Global};
use store_image::{decode, encode};

/// What a run in which nothing failed wrote and left, and the images of its store before its first
/// request and after each.
#[derive(Drop)]
pub struct Known {
    pub text: Vec<u8>,
    pub file: Option<Bytes>,
    pub images: Sequence<Bytes>,
}

impl Known {
    /// Nothing is known yet: no text, no file and no images.
    pub fn new(alloc: Global) -> Known {
        Known {
            text: Vec::new(alloc),
            file: None,
            images: Sequence::new(alloc),
        }
    }
}

/// The base of a file, which is what it has before its changes.
fn base_of(alloc: Global, file: &Bytes) -> Result<Bytes, AllocError> {
    match read_log(alloc, file) {
        Ok(held) => {
            let base: Result<Bytes, AllocError> = held.base.clone();
            let_go(held);
            base
        }
        Err(LogFault::Bad(_)) => Bytes::empty(alloc),
        Err(LogFault::NoMemory) => Err(AllocError),
    }
}

/// The image of the store with which a run began: what the file held at first, or the base that the
/// run made.
fn opening(
    alloc: Global,
    before: &Option<Bytes>,
    after: &Option<Bytes>,
) -> Result<Bytes, AllocError> {
    match (before, after) {
        (Some(file), _) => match loaded_image(alloc, file)? {
            Some(image) => Ok(image),
            None => Bytes::empty(alloc),
        },
        (None, Some(file)) => base_of(alloc, file),
        (None, None) => Bytes::empty(alloc),
    }
}

fn took_effect(outcome: &Outcome) -> bool {
    match outcome {
        Outcome::Answered(_) | Outcome::ReplyLost => true,
        Outcome::Slow | Outcome::RequestLost => false,
    }
}

/// Applies a request to the store once more, if it took effect there.
fn follow(service: &mut Service, entry: &Entry) -> Result<(), AllocError> {
    let request = &entry.request;
    if !took_effect(&entry.outcome) || request.is_cluster() || service.next_upload() > 1 << 62 {
        return Ok(());
    }
    match service.apply(request) {
        Ok(reply) => {
            let_go(reply);
            Ok(())
        }
        Err(error) => Err(error),
    }
}

fn image_of(alloc: Global, service: &Service) -> Result<Bytes, AllocError> {
    let mut image = Vec::new(alloc);
    encode(alloc, service, &mut image)?;
    Bytes::new(alloc, image)
}

/// The images of a store before these requests and after each.
fn images_along(
    alloc: Global,
    service: &mut Service,
    entries: &[Entry],
) -> Result<Sequence<Bytes>, AllocError> {
    let mut images = Sequence::new(alloc);
    images.push(image_of(alloc, service)?)?;
    for entry in entries {
        follow(service, entry)?;
        images.push(image_of(alloc, service)?)?;
    }
    Ok(images)
}

/// The images of a run's store at each point. There are none if it opened no store.
fn images_from(
    alloc: Global,
    image: &Bytes,
    entries: &[Entry],
) -> Result<Sequence<Bytes>, AllocError> {
    match decode(alloc, image.as_slice()) {
        Ok(mut service) => {
            let images = images_along(alloc, &mut service, entries);
            let_go(service);
            images
        }
        Err(_) => Ok(Sequence::new(alloc)),
    }
}

/// What is known of a run in which nothing failed, and which began with this file.
pub fn known_of(
    alloc: Global,
    before: &Option<Bytes>,
    played: &Played,
) -> Result<Known, AllocError> {
    let file = played.shelf.disk().crash(Choice::Lost)?;
    let image = opening(alloc, before, &file)?;
    let images = images_from(alloc, &image, played.report.journal.as_slice())?;
    let text = Vec::from_slice(alloc, played.out.bytes())?;
    Ok(Known { text, file, images })
}
