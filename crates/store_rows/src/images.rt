use crate::spelling::spelled;
use anyhow::Result;
use s3_service::Service;
use s3_types::let_go;
use std::alloc::Global;
use store_image::{decode, encode};

fn show_compared(rt: &impl Print, alloc: Global, service: &Service, bytes: &[u8]) -> Result<()> {
    let mut image = Vec::new(alloc);
    encode(alloc, service, &mut image)?;
    if image.as_slice() == bytes {
        print!(rt; ": as spelled")?;
    } else {
        print!(rt; ": another image")?;
    }
    Ok(())
}

/// Shows whether the store's image is the bytes that the words spell.
pub fn show_image(rt: &impl Print, alloc: Global, service: &Service, words: &str) -> Result<()> {
    let bytes = spelled(alloc, words)?;
    show_compared(rt, alloc, service, bytes.as_slice())
}

/// Shows the fault of the bytes that the words spell. If they are the image of a store, shows
/// whether that store's own image is the same bytes.
pub fn show_decoded(rt: &impl Print, alloc: Global, words: &str) -> Result<()> {
    let bytes = spelled(alloc, words)?;
    match decode(alloc, bytes.as_slice()) {
        Ok(service) => {
            let shown = show_compared(rt, alloc, &service, bytes.as_slice());
            let_go(service);
            shown
        }
        Err(fault) => Ok(print!(rt; ": fault {} at {}", fault.number(), fault.place())?),
    }
}
