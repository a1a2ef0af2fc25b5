use crate::changes::{Reader, change_in, tell_changes};
use anyhow::Result;
use s3_types::let_go;
use std::alloc::{AllocError, Global};
use store_image::decode;

/// Writes what the bytes are as an image.
pub fn put_image(line: &mut String, alloc: Global, bytes: &[u8]) -> Result<(), AllocError> {
    match decode(alloc, bytes) {
        Ok(service) => {
            let_go(service);
            line.push_str("a store")
        }
        Err(fault) => {
            let number = fault.number();
            let place = fault.place();
            write!(line, "fault {number} at {place}")
        }
    }
}

/// Shows what a row's bytes are as an image.
pub fn show_image(rt: &impl Print, alloc: Global, line: &str) -> Result<()> {
    let (change, digits) = change_in(line);
    let bytes = hex::decode(alloc, digits)?;
    let mut said = String::new(alloc);
    put_image(&mut said, alloc, &bytes)?;
    println!(rt; "{said}")?;
    match change {
        Some(change) => tell_changes(rt, alloc, Reader::Image, change, &bytes),
        None => Ok(()),
    }
}
