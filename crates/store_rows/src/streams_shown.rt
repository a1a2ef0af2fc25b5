use crate::replies::show_bytes;
use crate::rows::show_steps;
use anyhow::Result;
use block_stream::{BlockStream, Delayed};
use machine::DriveStop;
use multipart::{Parts, Uploads};
use s3_service::Service;

fn show_end(rt: &impl Print, stream: &BlockStream) -> Result<()> {
    println!(rt; "\n end: {:?}", stream.end())?;
    match stream.delayed() {
        Some(
            Delayed {
                upload,
                tags,
                length,
            },
        ) => print!(rt;
            " left: upload {upload}, tags {}, length {length}",
            tags.len()
        )?,
        None => print!(rt; " left: nothing")?,
    }
    Ok(())
}

fn show_parts(rt: &impl Print, parts: &Parts) -> Result<()> {
    for (number, bytes) in parts.iter() {
        print!(rt; " {number}:")?;
        show_bytes(rt, bytes)?;
    }
    Ok(())
}

fn show_uploads(rt: &impl Print, uploads: &Uploads) -> Result<()> {
    for live in uploads.iter() {
        print!(rt; " {} of {}", live.upload, live.key.as_text().as_str())?;
        show_parts(rt, live.parts)?;
    }
    Ok(())
}

fn show_store(rt: &impl Print, service: &Service) -> Result<()> {
    for bucket in service.iter() {
        print!(rt; "\n objects:")?;
        show_steps(rt, bucket.objects)?;
        print!(rt; "\n uploads:")?;
        show_uploads(rt, bucket.uploads)?;
    }
    Ok(())
}

/// Shows how the drive ended, how many requests were sent, how the stream ended, and what the store
/// has.
pub fn show_driven(
    rt: &impl Print,
    driven: Result<(), DriveStop>,
    requests: usize,
    stream: &BlockStream,
    service: &Service,
) -> Result<()> {
    print!(rt; "\n driven: {driven:?}, requests {requests}")?;
    show_end(rt, stream)?;
    show_store(rt, service)
}
