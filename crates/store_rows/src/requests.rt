use crate::spelling::{cut, plain, spelled};
use anyhow::{Context, Result, bail};
use log_format::{LogFault, read_log};
use s3_service::Service;
use s3_types::{Bucket, Bytes, Key, PageLimit, Reply, Request, Text, let_go};
use std::alloc::{AllocError, Global};

/// The bytes before a change's length in a log without a base.
const HEAD: [u8; 17] = *b"S3ALOG01\0\0\0\0\0\0\0\0\x01";

/// Applies a request to the store. Fails for a request to the cluster, or if the store's counter of
/// uploads is over 2^62.
fn send(service: &mut Service, request: &Request) -> Result<Reply, AllocError> {
    if request.is_cluster() || service.next_upload() > 1 << 62 {
        return Err(AllocError);
    }
    service.apply(request)
}

/// Applies a request that was made, or passes on the fault.
fn reply_to(service: &mut Service, made: Result<Request, AllocError>) -> Result<Reply> {
    match made {
        Ok(request) => {
            let reply = send(service, &request);
            let_go(request);
            Ok(reply?)
        }
        Err(fault) => Err(fault.into()),
    }
}

/// A log of one change, from the change's bytes.
fn log_of(alloc: Global, change: &[u8]) -> Result<Bytes, AllocError> {
    let mut log = Vec::from_slice(alloc, &HEAD)?;
    log.extend_from_slice(&(change.len() as u64).to_be_bytes())?;
    log.extend_from_slice(change)?;
    log.push(0)?;
    Bytes::new(alloc, log)
}

fn first_reply(service: &mut Service, changes: &[Request]) -> Result<Reply> {
    match changes.first() {
        Some(change) => Ok(send(service, change)?),
        None => bail!("no change"),
    }
}

/// Applies the change that a log has.
fn change_by(alloc: Global, service: &mut Service, log: &Bytes) -> Result<Reply> {
    match read_log(alloc, log) {
        Ok(held) => {
            let reply = first_reply(service, held.changes.as_slice());
            let_go(held);
            reply
        }
        Err(LogFault::Bad(place)) => bail!("bad at {place}"),
        Err(LogFault::NoMemory) => Err(AllocError.into()),
    }
}

/// Applies a change given as the bytes of a log's record.
fn change(alloc: Global, service: &mut Service, words: &str) -> Result<Reply> {
    let bytes = spelled(alloc, words)?;
    let log = log_of(alloc, &bytes)?;
    change_by(alloc, service, &log)
}

fn limit_in(word: &str) -> Result<PageLimit> {
    let limit = word.parse::<u16>().context("a limit")?;
    Ok(PageLimit::new(limit.clamp(1, PageLimit::MOST)))
}

/// `flat|folded PREFIX AFTER LIMIT`
fn page(alloc: Global, service: &mut Service, bucket: &Bucket, words: &str) -> Result<Reply> {
    let (kind, words) = cut(words);
    let (prefix, words) = cut(words);
    let (after, limit) = cut(words);
    let limit = limit_in(limit)?;
    let prefix = Text::copied(alloc, plain(prefix))?;
    let after = Text::copied(alloc, plain(after))?;
    let delimited = kind == "folded";
    reply_to(
        service,
        Request::list_page(bucket, &prefix, delimited, &after, limit),
    )
}

/// `PREFIX LIMIT`
fn uploads(alloc: Global, service: &mut Service, bucket: &Bucket, words: &str) -> Result<Reply> {
    let (prefix, limit) = cut(words);
    let limit = limit_in(limit)?;
    let prefix = Text::copied(alloc, plain(prefix))?;
    reply_to(
        service,
        Request::list_uploads(bucket, &prefix, &None, limit),
    )
}

/// `get|head KEY`, or `parts KEY UPLOAD`.
fn look(
    alloc: Global,
    service: &mut Service,
    bucket: &Bucket,
    verb: &str,
    words: &str,
) -> Result<Reply> {
    let (key, upload) = cut(words);
    let upload = upload.parse::<u64>().unwrap_or(0);
    let key = Key::read(alloc, key.as_bytes())?;
    let made = match verb {
        "get" => Request::get_object(bucket, &key),
        "head" => Request::head_object(bucket, &key),
        _ => Request::list_parts(bucket, &key, upload),
    };
    reply_to(service, made)
}

/// The reply to the request that the words spell. A request that changes nothing is about the
/// bucket `lake`.
pub fn answer(alloc: Global, service: &mut Service, words: &str) -> Result<Reply> {
    let (verb, rest) = cut(words);
    let bucket = Bucket::read(alloc, b"lake")?;
    match verb {
        "do" => change(alloc, service, rest),
        "page" => page(alloc, service, &bucket, rest),
        "uploads" => uploads(alloc, service, &bucket, rest),
        _ => look(alloc, service, &bucket, verb, rest),
    }
}
