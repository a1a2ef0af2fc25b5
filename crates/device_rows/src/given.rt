use anyhow::Result;
use s3_types::{Bytes, Text};
use std::alloc::{AllocError, Global};

/// The first lines of a script.
const HEAD: &str = "job j1\ndest s3a://lake/out\ncommitter magic\n";

/// The image of a store with the bucket `lake`, up to the number of its objects.
const LAKE: [u8; 38] = *b"S3AIMG01\0\0\0\0\0\x50\0\0\0\0\0\0\0\0\0\x01\0\0\0\0\0\0\0\x01\0\x04lake";

/// An object of one byte without a header, as it follows its key.
const ONE_BYTE: [u8; 17] = *b"\0\0\0\0\0\0\0\0\0\0\0\0\0\0\0\x01x";

/// What a run is given: its words, its input, and the file that the disk has at first.
#[derive(Drop)]
pub struct Given {
    pub words: Vec<Text>,
    pub input: Vec<u8>,
    pub file: Option<Bytes>,
    pub alloc: Global,
}

impl Given {
    /// No words, no input and no file.
    pub fn new(alloc: Global) -> Given {
        Given {
            words: Vec::new(alloc),
            input: Vec::new(alloc),
            file: None,
            alloc,
        }
    }
}

/// The words of a command, which are separated by blanks.
pub fn words_in(alloc: Global, line: &str) -> Result<Vec<Text>, AllocError> {
    let mut words = Vec::new(alloc);
    for word in line.split_whitespace() {
        words.push(Text::copied(alloc, word)?)?;
    }
    Ok(words)
}

/// The input that a text stands for.
pub fn input_in(alloc: Global, text: &str) -> Result<Vec<u8>, AllocError> {
    let mut bytes = Vec::new(alloc);
    for b in text.as_bytes() {
        match *b {
            b'@' => bytes.extend_from_slice(HEAD.as_bytes())?,
            b'|' => bytes.push(b'\n')?,
            other => bytes.push(other)?,
        }
    }
    Ok(bytes)
}

/// The bytes of the file in hex digits, or None if there are no digits.
pub fn file_in(alloc: Global, digits: &str) -> Result<Option<Bytes>> {
    if digits.is_empty() {
        return Ok(None);
    }
    let bytes = hex::decode(alloc, digits)?;
    Ok(Some(Bytes::new(alloc, bytes)?))
}

/// Adds an object of one byte at a key that is the front and a number.
fn put_object(
    alloc: Global,
    image: &mut Vec<u8>,
    front: &str,
    number: u32,
) -> Result<(), AllocError> {
    let key = format!(in alloc; "{front}{number:04}")?;
    let length = (key.len() % 65536) as u16;
    image.extend_from_slice(&length.to_be_bytes())?;
    image.extend_from_slice(key.as_bytes())?;
    image.extend_from_slice(&ONE_BYTE)
}

/// The image of a store with so many objects in its bucket.
pub fn image_of_keys(alloc: Global, count: u32, front: &str) -> Result<Bytes, AllocError> {
    let mut image = Vec::new(alloc);
    image.extend_from_slice(&LAKE)?;
    image.extend_from_slice(&(count as u64).to_be_bytes())?;
    for number in 0..count {
        put_object(alloc, &mut image, front, number)?;
    }
    image.extend_from_slice(&0u64.to_be_bytes())?;
    Bytes::new(alloc, image)
}
