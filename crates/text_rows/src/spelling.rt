use anyhow::{Context, Result};
use std::alloc::{AllocError, Global};

const ORDINARY: &str = "job j1\ndest s3a://lake/out\ncommitter magic\ntasks 1\nattempt 0.0\n";

fn byte_of(b: u8) -> u8 {
    match b {
        b'|' => b'\n',
        b'^' => b'\r',
        b'~' => 255,
        _ => b,
    }
}

/// Adds the bytes that a text without repetitions stands for.
pub fn put(bytes: &mut Vec<u8>, text: &str) -> Result<(), AllocError> {
    for b in text.as_bytes() {
        if *b == b'@' {
            bytes.extend_from_slice(ORDINARY.as_bytes())?;
        } else {
            bytes.push(byte_of(*b))?;
        }
    }
    Ok(())
}

fn put_turn(alloc: Global, bytes: &mut Vec<u8>, text: &str, turn: u32) -> Result<(), AllocError> {
    for b in text.as_bytes() {
        if *b == b'%' {
            let number = format!(in alloc; "{turn}")?;
            bytes.extend_from_slice(number.as_bytes())?;
        } else if *b == b'$' {
            let hundreds = turn / 100;
            let rest = turn % 100;
            let name = format!(in alloc; "{hundreds}.{rest}")?;
            bytes.extend_from_slice(name.as_bytes())?;
        } else {
            bytes.push(byte_of(*b))?;
        }
    }
    Ok(())
}

fn put_turns(alloc: Global, bytes: &mut Vec<u8>, many: &str) -> Result<()> {
    let (count, text) = many.split_once(':').context("a count and a text")?;
    let count = count.parse::<u32>().context("a count")?;
    let numbered = text.contains('%') || text.contains('$');
    let mut same = Vec::new(alloc);
    put(&mut same, text)?;
    for turn in 1..=count {
        if numbered {
            put_turn(alloc, bytes, text, turn)?;
        } else {
            bytes.extend_from_slice(&same)?;
        }
    }
    Ok(())
}

/// The bytes that a line of the input stands for.
pub fn spelled(alloc: Global, line: &str) -> Result<Vec<u8>> {
    let mut bytes = Vec::new(alloc);
    match line.split_once('{') {
        Some((front, many)) => {
            put(&mut bytes, front)?;
            put_turns(alloc, &mut bytes, many)?;
        }
        None => put(&mut bytes, line)?,
    }
    Ok(bytes)
}
