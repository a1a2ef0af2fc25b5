//! Lines of a source that gives three bytes at a time.
ghost use Rattle.std.specs.Prelude.{None};

use crate::{InputFault, LineInput};
use devices::{CallList, Failed, MemSource, Source};
use s3_types::Bytes;
use std::alloc::{AllocError, Global};
use std::test::Fail;

/// A source that gives three bytes at a time, and shows nothing of them.
#[derive(Drop)]
struct Slow {
    source: MemSource,
}

impl Source for Slow {
    ghost left = { λ s. None };

    ghost faults = { λ s. s.source.calls.faults };

    ghost answers = { λ s t. Unit {0} };

    ghost fails = { λ s t. Unit {0} };

    fn read(&mut self, buffer: &mut [u8]) -> Result<usize, Failed> {
        let n = buffer.len().min(3);
        self.source.read(&mut buffer[..n])
    }
}

/// The text as a source. One call of it fails.
fn source_of(alloc: Global, text: &[u8], fail: u64) -> Result<Slow, AllocError> {
    let mut calls = Vec::new(alloc);
    calls.push(fail)?;
    Ok(Slow {
        source: MemSource::new(Bytes::from_slice(alloc, text)?, CallList::from_vec(calls)),
    })
}

/// Each line with a bar after it, an exclamation mark for each failed call, and a dot for the end.
fn read_all(alloc: Global, text: &[u8], most: usize, fail: u64) -> Result<Vec<u8>, AllocError> {
    let mut source = source_of(alloc, text, fail)?;
    let mut input = LineInput::new(alloc);
    let mut all = Vec::new(alloc);
    for _ in 0..20 {
        match input.next(&mut source, most) {
            Ok(true) => {
                all.extend_from_slice(input.line())?;
                all.push(b'|')?;
            }
            Ok(false) => {
                all.push(b'.')?;
                return Ok(all);
            }
            Err(InputFault::Failed) => all.push(b'!')?,
            Err(InputFault::NoMemory) => return Err(AllocError),
        }
    }
    Ok(all)
}

#[test]
fn lines_come_one_by_one(rt: HostRuntime) -> Result<(), Fail> {
    let rows = [
        ("", 7, 0, "."),
        ("\n", 7, 0, "|."),
        ("ab\n\r\n\nabcdefg\nlast", 7, 0, "ab|\r||abcdefg|last|."),
        ("ab\n\r\n\nabcdefg\nlast", 7, 4, "ab|\r||!abcdefg|last|."),
        ("ab\n\r\n\nabcdefg\nlast", 7, 7, "ab|\r||abcdefg|!last|."),
        ("abcdefgh", 7, 0, "abcdefgh|."),
    ];
    for (text, most, fail, lines) in rows {
        let all = read_all(rt.alloc(), text.as_bytes(), most, fail)?;
        assert_eq!(rt; all.as_slice(), lines.as_bytes(), "in {text:?}");
    }
    Ok(())
}
