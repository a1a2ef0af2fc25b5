ghost use Rattle.std.specs.Prelude.{◌≡◌, Some, None, ◌<◌, ◌≤◌, ◌+◌, ◌-◌, length, take, drop, max, true, IfOk, OnOk, OnErr, IfSome, MatchOption, IsErrOf, slice_range};
ghost use Rattle.std.specs.List.{list_all};
ghost use Rattle.text_and_lists.specs.Parts.{is_other};
ghost use Rattle.devices.specs.Devices.{Rose, Takes};
ghost use Rattle.line_input.specs.Reading.{unread};
ghost use Rattle.line_input.specs.inner.Reading.{IsOver};
ghost use Rattle.line_input.specs.Buffers.{held_in};
ghost use Rattle.line_input.specs.inner.Buffers.{IsSound, IsLineEnd, IsEnd, line_at, rest_at};

use devices::{Failed, Source};
use memchr::memchr;
use std::alloc::{AllocError, Global};

/// The least number of bytes that is asked of the source at once.
pub const CHUNK_BYTES: usize = 65536;

/// Why no line was read.
#[derive(Clone, Copy, Debug, PartialEq, Eq)]
pub enum InputFault {
    /// A call of the source failed.
    Failed,
    /// Memory ran out.
    NoMemory,
}

/// Bytes that were read. Those before `given` were given to the caller. Those from there to
/// `filled` are held. The rest is room for more.
#[derive(Drop)]
pub struct Buffer {
    pub bytes: Vec<u8>,
    pub given: usize,
    pub filled: usize,
}

impl Buffer {
    /// An empty buffer. Takes no memory.
    pub fn new(alloc: Global) -> Buffer
        ensures sound { IsSound result }
        ensures empty { length result.bytes.items ≡ 0 }
    {
        Buffer {
            bytes: Vec::new(alloc),
            given: 0,
            filled: 0,
        }
    }
}

/// Moves the held bytes to the front.
fn to_front(buffer: &mut Buffer)
    requires { IsSound buffer.old }
    ensures sound { IsSound buffer.new }
    ensures same { held_in buffer.new ≡ held_in buffer.old }
    ensures filled { buffer.new.filled ≡ length (held_in buffer.old) }
    ensures size { length buffer.new.bytes.items ≡ length buffer.old.bytes.items }
{
    if buffer.given > 0 {
        buffer.bytes.copy_within(buffer.given..buffer.filled, 0);
        buffer.filled -= buffer.given;
        buffer.given = 0;
    }
}

/// Makes the vector at least this long, with zeros at its end.
fn grow(bytes: &mut Vec<u8>, wanted: usize) -> Result<(), AllocError>
    ensures front { take (length bytes.old.items) bytes.new.items ≡ bytes.old.items }
    ensures room { OnOk result (wanted ≤ length bytes.new.items) }
    ensures few { length bytes.new.items ≤ max (length bytes.old.items) wanted }
{
    if bytes.len() < wanted {
        return bytes.resize(wanted, 0);
    }
    Ok(())
}

/// Makes room for a chunk after the held bytes.
fn make_room(buffer: &mut Buffer) -> Result<(), AllocError>
    requires { IsSound buffer.old }
    ensures sound { IsSound buffer.new }
    ensures same { held_in buffer.new ≡ held_in buffer.old }
    ensures room { OnOk result (buffer.new.filled + CHUNK_BYTES ≤ length buffer.new.bytes.items) }
    ensures few { length buffer.new.bytes.items ≤ max (length buffer.old.bytes.items)
        (length (held_in buffer.old) + CHUNK_BYTES) }
{
    to_front(buffer);
    grow(&mut buffer.bytes, buffer.filled + CHUNK_BYTES)
}

/// Reads into the bytes after `filled`, and returns how many bytes came.
fn read_behind<Q: Source>(bytes: &mut [u8], filled: usize, input: &mut Q) -> Result<usize, Failed>
    requires { filled < length bytes.old }
    ensures calm { OnOk result (Q.faults input.new ≡ Q.faults input.old) }
    ensures failed { OnErr result (Rose (Q.faults input.old) (Q.faults input.new)) }
    ensures same { OnErr result (Q.left input.new ≡ Q.left input.old) }
    ensures front { take filled bytes.new ≡ take filled bytes.old }
    ensures count { IfOk result (λ n. filled + n ≤ length bytes.new) }
    ensures taken { IfOk result (λ n. Takes (Q.left input.old) (Q.left input.new) n (drop filled bytes.new)) }
{
    input.read(&mut bytes[filled..])
}

/// Reads a chunk after the held bytes, and returns how many bytes came: 0 at the end of the input.
fn fill<Q: Source>(buffer: &mut Buffer, input: &mut Q) -> Result<usize, InputFault>
    requires { IsSound buffer.old }
    ensures sound { IsSound buffer.new }
    ensures calm { OnOk result (Q.faults input.new ≡ Q.faults input.old) }
    ensures failed { IsErrOf result InputFault.Failed → Rose (Q.faults input.old) (Q.faults input.new) }
    ensures wanting { IsErrOf result InputFault.NoMemory → Q.faults input.new ≡ Q.faults input.old }
    ensures same { unread (held_in buffer.new) (Q.left input.new) ≡ unread (held_in buffer.old) (Q.left
        input.old) }
    ensures front { take (length (held_in buffer.old)) (held_in buffer.new) ≡ held_in buffer.old }
    ensures count { IfOk result (λ n. length (held_in buffer.new) ≡ length (held_in buffer.old) + n) }
    ensures over { IfOk result (λ n. n ≡ 0 → IsOver (Q.left input.new)) }
    ensures few { length buffer.new.bytes.items ≤ max (length buffer.old.bytes.items)
        (length (held_in buffer.old) + CHUNK_BYTES) }
{
    if make_room(buffer).is_err() {
        return Err(InputFault::NoMemory);
    }
    match read_behind(&mut buffer.bytes, buffer.filled, input) {
        Ok(n) => {
            buffer.filled += n;
            Ok(n)
        }
        Err(Failed) => Err(InputFault::Failed),
    }
}

/// Returns the place of the first line feed. The first `searched` bytes have none, and are not
/// searched again.
fn line_end(bytes: &[u8], searched: usize) -> Option<usize>
    requires within { searched ≤ length bytes.now }
    requires before { list_all (is_other 10) (take searched bytes.now) ≡ true }
    ensures { MatchOption result (list_all (is_other 10) bytes.now ≡ true) (λ n. IsLineEnd bytes.now n) }
{
    match memchr(b'\n', &bytes[searched..]) {
        Some(n) => Some(searched + n),
        None => None,
    }
}

/// Reads until a line feed is among the held bytes, more than `most` bytes are held, or the input
/// has ended. Returns the place of the first line feed among them, or None if they have none.
pub fn find_end<Q: Source>(
    buffer: &mut Buffer,
    input: &mut Q,
    most: usize,
) -> Result<Option<usize>, InputFault>
    requires { IsSound buffer.old }
    ensures sound { IsSound buffer.new }
    ensures calm { OnOk result (Q.faults input.new ≡ Q.faults input.old) }
    ensures failed { IsErrOf result InputFault.Failed → Rose (Q.faults input.old) (Q.faults input.new) }
    ensures wanting { IsErrOf result InputFault.NoMemory → Q.faults input.new ≡ Q.faults input.old }
    ensures same { unread (held_in buffer.new) (Q.left input.new) ≡ unread (held_in buffer.old) (Q.left
        input.old) }
    ensures end { IfOk result (λ end. IsEnd most (held_in buffer.new) (Q.left input.new) end) }
    ensures few { length buffer.new.bytes.items ≤ max (length buffer.old.bytes.items) (most + CHUNK_BYTES) }
{
    let mut searched = 0;
    loop {
        let end = line_end(&buffer.bytes[buffer.given..buffer.filled], searched);
        if end.is_some() {
            return Ok(end);
        }
        searched = buffer.filled - buffer.given;
        if searched > most {
            return Ok(None);
        }
        match fill(buffer, input) {
            Ok(0) => return Ok(None),
            Ok(_) => {}
            Err(fault) => return Err(fault),
        }
    }
}

/// Gives the line that ends there, with its line feed, or all held bytes. Returns the place in the
/// buffer where the line ends.
pub fn pass_line(buffer: &mut Buffer, end: Option<usize>) -> usize
    requires sound { IsSound buffer.old }
    requires within { IfSome end (λ n. n < length (held_in buffer.old)) }
    ensures sound { IsSound buffer.new }
    ensures same { buffer.new.bytes.items ≡ buffer.old.bytes.items }
    ensures line { slice_range buffer.old.bytes.items buffer.old.given result ≡ line_at (held_in buffer.old) end }
    ensures rest { held_in buffer.new ≡ rest_at (held_in buffer.old) end }
    ensures after { buffer.old.given ≤ result }
    ensures inside { result ≤ length buffer.old.bytes.items }
{
    match end {
        Some(n) => {
            let to = buffer.given + n;
            buffer.given = to + 1;
            to
        }
        None => {
            buffer.given = buffer.filled;
            buffer.filled
        }
    }
}
