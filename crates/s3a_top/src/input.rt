ghost use Rattle.std.specs.Prelude.{◌≡◌, ◌<◌, ◌≤◌, ◌^◌, ◌-◌, ◌+◌, IfOk, OnOk, IsErrOf, vec_len};
ghost use Rattle.s3a_top.specs.Bytes.{IsRead, TakesPart};

use devices::{Failed, Source};
use s3_types::MOST_SCRIPT_BYTES;
use std::alloc::{AllocError, AllocFailed, Global};

/// Why the input could not be read.
#[derive(Clone, Copy, PartialEq, Eq)]
pub enum InputFault {
    Failed,
    NoMemory,
}

/// Reads the input to its end, but no more than `MOST_SCRIPT_BYTES + 1` bytes. Fails with `Failed`
/// if the input fails, and with `NoMemory` if memory runs out.
pub fn read_input<Q: Source>(alloc: Global, input: &mut Q) -> Result<Vec<u8>, InputFault>
    ensures calm { OnOk result (Q.faults input.new ≡ Q.faults input.old) }
    ensures failed { IsErrOf result InputFault.Failed → Q.faults input.old < 2 ^ 64 - 1 → Q.faults input.old
        < Q.faults input.new }
    ensures wanting { IsErrOf result InputFault.NoMemory → Q.faults input.new ≡ Q.faults input.old }
    ensures few { IfOk result (λ bytes. vec_len bytes ≤ MOST_SCRIPT_BYTES + 1) }
    ensures part { TakesPart (Q.left input.old) (Q.left input.new) }
    ensures read { IfOk result (λ all. IsRead (Q.left input.old) (Q.left input.new) all.items) }
{
    let mut all = Vec::new(alloc);
    let mut chunk = [0u8; 65536];
    while all.len() <= MOST_SCRIPT_BYTES as usize {
        let room = (MOST_SCRIPT_BYTES as usize + 1 - all.len()).min(65536);
        match input.read(&mut chunk[..room]) {
            Ok(0) => return Ok(all),
            Ok(n) => {
                if all.extend_from_slice(&chunk[..n]).is_err() {
                    return Err(InputFault::NoMemory);
                }
            }
            Err(Failed) => return Err(InputFault::Failed),
        }
    }
    Ok(all)
}
