ghost use Rattle.std.specs.Prelude.{◌≡◌, ◌<◌, ◌^◌, ◌-◌, OnOk, OnErr};
ghost use Rattle.devices.specs.Devices.{Appends};
ghost use Rattle.audit_top.specs.Audited.{WritesSome};

use devices::{Failed, Sink};

/// Writes all bytes, piece by piece, and sees that they have gone out.
pub fn write_output<K: Sink>(out: &mut K, bytes: &[u8]) -> Result<(), Failed>
    ensures calm { OnOk result (K.faults out.new ≡ K.faults out.old) }
    ensures failed { OnErr result (K.faults out.old < 2 ^ 64 - 1 → K.faults out.old < K.faults out.new) }
    ensures written { OnOk result (Appends (K.written out.old) (K.written out.new) bytes.now) }
    ensures out { OnOk result (K.is_out out.new) }
    ensures partly { OnErr result (WritesSome (K.written out.old) (K.written out.new) bytes.now) }
{
    let mut rest = bytes;
    while !rest.is_empty() {
        let n = out.write(rest)?;
        if n == 0 {
            return Err(Failed);
        }
        let (_, others) = rest.split_at(n);
        rest = others;
    }
    out.flush()
}
