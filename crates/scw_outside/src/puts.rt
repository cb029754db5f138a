//! Putting a whole text into a sink.

ghost use Rattle.std.specs.Prelude.{◌≡◌, ◌-◌, ◌≤◌, length, Some, IfSome, OnOk, OnErr, IsOk};
ghost use Rattle.std.specs.Io.KnownBytes.{append_known};
ghost use Rattle.scw_outside.specs.Causes.{HasCause};
ghost use Rattle.scw_outside.specs.Puts.{TookPart};

use crate::sink::{Sink, SinkFailed};

/// Puts all the bytes, in as many calls as the sink needs. `SinkFailed` where one of them fails; the
/// sink then has a front of the bytes.
pub fn put_all<O: Sink>(out: &mut O, bytes: &[u8]) -> Result<(), SinkFailed>
    ensures done { OnOk result (O.taken out.new ≡ append_known (O.taken out.old) bytes.now) }
    ensures left { OnOk result (IfSome (O.room out.old) (λ r. O.room out.new ≡ Some (r - length bytes.now))) }
    ensures part { OnErr result (TookPart (O.taken out.old) (O.taken out.new) bytes.now) }
    ensures sure { IfSome (O.room out.old) (λ r. length bytes.now ≤ r → IsOk result) }
    ensures cause { HasCause (O.fault_count out.old) (O.fault_count out.new) result (record {}) }
{
    let mut count = 0;
    while count < bytes.len() {
        count += out.put(&bytes[count..])?;
    }
    Ok(())
}
