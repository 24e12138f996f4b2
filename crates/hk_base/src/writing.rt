//! Bytes that go out whole, over calls that each write a part.

ghost use Rattle.std.specs.Prelude.{◌≡◌, OnOk, OnErr};
ghost use Rattle.hk_base.specs.Hosts.{View, CanWrite, Wrote, WroteFront, WriteFaulted};

use crate::host::{Failed, Host, Slot};

/// Writes all these bytes through a slot, with no failed call on the way. At the first call that fails it
/// ends, and a front of the bytes went out.
pub fn write_all<H: Host>(host: &mut H, slot: Slot, bytes: &[u8]) -> Result<(), Failed>
    requires { CanWrite (H.view host.old) slot }
    ensures whole { OnOk result (Wrote slot bytes.now (H.view host.old) (H.view host.new)) }
    ensures quiet { OnOk result ((H.view host.new).write_faults ≡ (H.view host.old).write_faults) }
    ensures front { OnErr result (WroteFront slot bytes.now (H.view host.old) (H.view host.new)) }
    ensures faulted { OnErr result (WriteFaulted (H.view host.old) (H.view host.new)) }
{
    let mut rest = bytes;
    'pieces: while !rest.is_empty() {
        let count = host.write(slot, rest)?;
        let (_, after) = rest.split_at(count);
        rest = after;
    }
    Ok(())
}
