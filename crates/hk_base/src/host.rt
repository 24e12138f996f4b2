//! The outside of a program, as a trait: what is opened, read and written.

ghost use Rattle.std.specs.Prelude.{◌≡◌, ◌<◌, ◌↔◌, true, length, IsTrue};
ghost use Rattle.hk_base.specs.declared.host.Slot.TheVariants.{Out};
ghost use Rattle.hk_base.specs.Hosts.{View, Opens, Reads, Writes, CanRead, CanWrite, IsNamed};

use thiserror::Error;

/// What a program reads from or writes to. The model and the certificate that comes in are read;
/// the certificate that goes out and the program's own output are written.
#[derive(Clone, Copy, Debug)]
pub enum Slot {
    Model,
    CertIn,
    CertOut,
    Out,
}

/// A call of the host failed. The host's own counts of faults say that it did.
#[derive(Debug, Drop, Error)]
#[error("a call of the host failed")]
pub struct Failed;

/// The outside of a program: named inputs to read, and outputs to write.
///
/// What an implementation tells of its bytes is its own choice; what it tells moves as the calls
/// say. A call fails only where the matching count of faults rose.
pub trait Host {
    ghost view: { Self → View };

    /// Opens a slot by a name, for reading at the first byte or, at the certificate that goes
    /// out, for writing from nothing. The program's own output is open from the start.
    fn open_slot(&mut self, slot: Slot, name: &str) -> Result<(), Failed>
        requires named { IsNamed slot }
        requires lent { IsTrue ((view self.old).lends slot name.now) }
        ensures opens { Opens (view self.old) slot name.now result (view self.new) };

    /// Reads some bytes to the front of a buffer that is not empty, and says how many. None is the
    /// end of the input. After a failure nothing is said of the buffer.
    fn read(&mut self, slot: Slot, into: &mut [u8]) -> Result<usize, Failed>
        requires open { CanRead (view self.old) slot }
        requires room { 0 < length into.old }
        ensures reads { Reads (view self.old) slot result into.new (view self.new) };

    /// Writes some of the bytes, from the first on, and says how many, which is one at least.
    fn write(&mut self, slot: Slot, bytes: &[u8]) -> Result<usize, Failed>
        requires open { CanWrite (view self.old) slot }
        requires some { 0 < length bytes.now }
        ensures writes { Writes (view self.old) slot bytes.now result (view self.new) };

    ghost out_is_open: { (host : Self) → (view host).opened Out ≡ true };
}
