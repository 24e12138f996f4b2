//! The files and the standard output of the system, as a host.

ghost use Rattle.std.specs.Prelude.{◌≡◌, ◌≤◌, length, is_some, IfOk, IsNone, IsSome, OnErr, OnOk};
ghost use Rattle.hk_base.specs.Hosts.{IsHigher};

use hk_base::{Failed, Host, Slot, fault};
use std::io::{Read, Write};
use std::rt::Files;
use std::{fs, io};

/// The host of the program: named files and standard output. It lends every name and tells nothing
/// of bytes. What it writes goes to the system at once.
#[derive(Drop)]
pub struct RealHost<'a, R: Files + Print> {
    rt: &'a R,
    model: Option<R::File>,
    cert_in: Option<R::File>,
    cert_out: Option<R::File>,
    read_faults: u64,
    write_faults: u64,
}

impl<'a, R: Files + Print> RealHost<'a, R> {
    /// No file is open, and no call has failed.
    pub fn new(rt: &'a R) -> RealHost<'a, R>
        ensures closed { IsNone result.model × IsNone result.cert_in × IsNone result.cert_out }
        ensures quiet { (result.read_faults ≡ 0) × (result.write_faults ≡ 0) }
    {
        RealHost {
            rt,
            model: None,
            cert_in: None,
            cert_out: None,
            read_faults: 0,
            write_faults: 0,
        }
    }
}

impl<'a, R: Files + Print> Host for RealHost<'a, R> {
    ghost use Rattle.std.specs.Prelude.{is_some, refl};
    ghost use Rattle.hkdd.specs.System.{system_view};

    ghost view = { λ host. system_view (is_some host.model) (is_some host.cert_in) (is_some host.cert_out) host.read_faults host.write_faults };

    fn open_slot(&mut self, slot: Slot, name: &str) -> Result<(), Failed> {
        match slot {
            Slot::Model => {
                let Ok(file) = fs::open(self.rt, name) else {
                    return Err(fault(&mut self.read_faults));
                };
                self.model = Some(file);
                Ok(())
            }
            Slot::CertIn => {
                let Ok(file) = fs::open(self.rt, name) else {
                    return Err(fault(&mut self.read_faults));
                };
                self.cert_in = Some(file);
                Ok(())
            }
            Slot::CertOut => {
                let Ok(file) = fs::create(self.rt, name) else {
                    return Err(fault(&mut self.write_faults));
                };
                self.cert_out = Some(file);
                Ok(())
            }
            Slot::Out => unreachable!(),
        }
    }

    fn read(&mut self, slot: Slot, into: &mut [u8]) -> Result<usize, Failed> {
        match slot {
            Slot::Model => read_some(&mut self.model, into, &mut self.read_faults),
            Slot::CertIn => read_some(&mut self.cert_in, into, &mut self.read_faults),
            Slot::CertOut | Slot::Out => unreachable!(),
        }
    }

    fn write(&mut self, slot: Slot, bytes: &[u8]) -> Result<usize, Failed> {
        match slot {
            Slot::CertOut => match &mut self.cert_out {
                Some(file) => write_some(file, bytes, &mut self.write_faults),
                None => unreachable!(),
            },
            Slot::Out => write_some(&mut io::writer(self.rt), bytes, &mut self.write_faults),
            Slot::Model | Slot::CertIn => unreachable!(),
        }
    }

    ghost out_is_open = { λ host. refl };
}

/// Reads some bytes of an open file, or counts a fault.
fn read_some<F: Read>(
    file: &mut Option<F>,
    into: &mut [u8],
    faults: &mut u64,
) -> Result<usize, Failed>
    requires { IsSome file.old }
    ensures same { is_some file.new ≡ is_some file.old }
    ensures within { IfOk result (λ count. count ≤ length into.new) }
    ensures ok { OnOk result (faults.new ≡ faults.old) }
    ensures err { OnErr result (IsHigher faults.old faults.new) }
{
    match file {
        Some(open) => match open.read(into) {
            Ok(count) => Ok(count),
            Err(_) => Err(fault(faults)),
        },
        None => unreachable!(),
    }
}

/// Writes some bytes, one at least, or counts a fault.
fn write_some<W: Write>(to: &mut W, bytes: &[u8], faults: &mut u64) -> Result<usize, Failed>
    ensures some { IfOk result (λ count. 1 ≤ count) }
    ensures within { IfOk result (λ count. count ≤ length bytes.now) }
    ensures ok { OnOk result (faults.new ≡ faults.old) }
    ensures err { OnErr result (IsHigher faults.old faults.new) }
{
    match to.write(bytes) {
        Ok(0) => Err(fault(faults)),
        Ok(count) => Ok(count),
        Err(_) => Err(fault(faults)),
    }
}
