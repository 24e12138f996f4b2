//! A host whose inputs and outputs stand in memory.

ghost use Rattle.std.specs.Prelude.{◌≡◌, ◌<◌, ◌+◌, ◌↔◌, [], ◌++◌, length, drop, reverse, min, refl, Some, None, IfOk, IfSome, OnOk, OnErr, IsErr, IsTrue};
ghost use Rattle.hk_base.specs.Calls.{one_more};
ghost use Rattle.hk_base.specs.Hosts.{View, Opens, Reads, Writes, CanRead, CanWrite, IsNamed, IsOutput};
ghost use Rattle.hk_base.specs.Inputs.{told_of, left_of, IsWithin};
ghost use Rattle.hk_base.specs.Memory.{Memory, view_of, empty_memory, holding, failing, output_of, with_output, OpensExactly, ReadsExactly, WritesExactly};
ghost use Rattle.hk_base.specs.inside.FaultCounts.{FaultsFit};

use crate::calls::{CallKind, Calls};
use crate::faults::fault;
use crate::host::{Failed, Host, Slot};
use crate::inputs::{Input, Reading, open_last, read_on};
use crate::list::List;
use crate::outputs::Output;
use std::alloc::{AllocError, Global};
use std::marker::Model;

/// A host whose inputs and outputs stand in memory, and whose calls fail where they are told to.
///
/// It lends every name for every slot, and tells all its bytes. Its calls as a host take no
/// memory: what is written goes into room that was set aside beforehand. A slot that was opened
/// for reading goes on with the bytes that its name had at the opening.
#[derive(Debug, Drop)]
pub struct MemoryHost {
    alloc: Global,
    inputs: List<Input>,
    model: Option<Reading>,
    cert_in: Option<Reading>,
    cert_out_open: bool,
    cert_out: Output,
    out: Output,
    openings: Calls,
    readings: Calls,
    writings: Calls,
    read_faults: u64,
    write_faults: u64,
}

impl Model for MemoryHost {
    ghost use Rattle.std.specs.Prelude.{reverse};
    ghost use Rattle.hk_base.specs.Inputs.{left_of, IsWithin};
    ghost use Rattle.hk_base.specs.Memory.{Memory};

    ghost Value = { Memory };

    ghost view = { λ h. record {
      inputs = reverse h.inputs;
      model = left_of h.inputs h.model;
      cert_in = left_of h.inputs h.cert_in;
      cert_out_open = h.cert_out_open;
      cert_out = h.cert_out;
      out = h.out;
      openings = h.openings;
      readings = h.readings;
      writings = h.writings;
      read_faults = h.read_faults;
      write_faults = h.write_faults;
    } };

    ghost invariant = { λ h. IsWithin h.inputs h.model × IsWithin h.inputs h.cert_in };
}

impl MemoryHost {
    /// A host with no inputs, nothing written, no room, no calls that are to fail, and no faults.
    pub fn new(alloc: Global) -> MemoryHost
        ensures { result ≡ empty_memory }
    {
        MemoryHost {
            alloc,
            inputs: List::new(alloc),
            model: None,
            cert_in: None,
            cert_out_open: false,
            cert_out: Output::new(alloc),
            out: Output::new(alloc),
            openings: Calls::new(alloc),
            readings: Calls::new(alloc),
            writings: Calls::new(alloc),
            read_faults: 0,
            write_faults: 0,
        }
    }

    /// Makes the named input hold these bytes, in the place of what it held.
    pub fn put(&mut self, name: &str, bytes: &[u8]) -> Result<(), AllocError>
        ensures ok { OnOk result (self.new ≡ holding self.old name.now bytes.now) }
        ensures err { OnErr result (self.new ≡ self.old) }
    {
        let input = Input::new(self.alloc, name.as_bytes(), bytes)?;
        self.inputs.push(input)?;
        Ok(())
    }

    /// Makes the call of this kind and number fail, where calls of a kind are numbered from 1.
    pub fn fail(&mut self, call: CallKind, number: u64) -> Result<(), AllocError>
        ensures ok { OnOk result (self.new ≡ failing self.old call number) }
        ensures err { OnErr result (self.new ≡ self.old) }
    {
        match call {
            CallKind::Opening => self.openings.fail_at(number),
            CallKind::Reading => self.readings.fail_at(number),
            CallKind::Writing => self.writings.fail_at(number),
        }
    }

    /// Gives a slot for writing a room of this many bytes, in which nothing is written.
    pub fn room(&mut self, slot: Slot, bytes: usize) -> Result<(), AllocError>
        requires { IsOutput slot }
        ensures ok { OnOk result (self.new ≡ with_output self.old slot (record { bytes = []; room = bytes })) }
        ensures err { OnErr result (self.new ≡ self.old) }
    {
        let output = Output::with_room(self.alloc, bytes)?;
        match slot {
            Slot::CertOut => self.cert_out = output,
            Slot::Out => self.out = output,
            Slot::Model | Slot::CertIn => unreachable!(),
        }
        Ok(())
    }

    /// The bytes that were written at a slot for writing.
    pub fn written(&self, slot: Slot) -> &[u8]
        requires { IsOutput slot }
        ensures { result.now ≡ (output_of self.now slot).bytes }
    {
        match slot {
            Slot::CertOut => self.cert_out.as_slice(),
            Slot::Out => self.out.as_slice(),
            Slot::Model | Slot::CertIn => unreachable!(),
        }
    }

    /// Opens a slot, as the host's call does.
    fn open(&mut self, slot: Slot, name: &str) -> Result<(), Failed>
        requires { IsNamed slot }
        ensures exactly { OpensExactly self.old slot name.now result self.new }
        ensures fit { FaultsFit self.old }
    {
        if self.openings.next_fails() {
            return match slot {
                Slot::Model | Slot::CertIn => Err(fault(&mut self.read_faults)),
                Slot::CertOut | Slot::Out => Err(fault(&mut self.write_faults)),
            };
        }
        match slot {
            Slot::Model => {
                let reading = open_input(self.inputs.as_slice(), name, &mut self.read_faults)?;
                self.model = Some(reading);
            }
            Slot::CertIn => {
                let reading = open_input(self.inputs.as_slice(), name, &mut self.read_faults)?;
                self.cert_in = Some(reading);
            }
            Slot::CertOut => {
                self.cert_out.clear();
                self.cert_out_open = true;
            }
            Slot::Out => unreachable!(),
        }
        Ok(())
    }

    /// Reads from a slot, as the host's call does.
    fn read_left(&mut self, slot: Slot, into: &mut [u8]) -> Result<usize, Failed>
        requires { CanRead (view_of self.old) slot }
        ensures exactly { ReadsExactly self.old slot into.old result into.new self.new }
        ensures fit { FaultsFit self.old }
    {
        if self.readings.next_fails() {
            return Err(fault(&mut self.read_faults));
        }
        match slot {
            Slot::Model => {
                let Some(reading) = self.model else {
                    unreachable!()
                };
                let (next, count) = read_on(self.inputs.as_slice(), reading, into);
                self.model = Some(next);
                Ok(count)
            }
            Slot::CertIn => {
                let Some(reading) = self.cert_in else {
                    unreachable!()
                };
                let (next, count) = read_on(self.inputs.as_slice(), reading, into);
                self.cert_in = Some(next);
                Ok(count)
            }
            Slot::CertOut | Slot::Out => unreachable!(),
        }
    }

    /// Writes through a slot, as the host's call does.
    fn write_whole(&mut self, slot: Slot, bytes: &[u8]) -> Result<usize, Failed>
        requires { CanWrite (view_of self.old) slot }
        ensures exactly { WritesExactly self.old slot bytes.now result self.new }
        ensures fit { FaultsFit self.old }
    {
        if self.writings.next_fails() {
            return Err(fault(&mut self.write_faults));
        }
        match slot {
            Slot::CertOut => write_piece(&mut self.cert_out, bytes, &mut self.write_faults),
            Slot::Out => write_piece(&mut self.out, bytes, &mut self.write_faults),
            Slot::Model | Slot::CertIn => unreachable!(),
        }
    }
}

impl Host for MemoryHost {
    ghost view = { view_of };

    ghost out_is_open = { λ host. refl };

    fn open_slot(&mut self, slot: Slot, name: &str) -> Result<(), Failed>
        requires { IsNamed slot }
        ensures opens { Opens (view_of self.old) slot name.now result (view_of self.new) }
        ensures exactly { OpensExactly self.old slot name.now result self.new }
    {
        self.open(slot, name)
    }

    fn read(&mut self, slot: Slot, into: &mut [u8]) -> Result<usize, Failed>
        requires open { CanRead (view_of self.old) slot }
        requires room { 0 < length into.old }
        ensures reads { Reads (view_of self.old) slot result into.new (view_of self.new) }
        ensures exactly { ReadsExactly self.old slot into.old result into.new self.new }
    {
        self.read_left(slot, into)
    }

    fn write(&mut self, slot: Slot, bytes: &[u8]) -> Result<usize, Failed>
        requires open { CanWrite (view_of self.old) slot }
        requires some { 0 < length bytes.now }
        ensures writes { Writes (view_of self.old) slot bytes.now result (view_of self.new) }
        ensures exactly { WritesExactly self.old slot bytes.now result self.new }
    {
        self.write_whole(slot, bytes)
    }
}

/// Begins to read the input of a name, or counts a fault where there is none.
fn open_input(inputs: &[Input], name: &str, faults: &mut u64) -> Result<Reading, Failed>
    ensures found { IfOk result (λ reading. IsWithin inputs.now (Some reading)) }
    ensures told { IfOk result (λ reading. left_of inputs.now (Some reading) ≡ told_of (reverse inputs.now) name.now) }
    ensures quiet { OnOk result (faults.new ≡ faults.old) }
    ensures absent { OnErr result (told_of (reverse inputs.now) name.now ≡ None) }
    ensures counted { OnErr result (faults.new ≡ one_more faults.old) }
{
    match open_last(inputs, name.as_bytes()) {
        Some(reading) => Ok(reading),
        None => Err(fault(faults)),
    }
}

/// Writes a piece whole, or counts a fault where there is no room for it.
fn write_piece(output: &mut Output, piece: &[u8], faults: &mut u64) -> Result<usize, Failed>
    ensures fails { IsErr result ↔ (output.old.room < length output.old.bytes + length piece.now) }
    ensures whole { IfOk result (λ count. count ≡ length piece.now) }
    ensures written { OnOk result (output.new ≡ record output.old { bytes = output.old.bytes ++ piece.now }) }
    ensures quiet { OnOk result (faults.new ≡ faults.old) }
    ensures unchanged { OnErr result (output.new ≡ output.old) }
    ensures counted { OnErr result (faults.new ≡ one_more faults.old) }
{
    if output.take(piece) {
        Ok(piece.len())
    } else {
        Err(fault(faults))
    }
}
