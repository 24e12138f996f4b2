//! Lists and hosts in memory: what is read, written and refused.

ghost use Rattle.std.specs.Prelude.{◌<◌, length, IsTrue};
ghost use Rattle.hk_base.specs.declared.host.Slot.TheVariants.{Model};
ghost use Rattle.hk_base.specs.Hosts.{View};

use hk_base::{Bytes, CallKind, Failed, Gate, Host, List, MemoryHost, Slot, write_all};
use std::alloc::{AllocError, Global};
use std::test::Fail;

/// A gate that does nothing.
struct Open;

impl Gate for Open {
    fn enter(&self, _piece: u32) {}
}

/// Gives a host one input and room for four bytes of output, and makes its second reading fail.
fn prepare(host: &mut MemoryHost) -> Result<(), AllocError> {
    host.put("pairs", b"var x")?;
    host.room(Slot::Out, 4)?;
    host.fail(CallKind::Reading, 2)
}

/// What three readings answer, with 9 for one that failed.
fn three_readings<H: Host>(host: &mut H, name: &str, into: &mut [u8]) -> Result<[usize; 3], Failed>
    requires lent { IsTrue ((H.view host.old).lends Model name.now) }
    requires room { 0 < length into.old }
{
    host.open_slot(Slot::Model, name)?;
    let first = host.read(Slot::Model, into).unwrap_or(9);
    let second = host.read(Slot::Model, into).unwrap_or(9);
    let third = host.read(Slot::Model, into).unwrap_or(9);
    Ok([first, second, third])
}

/// What three readings of an input answer, and what the last of them leaves in a buffer of three bytes.
fn read_pairs(host: &mut MemoryHost) -> Result<([usize; 3], [u8; 3]), Failed> {
    let mut piece = [0; 3];
    let answers = three_readings(host, "pairs", &mut piece)?;
    Ok((answers, piece))
}

/// Whether a name with no input is refused.
fn refuses_absent(host: &mut MemoryHost) -> bool {
    three_readings(host, "absent", &mut [0; 3]).is_err()
}

/// Whether three bytes are written, and two more are refused and leave nothing.
fn writes_three(host: &mut MemoryHost) -> bool {
    write_all(host, Slot::Out, b"sol").is_ok()
        && host.write(Slot::Out, b"ve").is_err()
        && host.written(Slot::Out) == b"sol".as_slice()
}

/// What a host answers: three readings and their buffer, whether it refuses a name that it doesn't have, and
/// whether it writes what it has room for.
fn answers(host: &mut MemoryHost) -> Result<([usize; 3], [u8; 3], bool, bool), Fail> {
    prepare(host)?;
    let (answers, piece) = read_pairs(host)?;
    let refuses = refuses_absent(host);
    Ok((answers, piece, refuses, writes_three(host)))
}

/// The same of a new host.
fn answers_of_new(alloc: Global) -> Result<([usize; 3], [u8; 3], bool, bool), Fail> {
    let mut host = MemoryHost::new(alloc);
    answers(&mut host)
}

#[test]
fn hosts_read_and_write(rt: HostRuntime) -> Result<(), Fail> {
    let answers = answers_of_new(rt.alloc())?;
    assert_eq!(rt; answers, ([3, 9, 2], *b" xr", true, true));
    Open.enter(1);
    Ok(())
}

/// How many bytes a list has after it gets these and one more.
fn listed(list: &mut Bytes, bytes: &[u8]) -> Result<usize, AllocError> {
    list.push_all(bytes)?;
    list.push(b'y')?;
    Ok(list.as_slice().len())
}

/// Gives a host an input without a name, room for so many bytes of output, and makes its second writing fail.
fn furnish(host: &mut MemoryHost, input: &[u8], size: usize) -> Result<(), AllocError> {
    host.put("", input)?;
    host.room(Slot::Out, size)?;
    host.fail(CallKind::Writing, 2)
}

/// How many bytes come back of an output with room for these alone, at a host that gets this input.
fn write_out(host: &mut MemoryHost, input: &[u8], bytes: &[u8]) -> Result<usize, Fail> {
    furnish(host, input, bytes.len())?;
    write_all(host, Slot::Out, bytes)?;
    Ok(host.written(Slot::Out).len())
}

/// The same at a new host.
fn written(alloc: Global, input: &[u8], bytes: &[u8]) -> Result<usize, Fail> {
    let mut host = MemoryHost::new(alloc);
    write_out(&mut host, input, bytes)
}

/// How many bytes come back of a list and of an output that get these, the list one more.
fn sizes_of_bytes(alloc: Global, bytes: &[u8]) -> Result<(usize, usize), Fail> {
    let mut list = List::new(alloc);
    let longer = listed(&mut list, bytes)?;
    let size = written(alloc, list.as_slice(), bytes)?;
    Ok((longer, size))
}

/// How many bytes come back of a list and of an output that get so many, the list one more.
fn sizes_of(alloc: Global, size: usize) -> Result<(usize, usize), Fail> {
    let mut bytes = Vec::new(alloc);
    bytes.resize(size, b'x')?;
    sizes_of_bytes(alloc, bytes.as_slice())
}

#[test]
fn lists_and_hosts_take_no_bytes_and_many(rt: HostRuntime) -> Result<(), Fail> {
    for (size, longer) in [(0, 1), (1, 2), (1_048_577, 1_048_578)] {
        assert_eq!(rt; sizes_of(rt.alloc(), size)?, (longer, size));
    }
    Ok(())
}
