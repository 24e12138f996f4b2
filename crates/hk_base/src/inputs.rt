//! The named inputs of a host in memory, and reading on in one of them.

ghost use Rattle.std.specs.Prelude.{◌≡◌, ◌<◌, ◌≤◌, ◌+◌, length, min, reverse, Some, None, take, drop, IfSome, IfNone, IfOk};
ghost use Rattle.hk_base.specs.Inputs.{told_of, bytes_at, left_of, IsWithin};

use crate::list::{Bytes, List};
use std::alloc::{AllocError, Global};

/// Bytes that can be read by a name.
#[derive(Debug, Drop)]
pub struct Input {
    name: Bytes,
    bytes: Bytes,
}

impl Input {
    /// An input that holds copies of a name and of bytes.
    pub fn new(alloc: Global, name: &[u8], bytes: &[u8]) -> Result<Input, AllocError>
        ensures { IfOk result (λ input. input ≡ record { name = name.now; bytes = bytes.now }) }
    {
        let mut input = Input {
            name: List::new(alloc),
            bytes: List::new(alloc),
        };
        input.name.push_all(name)?;
        input.bytes.push_all(bytes)?;
        Ok(input)
    }
}

/// Which of a list of inputs is read, and how many of its bytes were.
#[derive(Clone, Copy, Debug)]
pub struct Reading {
    pub input: usize,
    pub at: usize,
}

/// The reading of the last of the inputs that has this name, from its first byte.
pub fn open_last(inputs: &[Input], name: &[u8]) -> Option<Reading>
    ensures found { IfSome result (λ reading. IsWithin inputs.now (Some reading)) }
    ensures told { left_of inputs.now result ≡ told_of (reverse inputs.now) name.now }
{
    let mut input = inputs.len();
    'inputs: while input > 0 {
        input -= 1;
        if inputs[input].name.as_slice() == name {
            return Some(Reading { input, at: 0 });
        }
    }
    None
}

/// The bytes of the input at a place.
fn bytes_of(inputs: &[Input], place: usize) -> &[u8]
    requires { place < length inputs.now }
    ensures { result.now ≡ bytes_at inputs.now place }
{
    inputs[place].bytes.as_slice()
}

/// Copies bytes to the front of a buffer, as many as both have, and says how many.
fn copy_front(from: &[u8], into: &mut [u8]) -> usize
    ensures count { result ≡ min (length into.old) (length from.now) }
    ensures front { take result into.new ≡ take result from.now }
    ensures rest { drop result into.new ≡ drop result into.old }
{
    let count = from.len().min(into.len());
    into[..count].copy_from_slice(&from[..count]);
    count
}

/// Fills a buffer as far as bytes are left to read, and says where the reading goes on and how
/// many bytes were read.
pub fn read_on(inputs: &[Input], reading: Reading, into: &mut [u8]) -> (Reading, usize)
    requires { IsWithin inputs.now (Some reading) }
    ensures within { IsWithin inputs.now (Some result.0) }
    ensures count { result.1 ≡ min (length into.old) (length (drop reading.at (bytes_at inputs.now reading.input))) }
    ensures front { take result.1 into.new ≡ take result.1 (drop reading.at (bytes_at inputs.now reading.input)) }
    ensures rest { drop result.1 into.new ≡ drop result.1 into.old }
    ensures left { left_of inputs.now (Some result.0) ≡ Some (drop result.1 (drop reading.at (bytes_at inputs.now reading.input))) }
{
    let (_, left) = bytes_of(inputs, reading.input).split_at(reading.at);
    let count = copy_front(left, into);
    let next = Reading {
        input: reading.input,
        at: reading.at + count,
    };
    (next, count)
}
