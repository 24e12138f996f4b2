//! What a host in memory takes at a slot for writing, up to a room that was set aside.

ghost use Rattle.std.specs.Prelude.{◌≡◌, ◌↔◌, ◌+◌, ◌≤◌, [], ◌++◌, length, IsTrue, IfOk};
ghost use Rattle.std.specs.Bool.{OnTrue, OnFalse};

use std::alloc::{AllocError, Global};
use std::marker::Model;

/// Bytes that are written one piece after another, up to a room that is set aside beforehand.
#[derive(Debug, Drop)]
pub struct Output {
    bytes: Vec<u8>,
    room: usize,
}

impl Model for Output {
    ghost use Rattle.std.specs.Prelude.{◌≤◌, vec_len, vec_capacity};
    ghost use Rattle.hk_base.specs.Outputs.{Written};

    ghost Value = { Written };

    ghost view = { λ o. record { bytes = o.bytes.items; room = o.room } };

    ghost invariant = { λ o. (vec_len o.bytes ≤ o.room) × (o.room ≤ vec_capacity o.bytes) };
}

impl Output {
    /// An output with no room.
    pub fn new(alloc: Global) -> Output
        ensures { result ≡ record { bytes = []; room = 0 } }
    {
        Output {
            bytes: Vec::new(alloc),
            room: 0,
        }
    }

    /// An output of this room, in which nothing is written.
    pub fn with_room(alloc: Global, room: usize) -> Result<Output, AllocError>
        ensures { IfOk result (λ output. output ≡ record { bytes = []; room = room }) }
    {
        let bytes = Vec::with_capacity(alloc, room)?;
        Ok(Output { bytes, room })
    }

    /// The bytes that were written.
    pub fn as_slice(&self) -> &[u8]
        ensures { result.now ≡ self.now.bytes }
    {
        self.bytes.as_slice()
    }

    /// Takes back all that was written. The room stays.
    pub fn clear(&mut self)
        ensures { self.new ≡ record self.old { bytes = [] } }
    {
        self.bytes.clear();
    }

    /// Takes a piece whole where there is room for it, and else nothing, and says which.
    pub fn take(&mut self, piece: &[u8]) -> bool
        ensures fits { IsTrue result ↔ (length self.old.bytes + length piece.now ≤ self.old.room) }
        ensures taken { OnTrue result (self.new ≡ record self.old { bytes = self.old.bytes ++ piece.now }) }
        ensures refused { OnFalse result (self.new ≡ self.old) }
    {
        if piece.len() > self.room - self.bytes.len() {
            return false;
        }
        self.bytes.extend_from_slice(piece).is_ok()
    }
}
