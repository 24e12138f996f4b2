//! The model's bytes, read in pieces.

ghost use Rattle.std.specs.Prelude.{◌+◌, ◌<◌, ◌≤◌, [], length, IfOk, IfErr, OnOk, OnErr, IsTrue};
ghost use Rattle.hk_base.specs.declared.host.Slot.TheVariants.{Model};
ghost use Rattle.hk_base.specs.Hosts.{MovedNothing, Opened, CanRead};
ghost use Rattle.hkdd.specs.Inputs.{TakesAtMost};
ghost use Rattle.hkdd.specs.Limits.{most_bytes};
ghost use Rattle.hkdd.specs.inside.Readings.{KeepsOutput, StoppedBy, TakesAll, TakesPiece, TookFew};
ghost use Rattle.hkdd.specs.Runs.{WereRead};

use crate::limits::MODEL_BYTES;
use hk_base::{Bytes, Host, List, Slot};
use std::alloc::{AllocError, Global};
use thiserror::Error;

/// How many bytes are asked of the host at a time, at most.
const PIECE_BYTES: usize = 65536;

/// Why the model's bytes were not read.
#[derive(Debug, Drop, Error)]
pub enum ReadError {
    #[error("a call of the host failed")]
    Failed,
    #[error("out of memory")]
    Memory,
}

/// Opens a file as the model and reads it to its end, or up to the byte that shows that it is too
/// long. Nothing else is opened, and no more is gone from the file afterwards. Fails where the host can't open
/// it or a reading fails, and for want of memory.
pub fn read_file<H: Host>(alloc: Global, host: &mut H, file: &str) -> Result<Bytes, ReadError>
    requires { IsTrue ((H.view host.old).lends Model file.now) }
    ensures keeps { KeepsOutput (H.view host.old) (H.view host.new) }
    ensures few { TakesAtMost (most_bytes + 1) file.now (H.view host.old) (H.view host.new) }
    ensures read { IfOk result (WereRead (H.view host.old) file.now) }
    ensures stopped { IfErr result (StoppedBy (H.view host.old) (H.view host.new)) }
{
    let mut piece = make_piece(alloc).map_err(|_| ReadError::Memory)?;
    open_model(host, file)?;
    let text = read_pieces(alloc, host, piece.as_mut_slice())?;
    Ok(text)
}

/// Opens a file as the model.
fn open_model<H: Host>(host: &mut H, file: &str) -> Result<(), ReadError>
    requires { IsTrue ((H.view host.old).lends Model file.now) }
    ensures opened { OnOk result (Opened Model file.now (H.view host.old) (H.view host.new)) }
    ensures kept { OnErr result (MovedNothing (H.view host.old) (H.view host.new)) }
    ensures stopped { IfErr result (StoppedBy (H.view host.old) (H.view host.new)) }
{
    host.open_slot(Slot::Model, file)
        .map_err(|_| ReadError::Failed)
}

/// A buffer for one piece.
fn make_piece(alloc: Global) -> Result<Vec<u8>, AllocError>
    ensures { IfOk result (λ piece. 0 < length piece.items) }
{
    Ok(vec![in alloc; 0u8; PIECE_BYTES]?)
}

/// Reads the open model to its end, or up to the byte that shows that it is too long.
fn read_pieces<H: Host>(alloc: Global, host: &mut H, piece: &mut [u8]) -> Result<Bytes, ReadError>
    requires open { CanRead (H.view host.old) Model }
    requires room { 0 < length piece.old }
    ensures few { TookFew [] (H.view host.old) (H.view host.new) }
    ensures took { IfOk result (TakesAll (H.view host.old) (H.view host.new)) }
    ensures stopped { IfErr result (StoppedBy (H.view host.old) (H.view host.new)) }
{
    let mut text = List::new(alloc);
    'pieces: while text.as_slice().len() <= MODEL_BYTES {
        let count = read_piece(host, piece, &mut text)?;
        if count == 0 {
            return Ok(text);
        }
    }
    Ok(text)
}

/// Reads one piece of the open model, and says how many bytes it has.
fn read_piece<H: Host>(host: &mut H, piece: &mut [u8], text: &mut Bytes) -> Result<usize, ReadError>
    requires open { CanRead (H.view host.old) Model }
    requires room { 0 < length piece.old }
    requires short { length text.old ≤ most_bytes }
    ensures few { TookFew text.old (H.view host.old) (H.view host.new) }
    ensures took { IfOk result (TakesPiece (H.view host.old) (H.view host.new) text.old text.new) }
    ensures stopped { IfErr result (StoppedBy (H.view host.old) (H.view host.new)) }
{
    let asked = piece.len().min(MODEL_BYTES + 1 - text.as_slice().len());
    let part = &mut piece[..asked];
    let count = host.read(Slot::Model, part).map_err(|_| ReadError::Failed)?;
    text.push_all(&part[..count])
        .map_err(|_| ReadError::Memory)?;
    Ok(count)
}
