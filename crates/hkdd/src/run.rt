//! A run of the program, from its words to its status.

ghost use Rattle.std.specs.Prelude.{map, string_bytes, IfOk, IfSome, IfNone};
ghost use Rattle.hkdd.specs.inside.Readings.{KeepsOutput};
ghost use Rattle.hkdd.specs.Runs.{AreNoCommand, IsDue, IsFresh, IsSolve, LendsNames, Ran, Takes};

use crate::due::{Due, read_fault, reply, usage};
use crate::reading::{ReadError, read_file};
use hk_base::{Failed, Gate, Host, Slot, write_all};
use std::alloc::{AllocError, Global};
use std::thread::Threads;

/// Runs the program on its words, without its own name, and answers its exit status.
///
/// The one command is `solve FILE`: it reads a model of at most 1,048,576 bytes and prints its answer.
/// The host lends FILE as the model, and nothing went out through it before. Nothing but FILE is
/// opened, and at most 1,048,577 bytes of it are gone after the run.
///
/// | status | text on the output |
/// |---|---|
/// | 0 | the answer |
/// | 2 | the usage text |
/// | 3 | `refused line L KIND` |
/// | 4 | `read fault` |
/// | 5 | a front of the text that was being written |
/// | 7 | nothing: memory was refused |
/// | 8 | `too large` |
///
/// The steps are taken in this order, and the first that fails decides: the words are judged (2), the
/// file is opened and read (4) up to the byte that shows that it is too long (8), its lines are judged
/// (3), the answer is searched, and only then the first byte goes out (5). Memory may be refused at
/// any step before that (7).
pub fn run<R: Threads + Sync, H: Host, G: Gate + Sync>(
    _rt: &R,
    alloc: Global,
    words: &[String],
    host: &mut H,
    _gate: &G,
) -> u8
    requires fresh { IsFresh (H.view host.old) }
    requires lent { LendsNames (H.view host.old) (map string_bytes words.now) }
    ensures ran { Ran (map string_bytes words.now) (H.view host.old) result (H.view host.new) }
{
    let Ok(due) = decide(alloc, words, host) else {
        return 7
    };
    match write_all(host, Slot::Out, due.text.as_slice()) {
        Ok(()) => due.status,
        Err(Failed) => 5,
    }
}

/// What the run owes, with nothing written yet.
fn decide<H: Host>(alloc: Global, words: &[String], host: &mut H) -> Result<Due, AllocError>
    requires { LendsNames (H.view host.old) (map string_bytes words.now) }
    ensures keeps { KeepsOutput (H.view host.old) (H.view host.new) }
    ensures takes { Takes (map string_bytes words.now) (H.view host.old) (H.view host.new) }
    ensures due { IfOk result (λ due. IsDue (map string_bytes words.now) (H.view host.old) (H.view host.new) due.status due.text) }
{
    let Some(file) = file_of(words) else {
        let due = usage(alloc)?;
        return Ok(due);
    };
    match read_file(alloc, host, file) {
        Ok(model) => {
            let answer = reply(alloc, model.as_slice());
            drop(model);
            answer
        }
        Err(ReadError::Failed) => {
            let due = read_fault(alloc)?;
            Ok(due)
        }
        Err(ReadError::Memory) => Err(AllocError),
    }
}

/// The file that the words ask to solve.
fn file_of(words: &[String]) -> Option<&str>
    ensures solve { IfSome result (λ file. IsSolve (map string_bytes words.now) file.now) }
    ensures none { IfNone result (AreNoCommand (map string_bytes words.now)) }
{
    match words {
        [command, file] if command.as_str() == "solve" => Some(file.as_str()),
        _ => None,
    }
}
