//! The reader of a specification, which goes through its lines.

ghost use Rattle.std.specs.Prelude.{◌≡◌, ◌≤◌, ◌≢◌, [], All, IfOk, IfErr, length};
ghost use Rattle.hk_spec.specs.Specifications.{Specification};
ghost use Rattle.hk_text.specs.Texts.{texts_of};
ghost use Rattle.hk_text.specs.Tokens.{AreTokensOf};
ghost use Rattle.hk_text.specs.Tokens.{IsTokenIn};
ghost use Rattle.hk_parse.specs.SpecTexts.{IsFaultAt, Before, IsGoodLine, IsSpecFault, Whole, Within, WritesSpec};
ghost use Rattle.hk_parse.specs.inside.Stages.{StopsAt, fault_of, stage_of, text_fault};
ghost use Rattle.hk_parse.specs.declared.faults.SpecFault.TheVariants as spec_fault;

use crate::blocks::Block;
use crate::faults::{BlockFault, SpecFault};
use hk_spec::Spec;
use hk_text::{TextFault, Token, split_line, tokens};
use std::alloc::Global;

/// How far a specification is read.
#[derive(Drop)]
enum Reading {
    /// No line of it was read.
    Before,
    /// These are its lines so far.
    Within(Block),
    /// Its end was read.
    Whole(Spec),
}

/// The specification that the bytes write, from the line that begins it to its end. Else the fault
/// tells the first bad line, or the line after the last where the end is wanting.
pub fn read_spec(alloc: Global, bytes: &[u8]) -> Result<Spec, SpecFault>
    requires { length bytes.now ≤ 1048576 }
    ensures spec { IfOk result (WritesSpec bytes.now) }
    ensures fault { IfErr result (IsSpecFault bytes.now) }
{
    let mut reading = Reading::Before;
    let mut rest = bytes;
    let mut number = 1;
    'lines: while !rest.is_empty() {
        let (line, after) = split_line(rest);
        match read_line(alloc, reading, line) {
            Ok(next) => reading = next,
            Err(fault) => return Err(fault_at(number, fault)),
        }
        rest = after;
        number += 1;
    }
    whole_of(reading, number)
}

/// The whole specification. Else the fault is that its end is wanting at the line of this number.
fn whole_of(reading: Reading, number: u32) -> Result<Spec, SpecFault>
    ensures spec { IfOk result (λ spec. stage_of reading ≡ Whole spec) }
    ensures fault { IfErr result (λ fault. (fault ≡ spec_fault.Syntax number) × ((spec : Specification) → stage_of reading ≡ Whole spec → ⊥)) }
{
    match reading {
        Reading::Whole(spec) => Ok(spec),
        Reading::Before => Err(SpecFault::Syntax(number)),
        Reading::Within(block) => {
            drop(block);
            Err(SpecFault::Syntax(number))
        }
    }
}

/// How far the specification is read after one line more.
fn read_line(alloc: Global, reading: Reading, line: &[u8]) -> Result<Reading, BlockFault>
    requires { length line.now ≤ 1048576 }
    ensures ok { IfOk result (λ next. IsGoodLine (stage_of reading) line.now (stage_of next)) }
    ensures err { IfErr result (StopsAt (stage_of reading) line.now) }
{
    match tokens(alloc, line) {
        Ok(found) => {
            let next = read_tokens(alloc, reading, line, found.as_slice());
            drop(found);
            next
        }
        Err(fault) => {
            drop(reading);
            Err(text_fault(fault))
        }
    }
}

/// How far the specification is read after the tokens of one line more.
fn read_tokens(
    alloc: Global,
    reading: Reading,
    line: &[u8],
    tokens: &[Token],
) -> Result<Reading, BlockFault>
    requires split { AreTokensOf line.now tokens.now }
    requires within { All (IsTokenIn line.now) tokens.now }
    ensures ok { IfOk result (λ next. IsGoodLine (stage_of reading) line.now (stage_of next)) }
    ensures err { IfErr result (StopsAt (stage_of reading) line.now) }
{
    if tokens.is_empty() {
        return Ok(reading);
    }
    match reading {
        Reading::Before => read_first(alloc, line, tokens),
        Reading::Within(block) => read_later(alloc, block, line, tokens),
        Reading::Whole(spec) => {
            drop(spec);
            Err(BlockFault::Syntax)
        }
    }
}

/// How far the specification is read after the tokens of its first line.
fn read_first(alloc: Global, line: &[u8], tokens: &[Token]) -> Result<Reading, BlockFault>
    requires split { AreTokensOf line.now tokens.now }
    requires within { All (IsTokenIn line.now) tokens.now }
    ensures ok { IfOk result (λ next. IsGoodLine Before line.now (stage_of next)) }
    ensures err { IfErr result (IsFaultAt Before (texts_of line.now tokens.now)) }
{
    match Block::begin(alloc, line, tokens) {
        Ok(block) => Ok(Reading::Within(block)),
        Err(fault) => Err(fault),
    }
}

/// How far the specification is read after the tokens of a line after the first.
fn read_later(
    alloc: Global,
    mut block: Block,
    line: &[u8],
    tokens: &[Token],
) -> Result<Reading, BlockFault>
    requires split { AreTokensOf line.now tokens.now }
    requires within { All (IsTokenIn line.now) tokens.now }
    ensures ok { IfOk result (λ next. IsGoodLine (Within block) line.now (stage_of next)) }
    ensures err { IfErr result (IsFaultAt (Within block) (texts_of line.now tokens.now)) }
{
    match block.add(alloc, line, tokens) {
        Ok(true) => Ok(Reading::Whole(block.finish())),
        Ok(false) => Ok(Reading::Within(block)),
        Err(fault) => {
            drop(block);
            Err(fault)
        }
    }
}

/// The fault of a line whose bytes have this fault.
fn text_fault(fault: TextFault) -> BlockFault
    ensures { result ≡ text_fault fault }
{
    match fault {
        TextFault::Memory => BlockFault::Memory,
        TextFault::NotAscii(_) => BlockFault::Syntax,
        TextFault::BadByte(_) => BlockFault::Syntax,
    }
}

/// The fault of a specification whose line of this number has this fault.
fn fault_at(number: u32, fault: BlockFault) -> SpecFault
    ensures { result ≡ fault_of number fault }
{
    match fault {
        BlockFault::Syntax => SpecFault::Syntax(number),
        BlockFault::Name => SpecFault::Name(number),
        BlockFault::Limit => SpecFault::Limit(number),
        BlockFault::Memory => SpecFault::Memory,
    }
}
