//! The lines of a specification after the first.

ghost use Rattle.std.specs.Prelude.{◌≡◌, ◌∷◌, ◌<◌, ◌≤◌, ◌⊎◌, [], false, All, IfOk, IfErr, IfSome, IsTrue, OnOk, OnErr, codes, length};
ghost use Rattle.hk_kinds.specs.Shapes.{IsOfKind};
ghost use Rattle.hk_text.specs.Lexemes.{IsWord};
ghost use Rattle.hk_text.specs.Texts.{texts_of};
ghost use Rattle.hk_parse.specs.BlockFaults.{GoesOn, IsAdded, IsLineFault};
ghost use Rattle.hk_parse.specs.inside.LineParts.{IsDeclared, IsPropertyFault, IsTestFault};
ghost use Rattle.hk_parse.specs.BlockLines.{side_of};
ghost use Rattle.hk_parse.specs.Blocks.{AwaitsProperty, IsPart};
ghost use Rattle.hk_parse.specs.LineTexts.{side_word};
ghost use Rattle.hk_terms.specs.Outcomes.{IsFew};
ghost use Rattle.hk_text.specs.Tokens.{IsTokenIn};
ghost use Rattle.hk_exprs.specs.Reads.{ReadsCond};

use crate::blocks::Block;
use crate::faults::BlockFault;
use crate::headers::{bytes_of, is_only};
use crate::limits::NAME_BYTES;
use crate::properties::{PropertyWords, property_of};
use crate::steps::step_of;
use hk_exprs::read_cond;
use hk_spec::{Cond, PropDecl, Side};
use hk_terms::{Flaw, Names};
use hk_text::{Token, after_text};
use std::alloc::Global;

impl Block {
    /// Adds what the next line says: true where it is the end, which adds nothing. An error tells
    /// why the line is bad, and leaves all as it was. The lines before it keep the rules of a
    /// specification.
    pub fn add(&mut self, alloc: Global, line: &[u8], tokens: &[Token]) -> Result<bool, BlockFault>
        requires { All (IsTokenIn line.now) tokens.now }
        ensures ok { IfOk result (IsAdded self.old (texts_of line.now tokens.now) self.new) }
        ensures err { IfErr result (IsLineFault self.old (texts_of line.now tokens.now)) }
        ensures unchanged { OnErr result (self.new ≡ self.old) }
        ensures rules { IsPart self.old }
    {
        // Asked of each line: the answer hands on the rules that the type keeps of the lines before.
        let ends = self.awaits_end();
        if !is_only(line, tokens, b"end") {
            return match self.add_part(alloc, line, tokens) {
                Ok(()) => Ok(false),
                Err(fault) => Err(fault),
            };
        }
        if !ends {
            return Err(BlockFault::Syntax);
        }
        Ok(true)
    }

    /// Adds what a line says that isn't the end.
    fn add_part(&mut self, alloc: Global, line: &[u8], tokens: &[Token]) -> Result<(), BlockFault>
        requires tokens { All (IsTokenIn line.now) tokens.now }
        requires goes_on { texts_of line.now tokens.now ≡ codes "end" ∷ [] → ⊥ }
        ensures ok { OnOk result (GoesOn self.old (texts_of line.now tokens.now) self.new) }
        ensures err { IfErr result (IsLineFault self.old (texts_of line.now tokens.now)) }
        ensures unchanged { OnErr result (self.new ≡ self.old) }
    {
        if let Some(rest) = after_text(line, tokens, b"down") {
            return self.add_property(alloc, Side::Down, line, rest);
        }
        if let Some(rest) = after_text(line, tokens, b"up") {
            return self.add_property(alloc, Side::Up, line, rest);
        }
        if let Some(rest) = after_text(line, tokens, b"test") {
            return self.add_test(alloc, line, rest);
        }
        if let Some(rest) = after_text(line, tokens, b"step") {
            return self.add_step(alloc, line, rest);
        }
        Err(BlockFault::Syntax)
    }

    /// Adds the property that the tokens say after the word of its side.
    fn add_property(
        &mut self,
        alloc: Global,
        side: Side,
        line: &[u8],
        tokens: &[Token],
    ) -> Result<(), BlockFault>
        requires { All (IsTokenIn line.now) tokens.now }
        ensures ok { OnOk result (GoesOn self.old (side_word side ∷ texts_of line.now tokens.now) self.new) }
        ensures err { IfErr result (IsLineFault self.old (side_word side ∷ texts_of line.now tokens.now)) }
        ensures unchanged { OnErr result (self.new ≡ self.old) }
    {
        if !self.awaits_property(side) {
            return Err(BlockFault::Syntax);
        }
        let Some(property) = property_of(line, tokens) else {
            return Err(BlockFault::Syntax);
        };
        self.declare_property(alloc, side, property)
    }

    /// Adds a property that was read.
    fn declare_property(
        &mut self,
        alloc: Global,
        side: Side,
        property: PropertyWords<'_>,
    ) -> Result<(), BlockFault>
        requires awaited { AwaitsProperty self.old side }
        requires word { IsWord property.name.now }
        requires kind { IfSome property.init (IsOfKind property.kind) }
        ensures ok { OnOk result (IsDeclared self.old side property.entry.name.now property.entry.kind property.entry.init self.new) }
        ensures err { IfErr result (IsPropertyFault self.old side property.entry.name.now property.entry.init) }
        ensures unchanged { OnErr result (self.new ≡ self.old) }
    {
        if self.is_taken(property.name) {
            return Err(BlockFault::Name);
        }
        if self.passes_limit(side, property.name) {
            return Err(BlockFault::Limit);
        }
        let Some(init) = property.init else {
            return Err(BlockFault::Limit);
        };
        let Ok(name) = bytes_of(alloc, property.name) else {
            return Err(BlockFault::Memory);
        };
        let declared = PropDecl {
            name,
            kind: property.kind,
            init,
        };
        match self.push_property(side, declared) {
            Ok(()) => Ok(()),
            Err(_) => Err(BlockFault::Memory),
        }
    }

    /// Whether the name of a property is too long, or its side is full.
    fn passes_limit(&self, side: Side, name: &[u8]) -> bool
        ensures passes { IsTrue result → (32 < length name.now) ⊎ (32 ≤ length (side_of self.now side)) }
        ensures fits { result ≡ false → (length name.now ≤ 32) × (length (side_of self.now side) < 32) }
    {
        if name.len() > NAME_BYTES {
            return true;
        }
        self.is_full(side)
    }

    /// Adds the test that the tokens say after the word `test`.
    fn add_test(&mut self, alloc: Global, line: &[u8], tokens: &[Token]) -> Result<(), BlockFault>
        requires { All (IsTokenIn line.now) tokens.now }
        ensures ok { OnOk result (GoesOn self.old (codes "test" ∷ texts_of line.now tokens.now) self.new) }
        ensures err { IfErr result (IsLineFault self.old (codes "test" ∷ texts_of line.now tokens.now)) }
        ensures unchanged { OnErr result (self.new ≡ self.old) }
    {
        if !self.awaits_test() {
            return Err(BlockFault::Syntax);
        }
        let read = read_test(alloc, line, tokens, &self.test_names());
        match read {
            Err(fault) => Err(fault),
            Ok(test) => {
                self.set_test(test);
                Ok(())
            }
        }
    }

    /// Adds the step that the tokens say after the word `step`.
    fn add_step(&mut self, alloc: Global, line: &[u8], tokens: &[Token]) -> Result<(), BlockFault>
        requires { All (IsTokenIn line.now) tokens.now }
        ensures ok { OnOk result (GoesOn self.old (codes "step" ∷ texts_of line.now tokens.now) self.new) }
        ensures err { IfErr result (IsLineFault self.old (codes "step" ∷ texts_of line.now tokens.now)) }
        ensures unchanged { OnErr result (self.new ≡ self.old) }
    {
        if self.awaits_test() {
            return Err(BlockFault::Syntax);
        }
        let Some(property) = self.due() else {
            return Err(BlockFault::Syntax);
        };
        let read = step_of(alloc, line, tokens, property, &self.step_names());
        match read {
            Err(fault) => Err(fault),
            Ok(step) => match self.push_step(step) {
                Ok(()) => Ok(()),
                Err(_) => Err(BlockFault::Memory),
            },
        }
    }
}

/// The test that the tokens say.
fn read_test(
    alloc: Global,
    line: &[u8],
    tokens: &[Token],
    names: &Names<'_>,
) -> Result<Cond, BlockFault>
    requires tokens { All (IsTokenIn line.now) tokens.now }
    requires few { IsFew names.now }
    ensures ok { IfOk result (λ test. ReadsCond names.now (texts_of line.now tokens.now) (Ok test)) }
    ensures err { IfErr result (IsTestFault names.now (texts_of line.now tokens.now)) }
{
    match read_cond(alloc, line, tokens, names) {
        Err(_) => Err(BlockFault::Memory),
        Ok(None) => Err(BlockFault::Syntax),
        Ok(Some(Err(Flaw::Name))) => Err(BlockFault::Name),
        Ok(Some(Err(Flaw::Limit))) => Err(BlockFault::Limit),
        Ok(Some(Ok(test))) => Ok(test),
    }
}
