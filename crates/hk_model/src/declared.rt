//! What the lines read so far declare, and what one line more declares.

ghost use Rattle.std.specs.Prelude.{◌≡◌, ◌↔◌, ◌⊎◌, ◌∷◌, [], List as Seq, ℕ, length, All, None, Some, IsNone, IfSome, IsSome, IsTrue, OnErr, OnOk, IfOk, IfErr, codes};
ghost use Rattle.hk_parse.specs.BlockLines.{MayStand};
ghost use Rattle.hk_parse.specs.LineTexts.{End};
ghost use Rattle.hk_text.specs.Lexemes.{IsWord};
ghost use Rattle.hk_text.specs.Texts.{texts_of};
ghost use Rattle.hk_text.specs.Tokens.{HasTexts, IsTokenIn};
ghost use Rattle.hk_lines.specs.Plain.{statement_of};
ghost use Rattle.hk_model.specs.inside.Faults.{EndsBlock, IsLineFault, IsPostFaultAfter, Posts, as_begin_fault, as_line_fault};
ghost use Rattle.hk_draft.specs.Faults.{IsStatementFault};
ghost use Rattle.hk_model.specs.Models.{IsGoodLine, nothing_declared, wrong_latest};
ghost use Rattle.hk_model.specs.Postings.{spec_of};
ghost use Rattle.hk_lines.specs.PostShapes.{plain_post};
ghost use Rattle.hk_draft.specs.Declares.{Declares};

use crate::binding::{post, spec_named};
use crate::limits::SPECIFICATIONS;
use hk_base::List;
use hk_draft::{Draft, LineFault, RefusalKind, declare};
use hk_grade::{Properties, Sense, wrong_step, wrong_test};
use hk_lines::{PostShape, Shape, post_of, shape_of};
use hk_parse::{Block, BlockFault};
use hk_spec::Spec;
use hk_text::{Token, after_text, word_of};
use std::alloc::Global;
use std::marker::Model;

/// What the lines read so far declare: the problem, None before the header; the specifications; and
/// the specification that isn't ended, where there is one. It is opened after the header.
#[derive(Drop)]
pub struct Declared {
    draft: Option<Draft>,
    specs: List<Spec>,
    block: Option<Block>,
}

impl Model for Declared {
    ghost use Rattle.std.specs.Prelude.{IsSome};
    ghost use Rattle.std.specs.Coded.{codes};
    ghost use Rattle.hk_parse.specs.contracts.blocks.Block as part;
    ghost use Rattle.hk_spec.specs.contracts.specification.Spec as specification;
    ghost use Rattle.hk_draft.specs.contracts.draft.Draft as problem;
    ghost use Rattle.hk_model.specs.Models.{Declared};

    ghost Value = { Declared };

    ghost coded = { Prim.hlevel (codes, part.the_row.coded, specification.the_row.coded, problem.the_row.coded) };

    ghost view = { λ d. record { problem = d.draft; specs = d.specs; block = d.block } };

    ghost invariant = { λ d. IsSome d.block → IsSome d.draft };
}

impl Declared {
    /// Nothing is declared.
    pub fn new(alloc: Global) -> Declared
        ensures { result ≡ nothing_declared }
    {
        Declared {
            draft: None,
            specs: List::new(alloc),
            block: None,
        }
    }

    /// The problem that is declared, where no specification is open.
    pub fn finish(self) -> Option<Draft>
        ensures some { IfSome result (λ draft. (self.problem ≡ Some draft) × (self.block ≡ None)) }
        ensures none { IsNone result → (self.problem ≡ None) ⊎ IsSome self.block }
    {
        let Declared {
            draft,
            specs,
            block,
        } = self;
        drop(specs);
        if block.is_some() {
            drop(block);
            drop(draft);
            return None;
        }
        drop(block);
        draft
    }

    /// Takes the tokens of one line. An error leaves the problem and the specifications as they
    /// were, and outside of a specification all.
    pub fn read(&mut self, alloc: Global, line: &[u8], tokens: &[Token]) -> Result<(), LineFault>
        requires has { HasTexts line.now (texts_of line.now tokens.now) }
        requires within { All (IsTokenIn line.now) tokens.now }
        ensures ok { OnOk result (IsGoodLine self.old line.now self.new) }
        ensures err { IfErr result (IsLineFault self.old line.now) }
        ensures kept { OnErr result (self.new ≡ record self.old { block = self.new.block }) }
        ensures unchanged { self.old.block ≡ None → OnErr result (self.new ≡ self.old) }
    {
        if tokens.is_empty() {
            return Ok(());
        }
        match &mut self.block {
            None => self.read_outside(alloc, line, tokens),
            Some(block) => match block.add(alloc, line, tokens) {
                Ok(true) => self.end(),
                Ok(false) => judge_latest(block),
                Err(fault) => Err(line_fault(fault)),
            },
        }
    }

    /// Whether the header is read.
    fn is_started(&self) -> bool
        ensures { IsTrue result ↔ IsSome self.now.problem }
    {
        self.draft.is_some()
    }

    /// Takes the tokens of a line outside of a specification. An error leaves all as it was.
    fn read_outside(
        &mut self,
        alloc: Global,
        line: &[u8],
        tokens: &[Token],
    ) -> Result<(), LineFault>
        requires has { HasTexts line.now (texts_of line.now tokens.now) }
        requires some { texts_of line.now tokens.now ≡ [] → ⊥ }
        requires within { All (IsTokenIn line.now) tokens.now }
        requires outside { self.old.block ≡ None }
        ensures ok { OnOk result (IsGoodLine self.old line.now self.new) }
        ensures err { IfErr result (IsLineFault self.old line.now) }
        ensures unchanged { OnErr result (self.new ≡ self.old) }
    {
        if let Some(rest) = after_text(line, tokens, b"post") {
            return self.read_post(alloc, line, rest);
        }
        if after_text(line, tokens, b"spec").is_some() {
            return self.open(alloc, line, tokens);
        }
        match shape_of(alloc, line, tokens) {
            Ok(Some(shape)) => self.declare(alloc, shape),
            Ok(None) => Err(LineFault::Bad(RefusalKind::Syntax)),
            Err(_) => Err(LineFault::NoMemory),
        }
    }

    /// Declares what a line of this shape says. An error leaves all as it was.
    fn declare(&mut self, alloc: Global, shape: Shape<'_>) -> Result<(), LineFault>
        requires outside { self.old.block ≡ None }
        ensures ok { OnOk result (Declares self.old.problem (statement_of shape.entry) self.new.problem × (self.new ≡ record self.old { problem = self.new.problem })) }
        ensures err { IfErr result (IsStatementFault self.old.problem (statement_of shape.entry)) }
        ensures unchanged { OnErr result (self.new ≡ self.old) }
    {
        let answer = declare(alloc, &mut self.draft, &shape);
        drop(shape);
        answer
    }

    /// Takes the tokens after `post`, outside of a specification. An error leaves all as it was.
    fn read_post(&mut self, alloc: Global, line: &[u8], tokens: &[Token]) -> Result<(), LineFault>
        requires has { HasTexts line.now (codes "post" ∷ texts_of line.now tokens.now) }
        requires within { All (IsTokenIn line.now) tokens.now }
        requires outside { self.old.block ≡ None }
        ensures ok { OnOk result (IsGoodLine self.old line.now self.new) }
        ensures err { IfErr result (IsLineFault self.old line.now) }
        ensures unchanged { OnErr result (self.new ≡ self.old) }
    {
        match post_of(alloc, line, tokens) {
            Ok(Some(shape)) => self.post(alloc, shape),
            Ok(None) => Err(LineFault::Bad(RefusalKind::Syntax)),
            Err(_) => Err(LineFault::NoMemory),
        }
    }

    /// Declares what a post of this shape says. An error leaves all as it was.
    fn post(&mut self, alloc: Global, shape: PostShape<'_>) -> Result<(), LineFault>
        ensures ok { OnOk result (Posts self.old (plain_post shape.entry) self.new) }
        ensures err { IfErr result (IsPostFaultAfter self.old (plain_post shape.entry)) }
        ensures unchanged { OnErr result (self.new ≡ self.old) }
    {
        let answer = match &mut self.draft {
            None => Err(LineFault::Bad(RefusalKind::Syntax)),
            Some(draft) => post(alloc, draft, self.specs.as_slice(), &shape),
        };
        drop(shape);
        answer
    }

    /// Opens the specification whose first line has these tokens, of which the first is `spec`. An
    /// error leaves all as it was.
    fn open(&mut self, alloc: Global, line: &[u8], tokens: &[Token]) -> Result<(), LineFault>
        requires has { HasTexts line.now (texts_of line.now tokens.now) }
        requires within { All (IsTokenIn line.now) tokens.now }
        requires begins { (rest : Seq (Seq ℕ)) × (texts_of line.now tokens.now ≡ codes "spec" ∷ rest) }
        requires outside { self.old.block ≡ None }
        ensures ok { OnOk result (IsGoodLine self.old line.now self.new) }
        ensures err { IfErr result (IsLineFault self.old line.now) }
        ensures unchanged { OnErr result (self.new ≡ self.old) }
    {
        if !self.is_started() {
            return Err(LineFault::Bad(RefusalKind::Syntax));
        }
        let block = self.begin(alloc, line, tokens)?;
        drop(self.block.replace(block));
        Ok(())
    }

    /// The specification that a first line with these tokens begins, where its name is no other's and
    /// there is room for it.
    fn begin(&self, alloc: Global, line: &[u8], tokens: &[Token]) -> Result<Block, LineFault>
        requires has { HasTexts line.now (texts_of line.now tokens.now) }
        requires within { All (IsTokenIn line.now) tokens.now }
        requires begins { (rest : Seq (Seq ℕ)) × (texts_of line.now tokens.now ≡ codes "spec" ∷ rest) }
        requires outside { self.now.block ≡ None }
        requires started { IsSome self.now.problem }
        ensures ok { IfOk result (λ part. IsGoodLine self.now line.now (record self.now { block = Some part })) }
        ensures err { IfErr result (IsLineFault self.now line.now) }
    {
        let taken = self.is_taken(line, tokens);
        match Block::begin(alloc, line, tokens) {
            Ok(block) => {
                if taken {
                    drop(block);
                    return Err(LineFault::Bad(RefusalKind::Name));
                }
                if self.spec_count() >= SPECIFICATIONS {
                    drop(block);
                    return Err(LineFault::Bad(RefusalKind::Limit));
                }
                Ok(block)
            }
            Err(fault) => Err(begin_fault(fault, taken)),
        }
    }

    /// Whether the token after the first is the name of a specification.
    fn is_taken(&self, line: &[u8], tokens: &[Token]) -> bool
        requires { All (IsTokenIn line.now) tokens.now }
        ensures { (first name : Seq ℕ) (rest : Seq (Seq ℕ)) → texts_of line.now tokens.now ≡ first ∷ name ∷ rest → IsWord name → IsTrue result ↔ IsSome (spec_of self.now.specs name) }
    {
        let Some((_, rest)) = tokens.split_first() else {
            return false;
        };
        match word_of(line, rest) {
            None => false,
            Some((name, _)) => spec_named(self.specs.as_slice(), name).is_some(),
        }
    }

    /// How many specifications are declared.
    fn spec_count(&self) -> usize
        ensures { result ≡ length self.now.specs }
    {
        self.specs.as_slice().len()
    }

    /// Ends the specification that is open, where its end may stand. Where there is no memory, it is
    /// lost, and nothing else.
    fn end(&mut self) -> Result<(), LineFault>
        requires { IfSome self.old.block (λ part. MayStand part End) }
        ensures ok { OnOk result (IfSome self.old.block (λ part. EndsBlock self.old part self.new)) }
        ensures err { IfErr result (λ fault. fault ≡ LineFault.NoMemory) }
        ensures kept { OnErr result (self.new ≡ record self.old { block = self.new.block }) }
    {
        let Some(block) = self.block.take() else {
            return Ok(());
        };
        self.specs.push(block.finish())?;
        Ok(())
    }
}

/// Why the reader of a model stops, where a first line is bad; its name may be taken as well.
fn begin_fault(fault: BlockFault, taken: bool) -> LineFault
    ensures { result ≡ as_begin_fault taken fault }
{
    match (fault, taken) {
        (BlockFault::Limit, true) => LineFault::Bad(RefusalKind::Name),
        _ => line_fault(fault),
    }
}

/// Why the reader of a model stops, where a line of a specification is bad.
fn line_fault(fault: BlockFault) -> LineFault
    ensures { result ≡ as_line_fault fault }
{
    match fault {
        BlockFault::Syntax => LineFault::Bad(RefusalKind::Syntax),
        BlockFault::Name => LineFault::Bad(RefusalKind::Name),
        BlockFault::Limit => LineFault::Bad(RefusalKind::Limit),
        BlockFault::Memory => LineFault::NoMemory,
    }
}

/// Whether the test or the step that the latest line of a specification gave has an allowed sense.
fn judge_latest(block: &Block) -> Result<(), LineFault>
    ensures ok { OnOk result (wrong_latest block.now ≡ None) }
    ensures err { IfErr result (λ fault. (fault ≡ LineFault.Bad RefusalKind.Grade) × IsSome (wrong_latest block.now)) }
{
    match wrong_latest(block) {
        Some(_) => Err(LineFault::Bad(RefusalKind::Grade)),
        None => Ok(()),
    }
}

/// The sense of what the latest line of a specification gave, where it isn't allowed.
fn wrong_latest(block: &Block) -> Option<Sense>
    ensures { result ≡ wrong_latest block.now }
{
    let names = block.test_names();
    let of = Properties {
        down: names.down,
        up: names.up,
    };
    if let Some((kind, step)) = block.latest_step() {
        return wrong_step(kind, step, &of);
    }
    match block.test() {
        Some(test) => wrong_test(test, &of),
        None => None,
    }
}
