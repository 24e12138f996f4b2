//! A specification whose lines are read one by one.

ghost use Rattle.std.specs.Prelude.{◌≡◌, ◌≤◌, ◌↔◌, All, IfOk, IfErr, IfSome, IsNone, OnOk, OnErr, IsTrue, None, Some, length, map};
ghost use Rattle.std.specs.List.{list_any};
ghost use Rattle.std.specs.Option.{option_copied};
ghost use Rattle.std.specs.Str.{bytes_eq};
ghost use Rattle.hk_text.specs.Lexemes.{IsWord};
ghost use Rattle.hk_text.specs.Texts.{texts_of};
ghost use Rattle.hk_parse.specs.BlockFaults.{BeginsWith, IsBeginFault};
ghost use Rattle.hk_parse.specs.inside.LineParts.{IsHeaderFault};
ghost use Rattle.hk_parse.specs.BlockLines.{Begins, IsTaken, MayStand, due, last_step, latest_step, part_names, side_of, step_names, test_names, with_property, with_step};
ghost use Rattle.hk_parse.specs.Blocks.{AwaitsProperty, FitsProperty, FitsStep, FitsTest, IsPart, IsWhole};
ghost use Rattle.hk_parse.specs.inside.Headers.{IsHeader, plain_param};
ghost use Rattle.hk_parse.specs.LineTexts.{ParamText, End};
ghost use Rattle.hk_terms.specs.Outcomes.{IsFew};
ghost use Rattle.hk_text.specs.Tokens.{IsTokenIn};

use crate::faults::BlockFault;
use crate::headers::{
    ParamWords, bytes_of, declared_params, has_taken_name, header_of, is_reserved, passes_limit,
};
use crate::limits::PROPERTIES;
use hk_base::{Bytes, List};
use hk_kinds::Kind;
use hk_spec::{Cond, Param, PropDecl, Side, Spec, StepExpr};
use hk_terms::Names;
use hk_text::Token;
use std::alloc::{AllocError, Global};
use std::marker::Model;
use std::mem::replace;

/// What the lines of a specification say so far.
#[derive(Debug, Drop)]
pub struct Block {
    name: Bytes,
    params: List<Param>,
    down: List<PropDecl>,
    up: List<PropDecl>,
    test: Option<Cond>,
    down_step: List<StepExpr>,
    up_step: List<StepExpr>,
}

impl Model for Block {
    ghost use Rattle.std.specs.Coded.{codes};
    ghost use Rattle.hk_spec.specs.contracts.expressions.Cond as condition;
    ghost use Rattle.hk_spec.specs.contracts.parts.Param as param;
    ghost use Rattle.hk_spec.specs.contracts.parts.PropDecl as declaration;
    ghost use Rattle.hk_spec.specs.contracts.parts.StepExpr as expression;
    ghost use Rattle.hk_parse.specs.BlockLines.{Part};
    ghost use Rattle.hk_parse.specs.Blocks.{IsPart};

    ghost Value = { Part };

    ghost coded = { Prim.hlevel (codes, condition.the_row.coded, param.the_row.coded, declaration.the_row.coded, expression.the_row.coded) };

    ghost view = { λ b. record { name = b.name; params = b.params; down = b.down; up = b.up; test = b.test; down_step = b.down_step; up_step = b.up_step } };

    ghost invariant = { λ b. IsPart (record { name = b.name; params = b.params; down = b.down; up = b.up; test = b.test; down_step = b.down_step; up_step = b.up_step }) };
}

impl Block {
    /// What a first line says. An error tells why the tokens are none.
    pub fn begin(alloc: Global, line: &[u8], tokens: &[Token]) -> Result<Block, BlockFault>
        requires { All (IsTokenIn line.now) tokens.now }
        ensures ok { IfOk result (BeginsWith (texts_of line.now tokens.now)) }
        ensures err { IfErr result (IsBeginFault (texts_of line.now tokens.now)) }
    {
        match header_of(alloc, line, tokens) {
            Ok(Some(header)) => Block::declare(alloc, header.name, header.params.as_slice()),
            Ok(None) => Err(BlockFault::Syntax),
            Err(_) => Err(BlockFault::Memory),
        }
    }

    /// What a first line with this name and these parameters says.
    fn declare(alloc: Global, name: &[u8], params: &[ParamWords<'_>]) -> Result<Block, BlockFault>
        requires name { IsWord name.now }
        requires params { All (λ (p : ParamText). IsWord p.name) (map plain_param params.now) }
        ensures ok { IfOk result (Begins name.now (map plain_param params.now)) }
        ensures err { IfErr result (IsHeaderFault name.now (map plain_param params.now)) }
    {
        let Ok(taken) = has_taken_name(alloc, params) else {
            return Err(BlockFault::Memory);
        };
        if taken {
            return Err(BlockFault::Name);
        }
        if passes_limit(name, params) {
            return Err(BlockFault::Limit);
        }
        match Block::with_header(alloc, name, params) {
            Ok(block) => Ok(block),
            Err(_) => Err(BlockFault::Memory),
        }
    }

    /// The specification with this name and these parameters, and nothing more.
    fn with_header(
        alloc: Global,
        name: &[u8],
        params: &[ParamWords<'_>],
    ) -> Result<Block, AllocError>
        requires { IsHeader name.now (map plain_param params.now) }
        ensures { IfOk result (Begins name.now (map plain_param params.now)) }
    {
        Ok(Block {
            name: bytes_of(alloc, name)?,
            params: declared_params(alloc, params)?,
            down: List::new(alloc),
            up: List::new(alloc),
            test: None,
            down_step: List::new(alloc),
            up_step: List::new(alloc),
        })
    }

    /// Whether a property of this side may stand next.
    pub fn awaits_property(&self, side: Side) -> bool
        ensures { IsTrue result ↔ AwaitsProperty self.now side }
    {
        match side {
            Side::Down => self.test.is_none() && self.up.as_slice().is_empty(),
            Side::Up => self.test.is_none(),
        }
    }

    /// Whether the name is a reserved word, or one that a parameter or a property has.
    pub fn is_taken(&self, name: &[u8]) -> bool
        ensures { IsTrue result ↔ IsTaken (part_names self.now) name.now }
    {
        if is_reserved(name) {
            return true;
        }
        self.has_name(name)
    }

    /// Whether a parameter or a property has this name.
    fn has_name(&self, name: &[u8]) -> bool
        ensures { result ≡ list_any (bytes_eq name.now) (part_names self.now) }
    {
        if has_param(self.params.as_slice(), name) {
            return true;
        }
        if has_property(self.down.as_slice(), name) {
            return true;
        }
        has_property(self.up.as_slice(), name)
    }

    /// Whether a side has as many properties as it may have.
    pub fn is_full(&self, side: Side) -> bool
        ensures { IsTrue result ↔ 32 ≤ length (side_of self.now side) }
    {
        match side {
            Side::Down => self.down.as_slice().len() >= PROPERTIES,
            Side::Up => self.up.as_slice().len() >= PROPERTIES,
        }
    }

    /// Adds a property to a side.
    pub fn push_property(&mut self, side: Side, property: PropDecl) -> Result<(), AllocError>
        requires { FitsProperty self.old side property }
        ensures ok { OnOk result (self.new ≡ with_property self.old side property) }
        ensures err { OnErr result (self.new ≡ self.old) }
    {
        match side {
            Side::Down => self.down.push(property),
            Side::Up => self.up.push(property),
        }
    }

    /// Whether the test may stand next, after properties.
    pub fn awaits_test(&self) -> bool
        ensures { IsTrue result ↔ (self.now.test ≡ None) }
    {
        self.test.is_none()
    }

    /// What the test may name.
    pub fn test_names(&self) -> Names<'_>
        ensures names { result ≡ test_names self.now }
        ensures few { IsFew result }
    {
        Names {
            params: self.params.as_slice(),
            down: self.down.as_slice(),
            up: self.up.as_slice(),
        }
    }

    /// Adds the test.
    pub fn set_test(&mut self, test: Cond)
        requires { FitsTest self.old test }
        ensures { self.new ≡ record self.old { test = Some test } }
    {
        // An assignment would write out the drop of what stood there, which is nothing.
        drop(replace(&mut self.test, Some(test)));
    }

    /// The property whose step is due, where one is.
    pub fn due(&self) -> Option<&PropDecl>
        ensures some { IfSome result (λ p. due self.now ≡ Some p.now) }
        ensures none { IsNone result → due self.now ≡ None }
    {
        let place = self.down_step.as_slice().len();
        if place < self.down.as_slice().len() {
            return self.down.as_slice().get(place);
        }
        self.up.as_slice().get(self.up_step.as_slice().len())
    }

    /// The test, where it is read.
    pub fn test(&self) -> Option<&Cond>
        ensures { option_copied result ≡ self.now.test }
    {
        self.test.as_ref()
    }

    /// The latest step, with the kind of its property, where a step is read.
    pub fn latest_step(&self) -> Option<(Kind, &StepExpr)>
        ensures some { IfSome result (λ latest. latest_step self.now ≡ Some (latest.0, latest.1.now)) }
        ensures none { IsNone result → latest_step self.now ≡ None }
    {
        if let Some(latest) = last_step(self.up.as_slice(), self.up_step.as_slice()) {
            return Some(latest);
        }
        last_step(self.down.as_slice(), self.down_step.as_slice())
    }

    /// What the step that is due may name.
    pub fn step_names(&self) -> Names<'_>
        ensures names { result ≡ step_names self.now }
        ensures few { IsFew result }
    {
        if self.down_step.as_slice().len() < self.down.as_slice().len() {
            return Names {
                params: self.params.as_slice(),
                down: self.down.as_slice(),
                up: &[],
            };
        }
        Names {
            params: self.params.as_slice(),
            down: &[],
            up: self.up.as_slice(),
        }
    }

    /// Adds the step of the property that is due.
    pub fn push_step(&mut self, step: StepExpr) -> Result<(), AllocError>
        requires { FitsStep self.old step }
        ensures ok { OnOk result (self.new ≡ with_step self.old step) }
        ensures err { OnErr result (self.new ≡ self.old) }
    {
        if self.down_step.as_slice().len() < self.down.as_slice().len() {
            return self.down_step.push(step);
        }
        self.up_step.push(step)
    }

    /// Whether the end may stand next. What the lines say so far keeps the rules of a specification.
    pub fn awaits_end(&self) -> bool
        ensures end { IsTrue result ↔ MayStand self.now End }
        ensures rules { IsPart self.now }
    {
        if self.test.is_none() {
            return false;
        }
        if self.down_step.as_slice().len() < self.down.as_slice().len() {
            return false;
        }
        self.up_step.as_slice().len() == self.up.as_slice().len()
    }

    /// The specification, whose end stands next.
    pub fn finish(self) -> Spec
        requires { MayStand self End }
        ensures { IsWhole self result }
    {
        let Block {
            name,
            params,
            down,
            up,
            test,
            down_step,
            up_step,
        } = self;
        let Some(test) = test else {
            unreachable!();
        };
        Spec {
            name,
            params,
            down,
            up,
            test,
            down_step,
            up_step,
        }
    }
}

/// Whether a parameter has this name.
fn has_param(params: &[Param], name: &[u8]) -> bool
    ensures { result ≡ list_any (λ p. bytes_eq name.now p.name) params.now }
{
    params.iter().any(|param| name == param.name.as_slice())
}

/// Whether a property has this name.
fn has_property(properties: &[PropDecl], name: &[u8]) -> bool
    ensures { result ≡ list_any (λ p. bytes_eq name.now p.name) properties.now }
{
    properties
        .iter()
        .any(|property| name == property.name.as_slice())
}

/// The step at the end of a side's steps, with the kind of its property, where there is a step.
fn last_step<'a>(properties: &[PropDecl], steps: &'a [StepExpr]) -> Option<(Kind, &'a StepExpr)>
    ensures some { IfSome result (λ last. last_step properties.now steps.now ≡ Some (last.0, last.1.now)) }
    ensures none { IsNone result → last_step properties.now steps.now ≡ None }
{
    let (step, before) = steps.split_last()?;
    match properties.get(before.len()) {
        Some(property) => Some((property.kind, step)),
        None => None,
    }
}
