//! Equal values of trees and lists. What a failure leaves is dropped by a call: the drops that the
//! compiler writes where a scope ends are proved anew at each way out, and cost the most of a proof.
ghost use Rattle.std.specs.Prelude.{◌≡◌, [], ◌∷◌, ◌++◌, IfOk, OnOk};

use crate::arguments::Arg;
use crate::expressions::{Cond, NumExpr, SetExpr};
use crate::parts::{Param, PropDecl, StepExpr};
use hk_base::{List, list_of, pair};
use sqlite_items::Boxed;
use std::alloc::{AllocError, Global};

/// A type of which each value has an equal one.
pub trait Duplicate: Drop {
    /// An equal value.
    fn duplicate(&self, alloc: Global) -> Result<Self, AllocError>
        ensures { IfOk result (λ copy. copy ≡ self.now) };
}

/// An equal list.
pub fn copy_list<T: Duplicate>(alloc: Global, items: &[T]) -> Result<List<T>, AllocError>
    ensures { IfOk result (λ copy. copy ≡ items.now) }
{
    let mut copy = List::new(alloc);
    for item in items {
        if let Err(refused) = push_copy(alloc, &mut copy, item) {
            drop(copy);
            return Err(refused);
        }
    }
    Ok(copy)
}

/// Puts a copy of an item at the end of a list.
fn push_copy<T: Duplicate>(alloc: Global, copy: &mut List<T>, item: &T) -> Result<(), AllocError>
    ensures { OnOk result (copy.new ≡ copy.old ++ item.now ∷ []) }
{
    match item.duplicate(alloc) {
        Ok(item) => copy.push(item),
        Err(refused) => Err(refused),
    }
}

/// An equal set expression.
#[cycle(copy_set)]
pub fn copy_set(alloc: Global, e: &SetExpr) -> Result<SetExpr, AllocError>
    ensures { IfOk result (λ copy. copy ≡ e.now) }
{
    match e {
        SetExpr::Lit(set) => Ok(SetExpr::Lit(*set)),
        SetExpr::One => Ok(SetExpr::One),
        SetExpr::Param(place) => Ok(SetExpr::Param(*place)),
        SetExpr::Bits(side, place) => Ok(SetExpr::Bits(*side, *place)),
        SetExpr::Union(a, b) => match set_boxes(alloc, a, b) {
            Ok((a, b)) => Ok(SetExpr::Union(a, b)),
            Err(refused) => Err(refused),
        },
        SetExpr::Common(a, b) => match set_boxes(alloc, a, b) {
            Ok((a, b)) => Ok(SetExpr::Common(a, b)),
            Err(refused) => Err(refused),
        },
        SetExpr::Without(a, b) => match set_boxes(alloc, a, b) {
            Ok((a, b)) => Ok(SetExpr::Without(a, b)),
            Err(refused) => Err(refused),
        },
    }
}

#[cycle(copy_set)]
fn set_box(alloc: Global, e: &Boxed<SetExpr>) -> Result<Boxed<SetExpr>, AllocError>
    ensures { IfOk result (λ copy. copy ≡ e.now) }
{
    Boxed::new(alloc, copy_set(alloc, e.get())?)
}

/// Equal values of two parts of an expression.
#[cycle(copy_set)]
fn set_boxes(
    alloc: Global,
    a: &Boxed<SetExpr>,
    b: &Boxed<SetExpr>,
) -> Result<(Boxed<SetExpr>, Boxed<SetExpr>), AllocError>
    ensures { IfOk result (λ copies. copies ≡ (a.now, b.now)) }
{
    let first = set_box(alloc, a)?;
    match set_box(alloc, b) {
        Ok(second) => Ok((first, second)),
        Err(refused) => {
            drop(first);
            Err(refused)
        }
    }
}

/// An equal number expression.
#[cycle(copy_num)]
pub fn copy_num(alloc: Global, e: &NumExpr) -> Result<NumExpr, AllocError>
    ensures { IfOk result (λ copy. copy ≡ e.now) }
{
    match e {
        NumExpr::Lit(n) => Ok(NumExpr::Lit(*n)),
        NumExpr::Value => Ok(NumExpr::Value),
        NumExpr::Index => Ok(NumExpr::Index),
        NumExpr::Length => Ok(NumExpr::Length),
        NumExpr::Best => Ok(NumExpr::Best),
        NumExpr::Param(place) => Ok(NumExpr::Param(*place)),
        NumExpr::Item(place) => Ok(NumExpr::Item(*place)),
        NumExpr::Number(side, place) => Ok(NumExpr::Number(*side, *place)),
        NumExpr::Low(side, place) => Ok(NumExpr::Low(*side, *place)),
        NumExpr::High(side, place) => Ok(NumExpr::High(*side, *place)),
        NumExpr::Card(set) => match set_box(alloc, set) {
            Ok(set) => Ok(NumExpr::Card(set)),
            Err(refused) => Err(refused),
        },
        NumExpr::Add(a, b) => match num_boxes(alloc, a, b) {
            Ok((a, b)) => Ok(NumExpr::Add(a, b)),
            Err(refused) => Err(refused),
        },
        NumExpr::Least(a, b) => match num_boxes(alloc, a, b) {
            Ok((a, b)) => Ok(NumExpr::Least(a, b)),
            Err(refused) => Err(refused),
        },
        NumExpr::Most(a, b) => match num_boxes(alloc, a, b) {
            Ok((a, b)) => Ok(NumExpr::Most(a, b)),
            Err(refused) => Err(refused),
        },
        NumExpr::Minus(a, b) => match num_boxes(alloc, a, b) {
            Ok((a, b)) => Ok(NumExpr::Minus(a, b)),
            Err(refused) => Err(refused),
        },
        NumExpr::Negative(a) => match num_box(alloc, a) {
            Ok(a) => Ok(NumExpr::Negative(a)),
            Err(refused) => Err(refused),
        },
        NumExpr::Times(a, b) => match num_boxes(alloc, a, b) {
            Ok((a, b)) => Ok(NumExpr::Times(a, b)),
            Err(refused) => Err(refused),
        },
    }
}

#[cycle(copy_num)]
fn num_box(alloc: Global, e: &Boxed<NumExpr>) -> Result<Boxed<NumExpr>, AllocError>
    ensures { IfOk result (λ copy. copy ≡ e.now) }
{
    Boxed::new(alloc, copy_num(alloc, e.get())?)
}

/// Equal values of two parts of an expression.
#[cycle(copy_num)]
fn num_boxes(
    alloc: Global,
    a: &Boxed<NumExpr>,
    b: &Boxed<NumExpr>,
) -> Result<(Boxed<NumExpr>, Boxed<NumExpr>), AllocError>
    ensures { IfOk result (λ copies. copies ≡ (a.now, b.now)) }
{
    let first = num_box(alloc, a)?;
    match num_box(alloc, b) {
        Ok(second) => Ok((first, second)),
        Err(refused) => {
            drop(first);
            Err(refused)
        }
    }
}

/// An equal condition.
#[cycle(copy_cond)]
pub fn copy_cond(alloc: Global, p: &Cond) -> Result<Cond, AllocError>
    ensures { IfOk result (λ copy. copy ≡ p.now) }
{
    match p {
        Cond::Always => Ok(Cond::Always),
        Cond::Never => Ok(Cond::Never),
        Cond::AtMost(a, b) => match num_boxes(alloc, a, b) {
            Ok((a, b)) => Ok(Cond::AtMost(a, b)),
            Err(refused) => Err(refused),
        },
        Cond::Below(a, b) => match num_boxes(alloc, a, b) {
            Ok((a, b)) => Ok(Cond::Below(a, b)),
            Err(refused) => Err(refused),
        },
        Cond::AtLeast(a, b) => match num_boxes(alloc, a, b) {
            Ok((a, b)) => Ok(Cond::AtLeast(a, b)),
            Err(refused) => Err(refused),
        },
        Cond::Above(a, b) => match num_boxes(alloc, a, b) {
            Ok((a, b)) => Ok(Cond::Above(a, b)),
            Err(refused) => Err(refused),
        },
        Cond::Equal(a, b) => match num_boxes(alloc, a, b) {
            Ok((a, b)) => Ok(Cond::Equal(a, b)),
            Err(refused) => Err(refused),
        },
        Cond::Has(set) => match set_box(alloc, set) {
            Ok(set) => Ok(Cond::Has(set)),
            Err(refused) => Err(refused),
        },
        Cond::Lacks(set) => match set_box(alloc, set) {
            Ok(set) => Ok(Cond::Lacks(set)),
            Err(refused) => Err(refused),
        },
        Cond::Subset(a, b) => match set_boxes(alloc, a, b) {
            Ok((a, b)) => Ok(Cond::Subset(a, b)),
            Err(refused) => Err(refused),
        },
        Cond::Both(p, q) => match cond_boxes(alloc, p, q) {
            Ok((p, q)) => Ok(Cond::Both(p, q)),
            Err(refused) => Err(refused),
        },
        Cond::Either(p, q) => match cond_boxes(alloc, p, q) {
            Ok((p, q)) => Ok(Cond::Either(p, q)),
            Err(refused) => Err(refused),
        },
        Cond::Not(p) => match cond_box(alloc, p) {
            Ok(p) => Ok(Cond::Not(p)),
            Err(refused) => Err(refused),
        },
    }
}

#[cycle(copy_cond)]
fn cond_box(alloc: Global, p: &Boxed<Cond>) -> Result<Boxed<Cond>, AllocError>
    ensures { IfOk result (λ copy. copy ≡ p.now) }
{
    Boxed::new(alloc, copy_cond(alloc, p.get())?)
}

/// Equal values of two parts of an expression.
#[cycle(copy_cond)]
fn cond_boxes(
    alloc: Global,
    p: &Boxed<Cond>,
    q: &Boxed<Cond>,
) -> Result<(Boxed<Cond>, Boxed<Cond>), AllocError>
    ensures { IfOk result (λ copies. copies ≡ (p.now, q.now)) }
{
    let first = cond_box(alloc, p)?;
    match cond_box(alloc, q) {
        Ok(second) => Ok((first, second)),
        Err(refused) => {
            drop(first);
            Err(refused)
        }
    }
}

impl Duplicate for Param {
    fn duplicate(&self, alloc: Global) -> Result<Param, AllocError> {
        Ok(Param {
            name: list_of(alloc, self.name.as_slice())?,
            kind: self.kind,
        })
    }
}

impl Duplicate for PropDecl {
    fn duplicate(&self, alloc: Global) -> Result<PropDecl, AllocError> {
        Ok(PropDecl {
            name: list_of(alloc, self.name.as_slice())?,
            kind: self.kind,
            init: self.init,
        })
    }
}

impl Duplicate for StepExpr {
    fn duplicate(&self, alloc: Global) -> Result<StepExpr, AllocError> {
        match self {
            StepExpr::Num(e) => match copy_num(alloc, e) {
                Ok(e) => Ok(StepExpr::Num(e)),
                Err(refused) => Err(refused),
            },
            StepExpr::Pair(low, high) => match pair(copy_num(alloc, low), copy_num(alloc, high)) {
                Ok((low, high)) => Ok(StepExpr::Pair(low, high)),
                Err(refused) => Err(refused),
            },
            StepExpr::Set(e) => match copy_set(alloc, e) {
                Ok(e) => Ok(StepExpr::Set(e)),
                Err(refused) => Err(refused),
            },
        }
    }
}

impl Duplicate for Arg {
    fn duplicate(&self, alloc: Global) -> Result<Arg, AllocError> {
        Ok(match self {
            Arg::Num(n) => Arg::Num(*n),
            Arg::Set(set) => Arg::Set(*set),
            Arg::Nums(numbers) => Arg::Nums(list_of(alloc, numbers.as_slice())?),
        })
    }
}
