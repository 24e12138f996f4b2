//! The nodes of trees, made of their parts. Without memory the parts are dropped, each by a call.
ghost use Rattle.std.specs.Prelude.{◌≡◌, Ok, IfOk};
ghost use Rattle.hk_spec.specs.Trees.{at_least, at_most, below, both, card, common, either, lacks, minus, plus, times, union};

use hk_base::pair;
use hk_spec::{Cond, NumExpr, SetExpr};
use sqlite_items::Boxed;
use std::alloc::{AllocError, Global};

/// Both of two values in memory of their own.
fn boxes<T: Drop>(alloc: Global, a: T, b: T) -> Result<(Boxed<T>, Boxed<T>), AllocError>
    ensures { IfOk result (λ boxes. boxes ≡ (a, b)) }
{
    pair(Boxed::new(alloc, a), Boxed::new(alloc, b))
}

/// `(a + b)`.
pub fn plus(alloc: Global, a: NumExpr, b: NumExpr) -> Result<NumExpr, AllocError>
    ensures { IfOk result (λ e. e ≡ plus a b) }
{
    match boxes(alloc, a, b) {
        Ok((a, b)) => Ok(NumExpr::Add(a, b)),
        Err(refused) => Err(refused),
    }
}

/// `((a + b) + c)`.
pub fn plus_both(alloc: Global, a: NumExpr, b: NumExpr, c: NumExpr) -> Result<NumExpr, AllocError>
    ensures { IfOk result (λ e. e ≡ plus (plus a b) c) }
{
    match plus(alloc, a, b) {
        Ok(sum) => plus(alloc, sum, c),
        Err(refused) => {
            drop(c);
            Err(refused)
        }
    }
}

/// `(a - b)`.
pub fn minus(alloc: Global, a: NumExpr, b: NumExpr) -> Result<NumExpr, AllocError>
    ensures { IfOk result (λ e. e ≡ minus a b) }
{
    match boxes(alloc, a, b) {
        Ok((a, b)) => Ok(NumExpr::Minus(a, b)),
        Err(refused) => Err(refused),
    }
}

/// `(a * b)`.
pub fn times(alloc: Global, a: NumExpr, b: NumExpr) -> Result<NumExpr, AllocError>
    ensures { IfOk result (λ e. e ≡ times a b) }
{
    match boxes(alloc, a, b) {
        Ok((a, b)) => Ok(NumExpr::Times(a, b)),
        Err(refused) => Err(refused),
    }
}

/// `card(S)`.
pub fn card(alloc: Global, set: SetExpr) -> Result<NumExpr, AllocError>
    ensures { IfOk result (λ e. e ≡ card set) }
{
    match Boxed::new(alloc, set) {
        Ok(set) => Ok(NumExpr::Card(set)),
        Err(refused) => Err(refused),
    }
}

/// `(a | b)`.
pub fn union(alloc: Global, a: SetExpr, b: SetExpr) -> Result<SetExpr, AllocError>
    ensures { IfOk result (λ e. e ≡ union a b) }
{
    match boxes(alloc, a, b) {
        Ok((a, b)) => Ok(SetExpr::Union(a, b)),
        Err(refused) => Err(refused),
    }
}

/// `(a & b)`.
pub fn common(alloc: Global, a: SetExpr, b: SetExpr) -> Result<SetExpr, AllocError>
    ensures { IfOk result (λ e. e ≡ common a b) }
{
    match boxes(alloc, a, b) {
        Ok((a, b)) => Ok(SetExpr::Common(a, b)),
        Err(refused) => Err(refused),
    }
}

/// `(a <= b)`.
pub fn at_most(alloc: Global, a: NumExpr, b: NumExpr) -> Result<Cond, AllocError>
    ensures { IfOk result (λ p. p ≡ at_most a b) }
{
    match boxes(alloc, a, b) {
        Ok((a, b)) => Ok(Cond::AtMost(a, b)),
        Err(refused) => Err(refused),
    }
}

/// `(a < b)`.
pub fn below(alloc: Global, a: NumExpr, b: NumExpr) -> Result<Cond, AllocError>
    ensures { IfOk result (λ p. p ≡ below a b) }
{
    match boxes(alloc, a, b) {
        Ok((a, b)) => Ok(Cond::Below(a, b)),
        Err(refused) => Err(refused),
    }
}

/// `(a >= b)`.
pub fn at_least(alloc: Global, a: NumExpr, b: NumExpr) -> Result<Cond, AllocError>
    ensures { IfOk result (λ p. p ≡ at_least a b) }
{
    match boxes(alloc, a, b) {
        Ok((a, b)) => Ok(Cond::AtLeast(a, b)),
        Err(refused) => Err(refused),
    }
}

/// `(v notin S)`.
pub fn lacks(alloc: Global, set: SetExpr) -> Result<Cond, AllocError>
    ensures { IfOk result (λ p. p ≡ lacks set) }
{
    match Boxed::new(alloc, set) {
        Ok(set) => Ok(Cond::Lacks(set)),
        Err(refused) => Err(refused),
    }
}

/// `(p and q)`.
pub fn both(alloc: Global, p: Cond, q: Cond) -> Result<Cond, AllocError>
    ensures { IfOk result (λ both_hold. both_hold ≡ both p q) }
{
    match boxes(alloc, p, q) {
        Ok((p, q)) => Ok(Cond::Both(p, q)),
        Err(refused) => Err(refused),
    }
}

/// `(p or q)`.
pub fn either(alloc: Global, p: Cond, q: Cond) -> Result<Cond, AllocError>
    ensures { IfOk result (λ one_holds. one_holds ≡ either p q) }
{
    match boxes(alloc, p, q) {
        Ok((p, q)) => Ok(Cond::Either(p, q)),
        Err(refused) => Err(refused),
    }
}
