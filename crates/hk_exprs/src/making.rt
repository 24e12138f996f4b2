//! Expressions made of their parts.
ghost use Rattle.std.specs.Prelude.{◌≡◌, IfOk};
ghost use Rattle.hk_spec.specs.declared.expressions.NumExpr.TheVariants.{Card, Negative};
ghost use Rattle.hk_spec.specs.declared.expressions.Cond.TheVariants.{Not, Subset};
ghost use Rattle.hk_exprs.specs.inside.Making.{one_part, two_parts, whole_of_one, whole_of_two, set_joined, num_joined, num_chosen, compared, member, cond_joined};

use crate::operands::{MadeCond, MadeNum, MadeSet, Tree};
use hk_spec::{Cond, NumExpr, SetExpr};
use hk_terms::{Flaw, Mark};
use sqlite_items::Boxed;
use std::alloc::{AllocError, Global};

/// The greatest depth of an expression.
const MOST_DEPTH: u32 = 32;

/// The part of a whole, and the depth of the whole; or what is wrong with it.
fn one_part<T: Drop>(
    alloc: Global,
    a: Result<Tree<T>, Flaw>,
) -> Result<Result<(Boxed<T>, u32), Flaw>, AllocError>
    ensures { IfOk result (λ parts. parts ≡ one_part a) }
{
    let tree = match a {
        Err(flaw) => return Ok(Err(flaw)),
        Ok(tree) => tree,
    };
    if tree.depth >= MOST_DEPTH {
        return Ok(Err(Flaw::Limit));
    }
    let Tree { root, depth } = tree;
    Ok(Ok((Boxed::new(alloc, root)?, depth + 1)))
}

/// Both parts of a whole, and the depth of the whole; or what is wrong with it.
fn two_parts<T: Drop>(
    alloc: Global,
    a: Result<Tree<T>, Flaw>,
    b: Result<Tree<T>, Flaw>,
) -> Result<Result<(Boxed<T>, Boxed<T>, u32), Flaw>, AllocError>
    ensures { IfOk result (λ parts. parts ≡ two_parts a b) }
{
    match (a, b) {
        (Err(Flaw::Name), _) | (_, Err(Flaw::Name)) => Ok(Err(Flaw::Name)),
        (Err(Flaw::Limit), _) | (_, Err(Flaw::Limit)) => Ok(Err(Flaw::Limit)),
        (Ok(a), Ok(b)) => {
            let depth = a.depth.max(b.depth);
            if depth >= MOST_DEPTH {
                return Ok(Err(Flaw::Limit));
            }
            let (a, b) = (a.root, b.root);
            Ok(Ok((Boxed::new(alloc, a)?, Boxed::new(alloc, b)?, depth + 1)))
        }
    }
}

fn set_joined(mark: Mark, a: Boxed<SetExpr>, b: Boxed<SetExpr>) -> SetExpr
    ensures { result ≡ set_joined mark a b }
{
    match mark {
        Mark::Common => SetExpr::Common(a, b),
        Mark::Without => SetExpr::Without(a, b),
        _ => SetExpr::Union(a, b),
    }
}

/// Two sets with a mark between them: `|`, or what `&` and `\` make.
pub fn join_sets(alloc: Global, a: MadeSet, mark: Mark, b: MadeSet) -> Result<MadeSet, AllocError>
    ensures { IfOk result (λ made. made ≡ whole_of_two (set_joined mark) (two_parts a b)) }
{
    match two_parts(alloc, a, b)? {
        Err(flaw) => Ok(Err(flaw)),
        Ok((a, b, depth)) => {
            let root = set_joined(mark, a, b);
            Ok(Ok(Tree { root, depth }))
        }
    }
}

fn num_joined(mark: Mark, a: Boxed<NumExpr>, b: Boxed<NumExpr>) -> NumExpr
    ensures { result ≡ num_joined mark a b }
{
    match mark {
        Mark::Minus => NumExpr::Minus(a, b),
        Mark::Times => NumExpr::Times(a, b),
        _ => NumExpr::Add(a, b),
    }
}

/// Two numbers with a mark between them: `+`, or what `-` and `*` make.
pub fn join_nums(alloc: Global, a: MadeNum, mark: Mark, b: MadeNum) -> Result<MadeNum, AllocError>
    ensures { IfOk result (λ made. made ≡ whole_of_two (num_joined mark) (two_parts a b)) }
{
    match two_parts(alloc, a, b)? {
        Err(flaw) => Ok(Err(flaw)),
        Ok((a, b, depth)) => {
            let root = num_joined(mark, a, b);
            Ok(Ok(Tree { root, depth }))
        }
    }
}

fn num_chosen(greater: bool, a: Boxed<NumExpr>, b: Boxed<NumExpr>) -> NumExpr
    ensures { result ≡ num_chosen greater a b }
{
    if greater {
        NumExpr::Most(a, b)
    } else {
        NumExpr::Least(a, b)
    }
}

/// The greater or the less of two numbers.
pub fn choose_num(
    alloc: Global,
    greater: bool,
    a: MadeNum,
    b: MadeNum,
) -> Result<MadeNum, AllocError>
    ensures { IfOk result (λ made. made ≡ whole_of_two (num_chosen greater) (two_parts a b)) }
{
    match two_parts(alloc, a, b)? {
        Err(flaw) => Ok(Err(flaw)),
        Ok((a, b, depth)) => {
            let root = num_chosen(greater, a, b);
            Ok(Ok(Tree { root, depth }))
        }
    }
}

/// The negative of a number.
pub fn negate(alloc: Global, a: MadeNum) -> Result<MadeNum, AllocError>
    ensures { IfOk result (λ made. made ≡ whole_of_one Negative (one_part a)) }
{
    match one_part(alloc, a)? {
        Err(flaw) => Ok(Err(flaw)),
        Ok((a, depth)) => Ok(Ok(Tree {
            root: NumExpr::Negative(a),
            depth,
        })),
    }
}

/// The number of values of a set.
pub fn count(alloc: Global, a: MadeSet) -> Result<MadeNum, AllocError>
    ensures { IfOk result (λ made. made ≡ whole_of_one Card (one_part a)) }
{
    match one_part(alloc, a)? {
        Err(flaw) => Ok(Err(flaw)),
        Ok((a, depth)) => Ok(Ok(Tree {
            root: NumExpr::Card(a),
            depth,
        })),
    }
}

fn compared(mark: Mark, a: Boxed<NumExpr>, b: Boxed<NumExpr>) -> Cond
    ensures { result ≡ compared mark a b }
{
    match mark {
        Mark::Below => Cond::Below(a, b),
        Mark::AtLeast => Cond::AtLeast(a, b),
        Mark::Above => Cond::Above(a, b),
        Mark::Equal => Cond::Equal(a, b),
        _ => Cond::AtMost(a, b),
    }
}

/// Two numbers that are compared: by `<=`, or by what `<`, `>=`, `>` and `==` make.
pub fn compare(alloc: Global, a: MadeNum, mark: Mark, b: MadeNum) -> Result<MadeCond, AllocError>
    ensures { IfOk result (λ made. made ≡ whole_of_two (compared mark) (two_parts a b)) }
{
    match two_parts(alloc, a, b)? {
        Err(flaw) => Ok(Err(flaw)),
        Ok((a, b, depth)) => {
            let root = compared(mark, a, b);
            Ok(Ok(Tree { root, depth }))
        }
    }
}

fn member(inside: bool, set: Boxed<SetExpr>) -> Cond
    ensures { result ≡ member inside set }
{
    if inside {
        Cond::Has(set)
    } else {
        Cond::Lacks(set)
    }
}

/// That the value is in a set, or not.
pub fn ask_member(alloc: Global, inside: bool, set: MadeSet) -> Result<MadeCond, AllocError>
    ensures { IfOk result (λ made. made ≡ whole_of_one (member inside) (one_part set)) }
{
    match one_part(alloc, set)? {
        Err(flaw) => Ok(Err(flaw)),
        Ok((set, depth)) => {
            let root = member(inside, set);
            Ok(Ok(Tree { root, depth }))
        }
    }
}

/// That a set is within another.
pub fn ask_subset(alloc: Global, a: MadeSet, b: MadeSet) -> Result<MadeCond, AllocError>
    ensures { IfOk result (λ made. made ≡ whole_of_two Subset (two_parts a b)) }
{
    match two_parts(alloc, a, b)? {
        Err(flaw) => Ok(Err(flaw)),
        Ok((a, b, depth)) => Ok(Ok(Tree {
            root: Cond::Subset(a, b),
            depth,
        })),
    }
}

fn cond_joined(mark: Mark, p: Boxed<Cond>, q: Boxed<Cond>) -> Cond
    ensures { result ≡ cond_joined mark p q }
{
    match mark {
        Mark::And => Cond::Both(p, q),
        _ => Cond::Either(p, q),
    }
}

/// Two conditions with a mark between them: `or`, or what `and` makes.
pub fn join_conds(
    alloc: Global,
    a: MadeCond,
    mark: Mark,
    b: MadeCond,
) -> Result<MadeCond, AllocError>
    ensures { IfOk result (λ made. made ≡ whole_of_two (cond_joined mark) (two_parts a b)) }
{
    match two_parts(alloc, a, b)? {
        Err(flaw) => Ok(Err(flaw)),
        Ok((a, b, depth)) => {
            let root = cond_joined(mark, a, b);
            Ok(Ok(Tree { root, depth }))
        }
    }
}

/// Not a condition.
pub fn deny(alloc: Global, a: MadeCond) -> Result<MadeCond, AllocError>
    ensures { IfOk result (λ made. made ≡ whole_of_one Not (one_part a)) }
{
    match one_part(alloc, a)? {
        Err(flaw) => Ok(Err(flaw)),
        Ok((a, depth)) => Ok(Ok(Tree {
            root: Cond::Not(a),
            depth,
        })),
    }
}
