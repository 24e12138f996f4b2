//! The senses of expressions: each node is looked at once, and no memory is taken.
ghost use Rattle.std.specs.Prelude.{◌≡◌};
ghost use Rattle.hk_spec.specs.Grades.{Kinds, turned, combined, fixed_or_mixed, scaled, product_sense, number_sense, bits_sense, num_reading, num_sense, set_sense, cond_sense};

use crate::properties::Properties;
use hk_kinds::Kind;
use hk_spec::{Cond, NumExpr, Sense, SetExpr};

/// What is read of a factor of a product: the literal that it is, where it is one, and its sense.
#[derive(Clone, Copy)]
struct Factor {
    literal: Option<i64>,
    sense: Sense,
}

/// The sense of a set expression.
pub fn set_sense(e: &SetExpr, of: &Properties<'_>) -> Sense
    ensures { result ≡ set_sense of.now e.now }
{
    match e {
        SetExpr::Lit(_) => Sense::Fixed,
        SetExpr::One => Sense::Fixed,
        SetExpr::Param(_) => Sense::Fixed,
        SetExpr::Bits(side, place) => bits_sense(of.kind_at(*side, *place)),
        SetExpr::Union(a, b) => combined(set_sense(a.get(), of), set_sense(b.get(), of)),
        SetExpr::Common(a, b) => combined(set_sense(a.get(), of), set_sense(b.get(), of)),
        SetExpr::Without(a, b) => combined(set_sense(a.get(), of), turned(set_sense(b.get(), of))),
    }
}

/// The sense of a number expression.
pub fn num_sense(e: &NumExpr, of: &Properties<'_>) -> Sense
    ensures { result ≡ num_sense of.now e.now }
{
    match e {
        NumExpr::Lit(_) => Sense::Fixed,
        NumExpr::Value => Sense::Fixed,
        NumExpr::Index => Sense::Fixed,
        NumExpr::Length => Sense::Fixed,
        NumExpr::Best => Sense::Fixed,
        NumExpr::Param(_) => Sense::Fixed,
        NumExpr::Item(_) => Sense::Fixed,
        NumExpr::Number(side, place) => number_sense(of.kind_at(*side, *place)),
        NumExpr::Low(_, _) => Sense::Falls,
        NumExpr::High(_, _) => Sense::Rises,
        NumExpr::Card(set) => set_sense(set.get(), of),
        NumExpr::Add(a, b) => combined(num_sense(a.get(), of), num_sense(b.get(), of)),
        NumExpr::Least(a, b) => combined(num_sense(a.get(), of), num_sense(b.get(), of)),
        NumExpr::Most(a, b) => combined(num_sense(a.get(), of), num_sense(b.get(), of)),
        NumExpr::Minus(a, b) => combined(num_sense(a.get(), of), turned(num_sense(b.get(), of))),
        NumExpr::Negative(a) => turned(num_sense(a.get(), of)),
        NumExpr::Times(a, b) => product_sense(
            Factor {
                literal: literal(a.get()),
                sense: num_sense(a.get(), of),
            },
            Factor {
                literal: literal(b.get()),
                sense: num_sense(b.get(), of),
            },
        ),
    }
}

/// The sense of a condition.
pub fn cond_sense(p: &Cond, of: &Properties<'_>) -> Sense
    ensures { result ≡ cond_sense of.now p.now }
{
    match p {
        Cond::Always => Sense::Fixed,
        Cond::Never => Sense::Fixed,
        Cond::AtMost(a, b) => combined(turned(num_sense(a.get(), of)), num_sense(b.get(), of)),
        Cond::Below(a, b) => combined(turned(num_sense(a.get(), of)), num_sense(b.get(), of)),
        Cond::AtLeast(a, b) => combined(num_sense(a.get(), of), turned(num_sense(b.get(), of))),
        Cond::Above(a, b) => combined(num_sense(a.get(), of), turned(num_sense(b.get(), of))),
        Cond::Equal(a, b) => fixed_or_mixed(num_sense(a.get(), of), num_sense(b.get(), of)),
        Cond::Has(set) => set_sense(set.get(), of),
        Cond::Lacks(set) => turned(set_sense(set.get(), of)),
        Cond::Subset(a, b) => combined(turned(set_sense(a.get(), of)), set_sense(b.get(), of)),
        Cond::Both(p, q) => combined(cond_sense(p.get(), of), cond_sense(q.get(), of)),
        Cond::Either(p, q) => combined(cond_sense(p.get(), of), cond_sense(q.get(), of)),
        Cond::Not(p) => turned(cond_sense(p.get(), of)),
    }
}

/// The literal that a number expression is, where it is one.
fn literal(e: &NumExpr) -> Option<i64>
    ensures { (of : Kinds) → result ≡ (num_reading of e.now).literal }
{
    match e {
        NumExpr::Lit(n) => Some(*n),
        _ => None,
    }
}

/// The sense the other way round.
fn turned(sense: Sense) -> Sense
    ensures { result ≡ turned sense }
{
    match sense {
        Sense::Fixed => Sense::Fixed,
        Sense::Rises => Sense::Falls,
        Sense::Falls => Sense::Rises,
        Sense::Mixed => Sense::Mixed,
    }
}

/// The sense of what grows with both of two parts.
fn combined(first: Sense, second: Sense) -> Sense
    ensures { result ≡ combined first second }
{
    match (first, second) {
        (Sense::Fixed, other) => other,
        (other, Sense::Fixed) => other,
        (Sense::Rises, Sense::Rises) => Sense::Rises,
        (Sense::Falls, Sense::Falls) => Sense::Falls,
        _ => Sense::Mixed,
    }
}

/// The sense of what must not move in either of two parts.
fn fixed_or_mixed(first: Sense, second: Sense) -> Sense
    ensures { result ≡ fixed_or_mixed first second }
{
    match (first, second) {
        (Sense::Fixed, Sense::Fixed) => Sense::Fixed,
        _ => Sense::Mixed,
    }
}

/// The sense of a product with a number.
fn scaled(factor: i64, sense: Sense) -> Sense
    ensures { result ≡ scaled factor sense }
{
    if factor < 0 { turned(sense) } else { sense }
}

/// The sense of a product: scaled by a literal, where one of the factors is one.
fn product_sense(first: Factor, second: Factor) -> Sense
    ensures { result ≡ product_sense (record { literal = first.literal; sense = first.sense }) (record { literal = second.literal; sense = second.sense }) }
{
    match (first.literal, second.literal) {
        (Some(factor), _) => scaled(factor, second.sense),
        (None, Some(factor)) => scaled(factor, first.sense),
        (None, None) => fixed_or_mixed(first.sense, second.sense),
    }
}

/// The sense of a Min or a Max property.
fn number_sense(kind: Option<Kind>) -> Sense
    ensures { result ≡ number_sense kind }
{
    match kind {
        Some(Kind::Min) => Sense::Falls,
        Some(Kind::Max) => Sense::Rises,
        _ => Sense::Fixed,
    }
}

/// The sense of a SomeBits or an AllBits property.
fn bits_sense(kind: Option<Kind>) -> Sense
    ensures { result ≡ bits_sense kind }
{
    match kind {
        Some(Kind::SomeBits) => Sense::Rises,
        Some(Kind::AllBits) => Sense::Falls,
        _ => Sense::Fixed,
    }
}
