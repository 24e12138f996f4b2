//! What the names of expressions stand for.

ghost use Rattle.std.specs.Prelude.{◌≡◌, ◌<◌, ◌≤◌, ℕ, length, slice_index_or, IfSome, IsNone, IsTrue, Any, Ok, Some};
ghost use Rattle.hk_kinds.specs.declared.kinds.Kind.{Kind};
ghost use Rattle.hk_spec.specs.Scopes.{is_interval_kind};
ghost use Rattle.hk_spec.specs.declared.parts.Param.{Param};
ghost use Rattle.hk_spec.specs.declared.parts.ParamKind.TheVariants as param;
ghost use Rattle.hk_spec.specs.declared.parts.PropDecl.{PropDecl};
ghost use Rattle.hk_terms.specs.inside.Forms.{has_form};
ghost use Rattle.hk_terms.specs.Names.{HasParam, HasProperty, IsNumName, IsSetName};
ghost use Rattle.hk_terms.specs.NumTexts as num;
ghost use Rattle.hk_terms.specs.Outcomes.{IsFew, IsNumOf, IsSetOf};
ghost use Rattle.hk_terms.specs.SetTexts as set;
ghost use Rattle.hk_terms.specs.Trees.{properties_of};

use crate::names::Names;
use hk_kinds::Kind;
use hk_spec::{NumExpr, Param, ParamKind, PropDecl, SetExpr, Side};

/// What the values of a property are.
#[derive(Clone, Copy, Debug, PartialEq, Eq)]
pub enum Form {
    Number,
    Interval,
    Set,
}

/// The number that a word stands for.
pub fn num_named(names: &Names<'_>, word: &[u8]) -> Option<NumExpr>
    requires few { IsFew names.now }
    ensures some { IfSome result (λ e. IsNumOf names.now (num.Named word.now) (Ok e)) }
    ensures none { IsNone result → IsNumName names.now word.now → ⊥ }
{
    match word {
        b"v" => return Some(NumExpr::Value),
        b"i" => return Some(NumExpr::Index),
        b"n" => return Some(NumExpr::Length),
        _ => {}
    }
    if let Some(place) = param_named(names, ParamKind::Num, word) {
        return Some(NumExpr::Param(place));
    }
    let (side, place) = property_named(names, Form::Number, word)?;
    Some(NumExpr::Number(side, place))
}

/// The set that a word stands for.
pub fn set_named(names: &Names<'_>, word: &[u8]) -> Option<SetExpr>
    requires few { IsFew names.now }
    ensures some { IfSome result (λ e. IsSetOf names.now (set.Named word.now) (Ok e)) }
    ensures none { IsNone result → IsSetName names.now word.now → ⊥ }
{
    if let Some(place) = param_named(names, ParamKind::Set, word) {
        return Some(SetExpr::Param(place));
    }
    let (side, place) = property_named(names, Form::Set, word)?;
    Some(SetExpr::Bits(side, place))
}

/// The item at the position, of the list that a word stands for.
pub fn item_named(names: &Names<'_>, word: &[u8]) -> Option<NumExpr>
    requires few { IsFew names.now }
    ensures some { IfSome result (λ e. IsNumOf names.now (num.Item word.now) (Ok e)) }
    ensures none { IsNone result → HasParam names.now param.List word.now → ⊥ }
{
    let place = param_named(names, ParamKind::List, word)?;
    Some(NumExpr::Item(place))
}

/// The low end of the interval that a word stands for.
pub fn low_named(names: &Names<'_>, word: &[u8]) -> Option<NumExpr>
    requires few { IsFew names.now }
    ensures some { IfSome result (λ e. IsNumOf names.now (num.Low word.now) (Ok e)) }
    ensures none { IsNone result → HasProperty names.now (λ kind. is_interval_kind (Some kind)) word.now → ⊥ }
{
    let (side, place) = property_named(names, Form::Interval, word)?;
    Some(NumExpr::Low(side, place))
}

/// The high end of the interval that a word stands for.
pub fn high_named(names: &Names<'_>, word: &[u8]) -> Option<NumExpr>
    requires few { IsFew names.now }
    ensures some { IfSome result (λ e. IsNumOf names.now (num.High word.now) (Ok e)) }
    ensures none { IsNone result → HasProperty names.now (λ kind. is_interval_kind (Some kind)) word.now → ⊥ }
{
    let (side, place) = property_named(names, Form::Interval, word)?;
    Some(NumExpr::High(side, place))
}

/// The place of a parameter of this kind and name.
fn param_named(names: &Names<'_>, kind: ParamKind, word: &[u8]) -> Option<u16>
    requires few { IsFew names.now }
    ensures within { IfSome result (λ place. place < length names.now.params) }
    ensures name { IfSome result (λ place. (d : Param) → (slice_index_or names.now.params place d).name ≡ word.now) }
    ensures kind { IfSome result (λ place. (d : Param) → (slice_index_or names.now.params place d).kind ≡ kind) }
    ensures none { IsNone result → HasParam names.now kind word.now → ⊥ }
{
    let place = names
        .params
        .iter()
        .position(|p| p.kind == kind && p.name.as_slice() == word)?;
    Some(place as u16)
}

/// The side and the place of a property of this form and name.
fn property_named(names: &Names<'_>, form: Form, word: &[u8]) -> Option<(Side, u16)>
    requires few { IsFew names.now }
    ensures within { IfSome result (λ found. found.1 < length (properties_of names.now found.0)) }
    ensures name { IfSome result (λ found. (d : PropDecl) → (slice_index_or (properties_of names.now found.0) found.1 d).name ≡ word.now) }
    ensures form { IfSome result (λ found. (d : PropDecl) → IsTrue (has_form form (slice_index_or (properties_of names.now found.0) found.1 d).kind)) }
    ensures none { IsNone result → HasProperty names.now (has_form form) word.now → ⊥ }
{
    if let Some(place) = property_place(names.down, form, word) {
        return Some((Side::Down, place));
    }
    let place = property_place(names.up, form, word)?;
    Some((Side::Up, place))
}

/// The place of a property of this form and name.
fn property_place(properties: &[PropDecl], form: Form, word: &[u8]) -> Option<u16>
    requires { length properties.now ≤ 32 }
    ensures within { IfSome result (λ place. place < length properties.now) }
    ensures name { IfSome result (λ place. (d : PropDecl) → (slice_index_or properties.now place d).name ≡ word.now) }
    ensures form { IfSome result (λ place. (d : PropDecl) → IsTrue (has_form form (slice_index_or properties.now place d).kind)) }
    ensures none { IsNone result → Any (λ (p : PropDecl). (p.name ≡ word.now) × IsTrue (has_form form p.kind)) properties.now → ⊥ }
{
    let place = properties
        .iter()
        .position(|p| form.holds(p.kind) && p.name.as_slice() == word)?;
    Some(place as u16)
}

impl Form {
    /// Whether a property of this kind has such values.
    fn holds(self, kind: Kind) -> bool
        ensures { result ≡ has_form self kind }
    {
        match self {
            Form::Number => matches!(kind, Kind::Min | Kind::Max),
            Form::Interval => kind == Kind::Interval,
            Form::Set => matches!(kind, Kind::SomeBits | Kind::AllBits),
        }
    }
}
