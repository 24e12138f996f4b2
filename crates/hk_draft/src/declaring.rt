//! What a line declares, after the lines before it.

ghost use Rattle.std.specs.Prelude.{◌≡◌, All, ◌↔◌, false, map, None, Some, IsTrue, OnErr, OnOk, IfErr};
ghost use Rattle.hk_lines.specs.Plain.{values_of, terms_of, statement_of};
ghost use Rattle.hk_draft.specs.inside.Fits.{AddsDistinct, AddsTotal, AddsLeast, FitsVariable, FitsTotal};
ghost use Rattle.hk_draft.specs.Faults.{IsStatementFault, IsLimitFault};
ghost use Rattle.hk_group.specs.Problems.{IsWithin};
ghost use Rattle.hk_lines.specs.Statements.{Header, Variable, Distinct, Total, Objective};
ghost use Rattle.hk_draft.specs.Declares.{Declares, AddsVariable};
ghost use Rattle.hk_draft.specs.Drafts.{HasGroup, empty_draft};
ghost use Rattle.hk_group.specs.Limits.{greatest_coefficient};

use crate::counting::{declare_among, declare_gcc, declare_sequence};
use crate::draft::Draft;
use crate::faults::LineFault;
use crate::kinds::RefusalKind;
use crate::limits::is_within_limit;
use crate::scopes::{coefs_of, places_of, term_places};
use hk_group::limits::{COEFFICIENT, NAME_BYTES, VALUES, VARIABLES};
use hk_group::{Constraint, Linear, is_rising};
use hk_lines::{Shape, Term, Values, set_of_values};
use std::alloc::Global;

/// Declares what a line of this shape says, after what was declared before it: None before the
/// header. An error leaves the draft as it was; that there is no memory has no cause in the model.
pub fn declare(alloc: Global, draft: &mut Option<Draft>, shape: &Shape<'_>) -> Result<(), LineFault>
    ensures ok { OnOk result (Declares draft.old (statement_of shape.now) draft.new) }
    ensures err { IfErr result (IsStatementFault draft.old (statement_of shape.now)) }
    ensures unchanged { OnErr result (draft.new ≡ draft.old) }
{
    match shape {
        Shape::Start => start(alloc, draft),
        Shape::Variable { name, set } => match draft {
            None => Err(LineFault::Bad(RefusalKind::Syntax)),
            Some(draft) => declare_variable(alloc, draft, *name, set.as_slice()),
        },
        Shape::Distinct { names } => match draft {
            None => Err(LineFault::Bad(RefusalKind::Syntax)),
            Some(draft) => declare_distinct(alloc, draft, names.as_slice()),
        },
        Shape::Among { counting } => match draft {
            None => Err(LineFault::Bad(RefusalKind::Syntax)),
            Some(draft) => declare_among(alloc, draft, counting),
        },
        Shape::Sequence { window, counting } => match draft {
            None => Err(LineFault::Bad(RefusalKind::Syntax)),
            Some(draft) => declare_sequence(alloc, draft, *window, counting),
        },
        Shape::Gcc { names, rows } => match draft {
            None => Err(LineFault::Bad(RefusalKind::Syntax)),
            Some(draft) => declare_gcc(alloc, draft, names.as_slice(), rows.as_slice()),
        },
        Shape::Total { terms, least, most } => match draft {
            None => Err(LineFault::Bad(RefusalKind::Syntax)),
            Some(draft) => declare_total(alloc, draft, terms.as_slice(), *least, *most),
        },
        Shape::Objective { terms } => match draft {
            None => Err(LineFault::Bad(RefusalKind::Syntax)),
            Some(draft) => declare_objective(alloc, draft, terms.as_slice()),
        },
        Shape::NewGroup => match draft {
            None => Err(LineFault::Bad(RefusalKind::Syntax)),
            Some(draft) => {
                draft.begin_group();
                Ok(())
            }
        },
    }
}

/// Begins the draft, where it isn't begun: else it stays as it was.
fn start(alloc: Global, draft: &mut Option<Draft>) -> Result<(), LineFault>
    ensures ok { OnOk result ((draft.old ≡ None) × (draft.new ≡ Some empty_draft)) }
    ensures err { IfErr result (IsStatementFault draft.old Header) }
    ensures unchanged { OnErr result (draft.new ≡ draft.old) }
{
    if draft.is_some() {
        return Err(LineFault::Bad(RefusalKind::Syntax));
    }
    drop(draft.replace(Draft::new(alloc)));
    Ok(())
}

/// Declares a variable. An error leaves the draft as it was.
fn declare_variable(
    alloc: Global,
    draft: &mut Draft,
    name: &[u8],
    set: &[Values],
) -> Result<(), LineFault>
    ensures ok { OnOk result (AddsVariable name.now (values_of set.now) draft.old draft.new) }
    ensures err { IfErr result (IsStatementFault (Some draft.old) (Variable name.now (values_of set.now))) }
    ensures unchanged { OnErr result (draft.new ≡ draft.old) }
{
    if draft.place_of(name).is_some() {
        return Err(LineFault::Bad(RefusalKind::Name));
    }
    if variable_passes_limit(draft, name, set) {
        return Err(LineFault::Bad(RefusalKind::Limit));
    }
    draft.add_variable(alloc, name, set_of_values(set))?;
    Ok(())
}

/// Whether a new variable passes a limit, one of its ranges is turned, or its set has no value.
fn variable_passes_limit(draft: &Draft, name: &[u8], set: &[Values]) -> bool
    ensures passes { IsTrue result → IsLimitFault draft.now (Variable name.now (values_of set.now)) }
    ensures fits { result ≡ false → FitsVariable name.now set.now draft.now }
{
    if name.len() > NAME_BYTES {
        return true;
    }
    if draft.variable_count() >= VARIABLES {
        return true;
    }
    if set.is_empty() {
        return true;
    }
    set.iter().any(|values| values.last >= u64::from(VALUES) || values.last < values.first)
}

/// Declares that the variables of these names differ. An error leaves the draft as it was.
fn declare_distinct(alloc: Global, draft: &mut Draft, names: &[&[u8]]) -> Result<(), LineFault>
    ensures ok { OnOk result (AddsDistinct (map (λ name. name.now) names.now) draft.old draft.new) }
    ensures err { IfErr result (IsStatementFault (Some draft.old) (Distinct (map (λ name. name.now) names.now))) }
    ensures unchanged { OnErr result (draft.new ≡ draft.old) }
{
    let scope = places_of(alloc, draft, names)?;
    if !draft.has_room() {
        drop(scope);
        return Err(LineFault::Bad(RefusalKind::Limit));
    }
    if !is_rising(scope.as_slice()) {
        drop(scope);
        return Err(LineFault::Bad(RefusalKind::Scope));
    }
    draft.add_constraint(Constraint::AllDifferent { scope })?;
    Ok(())
}

/// Declares that the sum of the terms lies from `least` to `most`. An error leaves the draft as it
/// was.
fn declare_total(
    alloc: Global,
    draft: &mut Draft,
    terms: &[Term<'_>],
    least: i64,
    most: i64,
) -> Result<(), LineFault>
    ensures ok { OnOk result (AddsTotal terms.now least most draft.old draft.new) }
    ensures err { IfErr result (IsStatementFault (Some draft.old) (Total (terms_of terms.now) least most)) }
    ensures unchanged { OnErr result (draft.new ≡ draft.old) }
{
    let scope = term_places(alloc, draft, terms)?;
    if total_passes_limit(draft, terms, least, most) {
        drop(scope);
        return Err(LineFault::Bad(RefusalKind::Limit));
    }
    if !is_rising(scope.as_slice()) {
        drop(scope);
        return Err(LineFault::Bad(RefusalKind::Scope));
    }
    match coefs_of(alloc, terms) {
        Ok(coefs) => {
            draft.add_constraint(Constraint::Sum {
                scope,
                coefs,
                least,
                most,
            })?;
            Ok(())
        }
        Err(_) => {
            drop(scope);
            Err(LineFault::NoMemory)
        }
    }
}

/// Whether a new sum passes a limit.
fn total_passes_limit(draft: &Draft, terms: &[Term<'_>], least: i64, most: i64) -> bool
    ensures passes { IsTrue result → IsLimitFault draft.now (Total (terms_of terms.now) least most) }
    ensures fits { result ≡ false → FitsTotal terms.now least most draft.now }
{
    if !draft.has_room() {
        return true;
    }
    if !is_within_limit(least) {
        return true;
    }
    if !is_within_limit(most) {
        return true;
    }
    !are_coefficients(terms)
}

/// Declares that the sum of the terms is to be least. An error leaves the draft as it was.
fn declare_objective(alloc: Global, draft: &mut Draft, terms: &[Term<'_>]) -> Result<(), LineFault>
    ensures ok { OnOk result (AddsLeast terms.now draft.old draft.new) }
    ensures err { IfErr result (IsStatementFault (Some draft.old) (Objective (terms_of terms.now))) }
    ensures unchanged { OnErr result (draft.new ≡ draft.old) }
{
    let scope = term_places(alloc, draft, terms)?;
    if draft.has_objective() {
        drop(scope);
        return Err(LineFault::Bad(RefusalKind::Name));
    }
    if !objective_fits(draft, terms) {
        drop(scope);
        return Err(LineFault::Bad(RefusalKind::Limit));
    }
    if !is_rising(scope.as_slice()) {
        drop(scope);
        return Err(LineFault::Bad(RefusalKind::Scope));
    }
    match coefs_of(alloc, terms) {
        Ok(coefs) => {
            draft.add_objective(Linear { scope, coefs })?;
            Ok(())
        }
        Err(_) => {
            drop(scope);
            Err(LineFault::NoMemory)
        }
    }
}

/// Whether there is room for the group that the objective begins, and each coefficient is within the
/// limit.
fn objective_fits(draft: &Draft, terms: &[Term<'_>]) -> bool
    ensures fits { IsTrue result → HasGroup draft.now × All (λ term. IsWithin greatest_coefficient term.coef) terms.now }
    ensures large { result ≡ false → IsLimitFault draft.now (Objective (terms_of terms.now)) }
{
    if !draft.has_group() {
        return false;
    }
    are_coefficients(terms)
}

/// Whether each coefficient is within the limit.
fn are_coefficients(terms: &[Term<'_>]) -> bool
    ensures { IsTrue result ↔ All (λ term. IsWithin greatest_coefficient term.coef) terms.now }
{
    terms.iter().all(|term| -COEFFICIENT <= term.coef && term.coef <= COEFFICIENT)
}
