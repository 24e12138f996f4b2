//! The scope of a statement, by the names that it uses.

ghost use Rattle.std.specs.Prelude.{◌≡◌, map, IfOk, IfErr};
ghost use Rattle.hk_draft.specs.Declares.{ArePlacesOf, term_coefs, term_names};
ghost use Rattle.hk_lines.specs.Plain.{terms_of};
ghost use Rattle.hk_draft.specs.Faults.{IsPlaceFault};

use crate::draft::Draft;
use crate::faults::LineFault;
use crate::kinds::RefusalKind;
use hk_base::List;
use hk_lines::Term;
use std::alloc::{AllocError, Global};

/// The places of the variables of these names, where each is declared.
pub fn places_of(alloc: Global, draft: &Draft, names: &[&[u8]]) -> Result<List<u16>, LineFault>
    ensures ok { IfOk result (ArePlacesOf draft.now.names (map (λ name. name.now) names.now)) }
    ensures err { IfErr result (IsPlaceFault draft.now.names (map (λ name. name.now) names.now)) }
{
    let mut scope = List::new(alloc);
    for name in names {
        let Some(place) = draft.place_of(name) else {
            drop(scope);
            return Err(LineFault::Bad(RefusalKind::Name));
        };
        scope.push(place)?;
    }
    Ok(scope)
}

/// The places of the variables of these terms, where each is declared.
pub fn term_places(alloc: Global, draft: &Draft, terms: &[Term<'_>]) -> Result<List<u16>, LineFault>
    ensures ok { IfOk result (ArePlacesOf draft.now.names (term_names (terms_of terms.now))) }
    ensures err { IfErr result (IsPlaceFault draft.now.names (term_names (terms_of terms.now))) }
{
    let mut scope = List::new(alloc);
    for term in terms {
        let Some(place) = draft.place_of(term.name) else {
            drop(scope);
            return Err(LineFault::Bad(RefusalKind::Name));
        };
        scope.push(place)?;
    }
    Ok(scope)
}

/// The coefficients of terms.
pub fn coefs_of(alloc: Global, terms: &[Term<'_>]) -> Result<List<i64>, AllocError>
    ensures { IfOk result (λ coefs. coefs ≡ term_coefs (terms_of terms.now)) }
{
    let mut coefs = List::new(alloc);
    for term in terms {
        coefs.push(term.coef)?;
    }
    Ok(coefs)
}
