//! What `among`, `sequence` and `gcc` declare.

ghost use Rattle.std.specs.Prelude.{◌≡◌, ◌<◌, ◌≤◌, ◌↔◌, false, map, All, Some, IfOk, IfErr, IsTrue, OnErr, OnOk};
ghost use Rattle.hk_lines.specs.Plain.{plain_counting, plain_row, rows_of};
ghost use Rattle.hk_lines.specs.Statements.{Among, Sequence, Gcc};
ghost use Rattle.hk_draft.specs.Declares.{IsSmallRow, IsWindow, made_row};
ghost use Rattle.hk_draft.specs.Limits.{most_times};
ghost use Rattle.hk_group.specs.Limits.{value_count};
ghost use Rattle.hk_draft.specs.Faults.{IsStatementFault};
ghost use Rattle.hk_draft.specs.inside.Fits.{AddsAmong, AddsSequence, AddsGcc, FitsCounting, FitsRows};

use crate::draft::Draft;
use crate::faults::LineFault;
use crate::kinds::RefusalKind;
use crate::limits::is_small_set;
use crate::repeats::are_once;
use crate::scopes::places_of;
use hk_base::{LIM, List};
use hk_group::limits::{VALUES, WINDOW};
use hk_group::{Constraint, is_rising};
use hk_lines::{Counting, Row, set_of_values};
use std::alloc::{AllocError, Global};

/// How many variables a statement asks for at most.
const TIMES: u64 = LIM as u64;

/// Declares how many of the variables of these names take a value of the set. An error leaves the
/// draft as it was.
pub fn declare_among(
    alloc: Global,
    draft: &mut Draft,
    counting: &Counting<'_>,
) -> Result<(), LineFault>
    ensures ok { OnOk result (AddsAmong (plain_counting counting.now) draft.old draft.new) }
    ensures err { IfErr result (IsStatementFault (Some draft.old) (Among (plain_counting counting.now))) }
    ensures unchanged { OnErr result (draft.new ≡ draft.old) }
{
    let scope = places_of(alloc, draft, counting.names.as_slice())?;
    if !counting_fits(draft, counting) {
        drop(scope);
        return Err(LineFault::Bad(RefusalKind::Limit));
    }
    if !is_rising(scope.as_slice()) {
        drop(scope);
        return Err(LineFault::Bad(RefusalKind::Scope));
    }
    draft.add_constraint(Constraint::Among {
        scope,
        set: set_of_values(counting.set.as_slice()),
        least: counting.least as i64,
        most: counting.most as i64,
    })?;
    Ok(())
}

/// Declares the same of each `window` of them that stand next to each other. An error leaves the
/// draft as it was.
pub fn declare_sequence(
    alloc: Global,
    draft: &mut Draft,
    window: u64,
    counting: &Counting<'_>,
) -> Result<(), LineFault>
    ensures ok { OnOk result (AddsSequence window (plain_counting counting.now) draft.old draft.new) }
    ensures err { IfErr result (IsStatementFault (Some draft.old) (Sequence window (plain_counting counting.now))) }
    ensures unchanged { OnErr result (draft.new ≡ draft.old) }
{
    let scope = places_of(alloc, draft, counting.names.as_slice())?;
    if !is_window(window) {
        drop(scope);
        return Err(LineFault::Bad(RefusalKind::Limit));
    }
    if !counting_fits(draft, counting) {
        drop(scope);
        return Err(LineFault::Bad(RefusalKind::Limit));
    }
    if !is_rising(scope.as_slice()) {
        drop(scope);
        return Err(LineFault::Bad(RefusalKind::Scope));
    }
    draft.add_constraint(Constraint::Sequence {
        scope,
        window: window as u16,
        set: set_of_values(counting.set.as_slice()),
        least: counting.least as i64,
        most: counting.most as i64,
    })?;
    Ok(())
}

/// Whether there is room for the constraint, and what it counts is within the limits.
fn counting_fits(draft: &Draft, counting: &Counting<'_>) -> bool
    ensures fits { IsTrue result → FitsCounting (plain_counting counting.now) draft.now }
    ensures large { result ≡ false → FitsCounting (plain_counting counting.now) draft.now → ⊥ }
{
    if !draft.has_room() {
        return false;
    }
    if !is_small_set(counting.set.as_slice()) {
        return false;
    }
    if counting.least > TIMES {
        return false;
    }
    counting.most <= TIMES
}

/// Whether a window is of 1 to 32 variables.
fn is_window(window: u64) -> bool
    ensures { IsTrue result ↔ IsWindow window }
{
    1 <= window && window <= u64::from(WINDOW)
}

/// Declares how many of the variables of these names take the value of each row. An error leaves
/// the draft as it was.
pub fn declare_gcc(
    alloc: Global,
    draft: &mut Draft,
    names: &[&[u8]],
    rows: &[Row<'_>],
) -> Result<(), LineFault>
    ensures ok { OnOk result (AddsGcc (map (λ name. name.now) names.now) (rows_of rows.now) draft.old draft.new) }
    ensures err { IfErr result (IsStatementFault (Some draft.old) (Gcc (map (λ name. name.now) names.now) (rows_of rows.now))) }
    ensures unchanged { OnErr result (draft.new ≡ draft.old) }
{
    let once = are_once(alloc, rows)?;
    if !once {
        return Err(LineFault::Bad(RefusalKind::Name));
    }
    let scope = places_of(alloc, draft, names)?;
    if !rows_fit(draft, rows) {
        drop(scope);
        return Err(LineFault::Bad(RefusalKind::Limit));
    }
    if !is_rising(scope.as_slice()) {
        drop(scope);
        return Err(LineFault::Bad(RefusalKind::Scope));
    }
    match made_rows(alloc, rows) {
        Ok(rows) => {
            draft.add_constraint(Constraint::Gcc { scope, rows })?;
            Ok(())
        }
        Err(_) => {
            drop(scope);
            Err(LineFault::NoMemory)
        }
    }
}

/// Whether there is room for the constraint, and it has rows, which are within the limits.
fn rows_fit(draft: &Draft, rows: &[Row<'_>]) -> bool
    ensures fits { IsTrue result → FitsRows (rows_of rows.now) draft.now }
    ensures large { result ≡ false → FitsRows (rows_of rows.now) draft.now → ⊥ }
{
    if !draft.has_room() {
        return false;
    }
    if rows.is_empty() {
        return false;
    }
    are_small_rows(rows)
}

/// Whether each row is within the limits.
fn are_small_rows(rows: &[Row<'_>]) -> bool
    ensures { IsTrue result ↔ All (λ row. (row.value < value_count) × (row.least ≤ most_times) × (row.most ≤ most_times)) rows.now }
{
    rows.iter().all(|row| row.value < u64::from(VALUES) && row.least <= TIMES && row.most <= TIMES)
}

/// The rows as a constraint has them.
fn made_rows(alloc: Global, rows: &[Row<'_>]) -> Result<List<(u8, i64, i64)>, AllocError>
    requires { All IsSmallRow (rows_of rows.now) }
    ensures { IfOk result (λ made. made ≡ map made_row (rows_of rows.now)) }
{
    let mut made = List::new(alloc);
    for row in rows {
        made.push(made_row(row))?;
    }
    Ok(made)
}

/// A row as a constraint has it.
fn made_row(row: &Row<'_>) -> (u8, i64, i64)
    requires { IsSmallRow (plain_row row.now) }
    ensures { result ≡ made_row (plain_row row.now) }
{
    (row.value as u8, row.least as i64, row.most as i64)
}
