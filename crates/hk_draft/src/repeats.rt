//! Whether the rows of a `gcc` list a value twice.

ghost use Rattle.std.specs.Prelude.{◌≡◌, ◌≢◌, ◌↔◌, false, map, AllPairs, IfOk, IsTrue};
ghost use Rattle.hk_lines.specs.Plain.{rows_of};
ghost use Rattle.hk_draft.specs.Declares.{AreOnce};

use hk_lines::Row;
use std::alloc::{AllocError, Global};

/// Whether no value is listed twice.
pub fn are_once(alloc: Global, rows: &[Row<'_>]) -> Result<bool, AllocError>
    ensures once { IfOk result (λ once. IsTrue once → AreOnce (rows_of rows.now)) }
    ensures twice { IfOk result (λ once. once ≡ false → AreOnce (rows_of rows.now) → ⊥) }
{
    let mut texts = digits_of(alloc, rows)?;
    Ok(all_differ(texts.as_mut_slice()))
}

/// The digits of each row's value.
fn digits_of<'a>(alloc: Global, rows: &[Row<'a>]) -> Result<Vec<&'a [u8]>, AllocError>
    ensures { IfOk result (λ texts. texts.items ≡ map (λ row. row.digits) rows.now) }
{
    rows.iter().map(|row| row.digits).collect(alloc)
}

/// Whether no two of these texts are the same. They are left in the order of their bytes, in which
/// the same texts stand side by side.
fn all_differ(texts: &mut [&[u8]]) -> bool
    ensures { IsTrue result ↔ AllPairs (λ text other. text ≢ other) (map (λ text. text.now) texts.old) }
{
    texts.sort_unstable();
    for place in 1..texts.len() {
        if texts[place - 1] == texts[place] {
            return false;
        }
    }
    true
}
