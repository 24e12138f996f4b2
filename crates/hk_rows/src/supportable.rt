//! Which tables can be asked what they support. What a test writes out is judged as it runs.

ghost use Rattle.std.specs.Prelude.{◌≡◌, ◌+◌, ◌<◌, ◌≤◌, ℕ, suc, [], length, slice_index, slice_index_or, All, IsTrue};
ghost use Rattle.hk_table.specs.Supporting.{IsSupportable, RowLeads};
ghost use Rattle.hk_table.specs.Tables.{PlainRow};
ghost use Rattle.hk_text.specs.Sets.{members};

use hk_base::List;
use hk_table::{Entry, Row, Shape, Table, value_count};

/// Whether the row that an entry leads to, where it is Live, is below this number.
pub fn leads_below(entry: Entry, next: usize) -> bool
    ensures { IsTrue result → (row : ℕ) → entry ≡ Entry.Live row → row < next }
{
    match entry.live() {
        Some(row) => usize::from(row) < next,
        None => true,
    }
}

/// Whether each of the entries leads so.
fn all_lead_below(entries: &[Entry], next: usize) -> bool
    ensures { IsTrue result → All (λ entry. (row : ℕ) → entry ≡ Entry.Live row → row < next) entries.now }
{
    entries.iter().all(|entry| leads_below(*entry, next))
}

/// Whether a row has an entry for each value of a set, and its Live entries name rows below this
/// number.
fn row_leads(row: &Row, set: u128, next: usize) -> bool
    ensures { IsTrue result → RowLeads (members set) next row.now }
{
    let entries = row.entries.as_slice();
    entries.len() == value_count(set) as usize && all_lead_below(entries, next)
}

/// Whether each row of a layer does.
fn layer_leads(rows: &[Row], set: u128, next: usize) -> bool
    ensures { IsTrue result → All (RowLeads (members set) next) rows.now }
{
    rows.iter().all(|row| row_leads(row, set, next))
}

/// Whether the rows of each layer but the last lead to rows of the next one.
fn layers_lead(layers: &[List<Row>], sets: &[u128]) -> bool
    requires { length layers.now ≡ suc (length sets.now) }
    ensures { IsTrue result → (level : ℕ) → level < length sets.now → All (RowLeads (members (slice_index sets.now level)) (length (slice_index_or layers.now (level + 1) []))) (slice_index_or layers.now level []) }
{
    for level in 0..sets.len() {
        let next = layers[level + 1].as_slice().len();
        if !layer_leads(layers[level].as_slice(), sets[level], next) {
            return false;
        }
    }
    true
}

/// Whether no layer has more than 256 rows.
fn are_few(layers: &[List<Row>]) -> bool
    ensures { IsTrue result → All (λ (layer : List PlainRow). length layer ≤ 256) layers.now }
{
    layers.iter().all(|layer| layer.as_slice().len() <= 256)
}

/// Whether a table can be asked what it supports.
pub fn is_supportable(table: &Table, shape: &Shape) -> bool
    ensures { IsTrue result → IsSupportable shape.now table.now }
{
    let layers = table.layers.as_slice();
    let sets = shape.domains.as_slice();
    layers.len() == sets.len() + 1 && are_few(layers) && layers_lead(layers, sets)
}
