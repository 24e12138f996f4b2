//! What a table supports: the values at which reached rows have Live entries.
ghost use Rattle.std.specs.Prelude.{◌≡◌, ◌↔◌, ℕ, ◌<◌, ◌≤◌, ◌⊎◌, length, slice_index, All};
ghost use Rattle.hk_base.specs.Sets.{Has};
ghost use Rattle.hk_table.specs.Keeps.{Supports};
ghost use Rattle.hk_table.specs.Supporting.{IsSupportable, RowLeads};
ghost use Rattle.hk_table.specs.inside.Reaching.{EntryLeads, LayerLeads};
ghost use Rattle.hk_table.specs.TakenIn.{TakesIn};
ghost use Rattle.hk_text.specs.Sets.{members};

use crate::entries::Entry;
use crate::row_sets::RowSet;
use crate::tables::{Row, Shape, Table};
use crate::value_sets::split_least;

impl Table {
    /// Writes the supported values of each layer but the last: those at which a row that Live
    /// entries reach from row 0 of the first layer has a Live entry. It takes no memory.
    pub fn support_into(&self, shape: &Shape, out: &mut [u128])
        requires places { length out.old ≡ length shape.now.domains }
        requires supportable { IsSupportable shape.now self.now }
        ensures places { length out.new ≡ length shape.now.domains }
        ensures supported { (level value : ℕ) → level < length shape.now.domains → Has (slice_index out.new level) value ↔ Supports shape.now self.now level value }
    {
        let layers = self.layers.as_slice();
        let domains = shape.domains.as_slice();
        let mut reached = RowSet::empty();
        reached.insert(0);
        for level in 0..domains.len() {
            let found = layer_support(layers[level].as_slice(), domains[level], &reached);
            out[level] = found.values;
            reached = found.rows;
        }
    }
}

/// The values of steps from a layer to the next, and the rows that they lead to.
#[derive(Drop)]
pub struct Found {
    pub values: u128,
    pub rows: RowSet,
}

impl Found {
    /// Takes in the step by a value to a row.
    #[inline]
    pub fn add(&mut self, value: u8, row: u16)
        requires value { value < 128 }
        requires row { row < 256 }
        ensures { TakesIn (λ v r. (v ≡ value) × (r ≡ row)) self.old.values self.old.rows self.new.values self.new.rows }
    {
        self.values |= 1 << value;
        self.rows.insert(row);
    }
}

/// The steps of Live entries of the reached rows of a layer.
fn layer_support(rows: &[Row], domain: u128, reached: &RowSet) -> Found
    requires few { length rows.now ≤ 256 }
    requires leads { All (RowLeads (members domain) 256) rows.now }
    ensures { TakesIn (LayerLeads (members domain) rows.now reached.now (length rows.now)) 0 0 result.values result.rows }
{
    let mut found = Found {
        values: 0,
        rows: RowSet::empty(),
    };
    for at in 0..rows.len() {
        if reached.has(at as u16) {
            let row = &rows[at];
            row_support(row.entries.as_slice(), domain, &mut found);
        }
    }
    found
}

/// Takes in the steps of the Live entries of a row.
fn row_support(entries: &[Entry], domain: u128, found: &mut Found)
    requires long { length entries.now ≡ length (members domain) }
    requires names { All (λ entry. (c : ℕ) → entry ≡ Entry.Live c → c < 256) entries.now }
    ensures { TakesIn (EntryLeads (members domain) entries.now) found.old.values found.old.rows found.new.values found.new.rows }
{
    let mut left = domain;
    for at in 0..entries.len() {
        let (value, rest) = split_least(left);
        left = rest;
        if let Some(row) = entries[at].live() {
            found.add(value, row);
        }
    }
}
