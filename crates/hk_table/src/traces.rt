//! Traces, which are told what happens in a search.
ghost use Rattle.std.specs.Prelude.{OnOk};
ghost use Rattle.hk_table.specs.Items.{HasLine};
ghost use Rattle.hk_table.specs.Traces.{TraceView, Tells};

use crate::items::TraceItem;
use crate::tables::Row;
use thiserror::Error;

/// Why a trace refused: what was to be written was refused outside, or memory was.
#[derive(Debug, Drop, Error)]
pub enum TraceFault {
    #[error("what was to be written was refused")]
    Written,
    #[error("out of memory")]
    Memory,
}

/// Who is told what happens in a search, one item a call, in order.
///
/// Whether a trace tells its list to contracts is its own choice; what it tells moves as the calls
/// say. A trace that refused may not be whole any more, and is then told nothing further.
pub trait Trace {
    ghost view: { Self → TraceView };

    ghost whole: { Self → Type 0 };

    /// A pass begins.
    fn pass(&mut self) -> Result<(), TraceFault>
        requires whole { whole self.old }
        ensures tells { Tells (view self.old) TraceItem.Pass result (view self.new) }
        ensures whole { OnOk result (whole self.new) };

    /// The table of a group begins.
    fn table(&mut self, group: u16) -> Result<(), TraceFault>
        requires whole { whole self.old }
        requires line { HasLine (TraceItem.Table group) }
        ensures tells { Tells (view self.old) (TraceItem.Table group) result (view self.new) }
        ensures whole { OnOk result (whole self.new) };

    /// The next layer begins, with so many rows.
    fn layer(&mut self, rows: u16) -> Result<(), TraceFault>
        requires whole { whole self.old }
        requires line { HasLine (TraceItem.Layer rows) }
        ensures tells { Tells (view self.old) (TraceItem.Layer rows) result (view self.new) }
        ensures whole { OnOk result (whole self.new) };

    /// The next row of the layer.
    fn row(&mut self, row: &Row) -> Result<(), TraceFault>
        requires whole { whole self.old }
        requires line { HasLine (TraceItem.Row row.now) }
        ensures tells { Tells (view self.old) (TraceItem.Row row.now) result (view self.new) }
        ensures whole { OnOk result (whole self.new) };

    /// A branch on a variable at a value.
    fn branch(&mut self, var: u16, value: u8) -> Result<(), TraceFault>
        requires whole { whole self.old }
        requires line { HasLine (TraceItem.Branch var value) }
        ensures tells { Tells (view self.old) (TraceItem.Branch var value) result (view self.new) }
        ensures whole { OnOk result (whole self.new) };

    /// A node ends with a variable that has no value left.
    fn failed(&mut self) -> Result<(), TraceFault>
        requires whole { whole self.old }
        ensures tells { Tells (view self.old) TraceItem.Fail result (view self.new) }
        ensures whole { OnOk result (whole self.new) };

    /// A node ends with a solution.
    fn solution(&mut self, values: &[u8]) -> Result<(), TraceFault>
        requires whole { whole self.old }
        requires line { HasLine (TraceItem.Sol values.now) }
        ensures tells { Tells (view self.old) (TraceItem.Sol values.now) result (view self.new) }
        ensures whole { OnOk result (whole self.new) };

    /// A node isn't entered.
    fn unentered(&mut self) -> Result<(), TraceFault>
        requires whole { whole self.old }
        ensures tells { Tells (view self.old) TraceItem.OpenLeaf result (view self.new) }
        ensures whole { OnOk result (whole self.new) };
}
