//! A trace that keeps nothing.
ghost use Rattle.std.specs.Prelude.{IsOk, OnOk, ⊤};
ghost use Rattle.hk_table.specs.Traces.{Tells, silent};

use crate::items::TraceItem;
use crate::tables::Row;
use crate::traces::{Trace, TraceFault};

/// A trace that keeps nothing and never refuses.
#[derive(Debug, Drop)]
pub struct NullTrace;

impl Trace for NullTrace {
    ghost view = { λ _. silent };

    ghost whole = { λ _. ⊤ };

    fn pass(&mut self) -> Result<(), TraceFault>
        ensures tells { Tells silent TraceItem.Pass result silent }
        ensures whole { OnOk result ⊤ }
        ensures ok { IsOk result }
    {
        Ok(())
    }

    fn table(&mut self, group: u16) -> Result<(), TraceFault>
        ensures tells { Tells silent (TraceItem.Table group) result silent }
        ensures whole { OnOk result ⊤ }
        ensures ok { IsOk result }
    {
        Ok(())
    }

    fn layer(&mut self, rows: u16) -> Result<(), TraceFault>
        ensures tells { Tells silent (TraceItem.Layer rows) result silent }
        ensures whole { OnOk result ⊤ }
        ensures ok { IsOk result }
    {
        Ok(())
    }

    fn row(&mut self, row: &Row) -> Result<(), TraceFault>
        ensures tells { Tells silent (TraceItem.Row row.now) result silent }
        ensures whole { OnOk result ⊤ }
        ensures ok { IsOk result }
    {
        Ok(())
    }

    fn branch(&mut self, var: u16, value: u8) -> Result<(), TraceFault>
        ensures tells { Tells silent (TraceItem.Branch var value) result silent }
        ensures whole { OnOk result ⊤ }
        ensures ok { IsOk result }
    {
        Ok(())
    }

    fn failed(&mut self) -> Result<(), TraceFault>
        ensures tells { Tells silent TraceItem.Fail result silent }
        ensures whole { OnOk result ⊤ }
        ensures ok { IsOk result }
    {
        Ok(())
    }

    fn solution(&mut self, values: &[u8]) -> Result<(), TraceFault>
        ensures tells { Tells silent (TraceItem.Sol values.now) result silent }
        ensures whole { OnOk result ⊤ }
        ensures ok { IsOk result }
    {
        Ok(())
    }

    fn unentered(&mut self) -> Result<(), TraceFault>
        ensures tells { Tells silent TraceItem.OpenLeaf result silent }
        ensures whole { OnOk result ⊤ }
        ensures ok { IsOk result }
    {
        Ok(())
    }
}
