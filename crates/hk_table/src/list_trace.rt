//! A trace that keeps the list of what it was told.
ghost use Rattle.std.specs.Prelude.{◌≡◌, [], OnOk, ⊤};
ghost use Rattle.hk_table.specs.Traces.{Appends, Tells, listed};

use crate::items::TraceItem;
use crate::tables::Row;
use crate::traces::{Trace, TraceFault};
use hk_base::{List, list_of};
use std::alloc::Global;
use std::marker::Model;

/// A trace that keeps the list of what it was told. It refuses for memory alone, and its list then
/// stays as it was.
#[derive(Debug, Drop)]
pub struct ListTrace {
    alloc: Global,
    items: List<TraceItem>,
}

impl Model for ListTrace {
    ghost use Rattle.std.specs.Prelude.{List};
    ghost use Rattle.hk_table.specs.declared.items.TraceItem.{TraceItem};

    ghost Value = { List TraceItem };

    ghost view = { λ trace. trace.items };
}

impl ListTrace {
    /// The trace that was told nothing yet.
    pub fn new(alloc: Global) -> ListTrace
        ensures { result ≡ [] }
    {
        ListTrace {
            alloc,
            items: List::new(alloc),
        }
    }

    /// What it was told, first to last.
    pub fn items(&self) -> &[TraceItem]
        ensures { result.now ≡ self.now }
    {
        self.items.as_slice()
    }

    /// Puts an item at the end of the list. Without memory for it the list stays as it was.
    fn keep(&mut self, item: TraceItem) -> Result<(), TraceFault>
        ensures appends { Appends self.old item result self.new }
    {
        if self.items.push(item).is_err() {
            return Err(TraceFault::Memory);
        }
        Ok(())
    }
}

impl Trace for ListTrace {
    ghost view = { listed };

    ghost whole = { λ _. ⊤ };

    fn pass(&mut self) -> Result<(), TraceFault>
        ensures tells { Tells (listed self.old) TraceItem.Pass result (listed self.new) }
        ensures whole { OnOk result ⊤ }
        ensures appends { Appends self.old TraceItem.Pass result self.new }
    {
        self.keep(TraceItem::Pass)
    }

    fn table(&mut self, group: u16) -> Result<(), TraceFault>
        ensures tells { Tells (listed self.old) (TraceItem.Table group) result (listed self.new) }
        ensures whole { OnOk result ⊤ }
        ensures appends { Appends self.old (TraceItem.Table group) result self.new }
    {
        self.keep(TraceItem::Table(group))
    }

    fn layer(&mut self, rows: u16) -> Result<(), TraceFault>
        ensures tells { Tells (listed self.old) (TraceItem.Layer rows) result (listed self.new) }
        ensures whole { OnOk result ⊤ }
        ensures appends { Appends self.old (TraceItem.Layer rows) result self.new }
    {
        self.keep(TraceItem::Layer(rows))
    }

    fn row(&mut self, row: &Row) -> Result<(), TraceFault>
        ensures tells { Tells (listed self.old) (TraceItem.Row row.now) result (listed self.new) }
        ensures whole { OnOk result ⊤ }
        ensures appends { Appends self.old (TraceItem.Row row.now) result self.new }
    {
        match row.copy(self.alloc) {
            Ok(row) => self.keep(TraceItem::Row(row)),
            Err(_) => Err(TraceFault::Memory),
        }
    }

    fn branch(&mut self, var: u16, value: u8) -> Result<(), TraceFault>
        ensures tells { Tells (listed self.old) (TraceItem.Branch var value) result (listed self.new) }
        ensures whole { OnOk result ⊤ }
        ensures appends { Appends self.old (TraceItem.Branch var value) result self.new }
    {
        self.keep(TraceItem::Branch(var, value))
    }

    fn failed(&mut self) -> Result<(), TraceFault>
        ensures tells { Tells (listed self.old) TraceItem.Fail result (listed self.new) }
        ensures whole { OnOk result ⊤ }
        ensures appends { Appends self.old TraceItem.Fail result self.new }
    {
        self.keep(TraceItem::Fail)
    }

    fn solution(&mut self, values: &[u8]) -> Result<(), TraceFault>
        ensures tells { Tells (listed self.old) (TraceItem.Sol values.now) result (listed self.new) }
        ensures whole { OnOk result ⊤ }
        ensures appends { Appends self.old (TraceItem.Sol values.now) result self.new }
    {
        match list_of(self.alloc, values) {
            Ok(values) => self.keep(TraceItem::Sol(values)),
            Err(_) => Err(TraceFault::Memory),
        }
    }

    fn unentered(&mut self) -> Result<(), TraceFault>
        ensures tells { Tells (listed self.old) TraceItem.OpenLeaf result (listed self.new) }
        ensures whole { OnOk result ⊤ }
        ensures appends { Appends self.old TraceItem.OpenLeaf result self.new }
    {
        self.keep(TraceItem::OpenLeaf)
    }
}
