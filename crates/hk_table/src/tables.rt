//! Tables, the rows that they are made of, and the shapes that they are made for.

use crate::entries::Entry;
use hk_base::List;
use hk_kinds::{Shape1, State};
use std::marker::Model;

/// A row of a table: its states, the rows of an older table that it comes from, and one entry for
/// each value of its layer, ascending.
#[derive(Debug, Drop)]
pub struct Row {
    pub down: State,
    pub up: Option<State>,
    pub from: List<u16>,
    pub entries: List<Entry>,
}

impl Model for Row {
    ghost use Rattle.hk_table.specs.Tables.{PlainRow};

    ghost Value = { PlainRow };

    ghost view = { λ r. record { down = r.down; up = r.up; from = r.from; entries = r.entries } };
}

/// What a table is made for: the shapes of its states, and for each layer but the last the set of
/// its values.
#[derive(Debug, Drop)]
pub struct Shape {
    pub down: Shape1,
    pub up: Shape1,
    pub domains: List<u128>,
}

impl Model for Shape {
    ghost use Rattle.hk_table.specs.Tables.{PlainShape};

    ghost Value = { PlainShape };

    ghost view = { λ s. record { down = s.down; up = s.up; domains = s.domains } };
}

/// The layers of a table, first to last, as lists of rows.
pub type Layers = List<List<Row>>;

/// A table: its layers, each a list of rows.
#[derive(Debug, Drop)]
pub struct Table {
    pub layers: Layers,
}

impl Model for Table {
    ghost use Rattle.std.specs.Prelude.{List};
    ghost use Rattle.hk_table.specs.Tables.{PlainRow};

    ghost Value = { List (List PlainRow) };

    ghost view = { λ t. t.layers };
}
