//! The laws of tables, which the contracts of these functions state. The functions do nothing.
ghost use Rattle.std.specs.Prelude.{ℕ, ◌<◌, List, length, slice_index};
ghost use Rattle.hk_table.specs.Fits.{Fits};
ghost use Rattle.hk_table.specs.Keeps.{Keeps, LieIn, Supports};
ghost use Rattle.hk_table.specs.Opening.{opening_table};
ghost use Rattle.hk_table.specs.Tables.{PlainRow, PlainShape};

/// The opening table fits what it is made for.
pub fn opening_table_fits()
    ensures { (shape : PlainShape) → Fits shape (opening_table shape) }
{}

/// The opening table keeps every assignment whose values lie in the sets.
pub fn opening_table_keeps_all()
    ensures { (shape : PlainShape) (assignment : List ℕ) → LieIn shape.domains assignment → Keeps shape (opening_table shape) assignment }
{}

/// The values of an assignment that a table keeps are supported, each at its layer.
pub fn kept_values_are_supported()
    ensures { (shape : PlainShape) (table : List (List PlainRow)) (assignment : List ℕ) → Keeps shape table assignment → (level : ℕ) → level < length assignment → Supports shape table level (slice_index assignment level) }
{}
