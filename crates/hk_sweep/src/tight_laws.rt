//! The laws of tight revisions, which the contracts of these functions state. The functions do nothing.
ghost use Rattle.std.specs.Prelude.{◌≡◌, ℕ, ℤ, ◌+◌, ◌<◌, List, length};
ghost use Rattle.hk_group.specs.Groups.{PlainGroup, IsGroup};
ghost use Rattle.hk_table.specs.Fits.{Fits};
ghost use Rattle.hk_table.specs.Tables.{PlainRow};
ghost use Rattle.hk_sweep.specs.Loose.{IsLooseRevision, group_shape};
ghost use Rattle.hk_sweep.specs.Tight.{tight_revision};
ghost use Rattle.hk_sweep.specs.Widths.{HasFirstRow, IsWithinWidth, NamesRows, AllComeFromRows};

/// The tight revision of a table of a group is a loose revision of it, where the first layer has a
/// row.
pub fn tight_revision_is_loose()
    ensures { (g : PlainGroup) (sets domains : List ℕ) (best : ℤ) (width : ℕ) (old : List (List PlainRow)) → IsGroup g → 0 < width → length old ≡ length g.vars + 1 → HasFirstRow old → IsLooseRevision g sets domains best old (tight_revision g sets domains best width old) }
{}

/// The tight revision of a table of a group fits, each of its layers keeps within the width, and all
/// rows that its entries name are there. Where the first layer of the older table has a row, each row
/// comes from some of the older rows, and from none that isn't there.
pub fn tight_revision_fits()
    ensures fits { (g : PlainGroup) (sets domains : List ℕ) (best : ℤ) (width : ℕ) (old : List (List PlainRow)) → IsGroup g → 0 < width → length old ≡ length g.vars + 1 → Fits (group_shape g sets) (tight_revision g sets domains best width old) }
    ensures within { (g : PlainGroup) (sets domains : List ℕ) (best : ℤ) (width : ℕ) (old : List (List PlainRow)) → IsGroup g → 0 < width → length old ≡ length g.vars + 1 → IsWithinWidth width (tight_revision g sets domains best width old) }
    ensures names { (g : PlainGroup) (sets domains : List ℕ) (best : ℤ) (width : ℕ) (old : List (List PlainRow)) → IsGroup g → 0 < width → length old ≡ length g.vars + 1 → NamesRows (tight_revision g sets domains best width old) }
    ensures comes { (g : PlainGroup) (sets domains : List ℕ) (best : ℤ) (width : ℕ) (old : List (List PlainRow)) → IsGroup g → 0 < width → length old ≡ length g.vars + 1 → HasFirstRow old → AllComeFromRows old (tight_revision g sets domains best width old) }
{}
