//! Sets of rows of one layer.
ghost use Rattle.std.specs.Prelude.{◌≡◌, ℕ, [], ◌+◌, ◌*◌, ◌^◌, ◌<◌, ◌↔◌, ◌⊎◌, IsTrue};
ghost use Rattle.hk_base.specs.Sets.{Has};
ghost use Rattle.hk_text.specs.Sets.{members_below};

use std::marker::Model;

/// A set of rows below 256. Contracts see the number whose bit r stands for the row r.
#[derive(Debug, Drop)]
pub struct RowSet {
    low: u128,
    high: u128,
}

impl Model for RowSet {
    ghost use Rattle.hk_table.specs.Halves.{AreHalves};
    ghost use Rattle.std.specs.Prelude.{ℕ, ◌+◌, ◌*◌, ◌^◌};

    ghost Value = { ℕ };

    ghost view = { λ s. s.high * 2 ^ 128 + s.low };

    ghost invariant = { λ s. AreHalves s.low s.high };
}

impl RowSet {
    /// The set of no row.
    pub fn empty() -> RowSet
        ensures { result ≡ 0 }
    {
        RowSet { low: 0, high: 0 }
    }

    /// The set whose rows below 128 are those of one half, and whose rows from 128 on are those of
    /// the other.
    #[inline]
    pub fn of_halves(low: u128, high: u128) -> RowSet
        ensures { result ≡ high * 2 ^ 128 + low }
    {
        RowSet { low, high }
    }

    /// The two halves that the set is made of: of its rows below 128, and of those from 128 on.
    #[inline]
    pub fn halves(&self) -> (u128, u128)
        ensures set { self.now ≡ result.1 * 2 ^ 128 + result.0 }
        ensures low { result.0 < 2 ^ 128 }
        ensures high { result.1 < 2 ^ 128 }
    {
        (self.low, self.high)
    }

    /// Whether the set has a row.
    #[inline]
    pub fn has(&self, row: u16) -> bool
        requires { row < 256 }
        ensures { IsTrue result ↔ Has self.now row }
    {
        if row < 128 {
            (self.low >> row) & 1 == 1
        } else {
            (self.high >> (row - 128)) & 1 == 1
        }
    }

    /// The same set.
    #[inline]
    pub fn copy(&self) -> RowSet
        ensures { result ≡ self.now }
    {
        RowSet {
            low: self.low,
            high: self.high,
        }
    }

    /// Whether the set has no row.
    #[inline]
    pub fn is_empty(&self) -> bool
        ensures { IsTrue result ↔ (members_below self.now 256 ≡ []) }
    {
        self.low == 0 && self.high == 0
    }

    /// Takes the rows of another set in.
    #[inline]
    pub fn unite(&mut self, other: &RowSet)
        ensures { (row : ℕ) → Has self.new row ↔ (Has self.old row ⊎ Has other.now row) }
    {
        self.low |= other.low;
        self.high |= other.high;
    }

    /// Takes a row in, and no other.
    #[inline]
    pub fn insert(&mut self, row: u16)
        requires { row < 256 }
        ensures { (other : ℕ) → Has self.new other ↔ (Has self.old other ⊎ (other ≡ row)) }
    {
        if row < 128 {
            self.low |= 1 << row;
        } else {
            self.high |= 1 << (row - 128);
        }
    }
}
