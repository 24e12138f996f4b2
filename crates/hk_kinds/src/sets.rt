//! The lattices of sets.
ghost use Rattle.std.specs.Prelude.{◌==◌, bit_and, bit_or};
ghost use Rattle.hk_kinds.specs.Sets.{IsSet};
ghost use Rattle.hk_kinds.specs.SetLattices.{some_sets, all_sets};

use crate::lattices::Lattice;

/// A set of values that joins by union: the values that some path has.
#[derive(Clone, Copy, Debug, PartialEq, Eq)]
pub struct SomeSet(pub u128);

/// A set of values that joins by intersection: the values that all paths have.
#[derive(Clone, Copy, Debug, PartialEq, Eq)]
pub struct AllSet(pub u128);

impl Lattice for SomeSet {
    ghost valid = { λ a. IsSet a.0 };

    ghost join = { λ a b. record { 0 = bit_or a.0 b.0 } };

    ghost above = { λ a b. bit_or a.0 b.0 == a.0 };

    ghost laws = { some_sets };

    fn join_into(&mut self, other: &SomeSet) {
        self.0 |= other.0;
    }

    fn covers(&self, other: &SomeSet) -> bool {
        self.0 | other.0 == self.0
    }

    fn know(&self) {
        let _set = self.0;
    }
}

impl Lattice for AllSet {
    ghost valid = { λ a. IsSet a.0 };

    ghost join = { λ a b. record { 0 = bit_and a.0 b.0 } };

    ghost above = { λ a b. bit_and a.0 b.0 == a.0 };

    ghost laws = { all_sets };

    fn join_into(&mut self, other: &AllSet) {
        self.0 &= other.0;
    }

    fn covers(&self, other: &AllSet) -> bool {
        self.0 & other.0 == self.0
    }

    fn know(&self) {
        let _set = self.0;
    }
}
