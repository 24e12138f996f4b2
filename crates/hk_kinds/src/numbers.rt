//! The lattices of numbers and of intervals.
ghost use Rattle.std.specs.Prelude.{◌&&◌, int_le, FitsSigned};
ghost use Rattle.std.specs.Int.{int_min, int_max, w64};
ghost use Rattle.hk_kinds.specs.NumberLattices.{min_numbers, max_numbers, spans};

use crate::lattices::Lattice;

/// A number of which the less covers the greater.
#[derive(Clone, Copy, Debug, PartialEq, Eq)]
pub struct MinNum(pub i64);

/// A number of which the greater covers the less.
#[derive(Clone, Copy, Debug, PartialEq, Eq)]
pub struct MaxNum(pub i64);

/// An interval from its first to its second number, which covers those within it.
#[derive(Clone, Copy, Debug, PartialEq, Eq)]
pub struct Span(pub i64, pub i64);

impl Lattice for MinNum {
    ghost valid = { λ a. FitsSigned w64 a.0 };

    ghost join = { λ a b. record { 0 = int_min a.0 b.0 } };

    ghost above = { λ a b. int_le a.0 b.0 };

    ghost laws = { min_numbers };

    fn join_into(&mut self, other: &MinNum) {
        self.0 = self.0.min(other.0);
    }

    fn covers(&self, other: &MinNum) -> bool {
        self.0 <= other.0
    }

    fn know(&self) {
        let _number = self.0;
    }
}

impl Lattice for MaxNum {
    ghost valid = { λ a. FitsSigned w64 a.0 };

    ghost join = { λ a b. record { 0 = int_max a.0 b.0 } };

    ghost above = { λ a b. int_le b.0 a.0 };

    ghost laws = { max_numbers };

    fn join_into(&mut self, other: &MaxNum) {
        self.0 = self.0.max(other.0);
    }

    fn covers(&self, other: &MaxNum) -> bool {
        other.0 <= self.0
    }

    fn know(&self) {
        let _number = self.0;
    }
}

impl Lattice for Span {
    ghost valid = { λ a. FitsSigned w64 a.0 × FitsSigned w64 a.1 };

    ghost join = { λ a b. record { 0 = int_min a.0 b.0; 1 = int_max a.1 b.1 } };

    ghost above = { λ a b. int_le a.0 b.0 && int_le b.1 a.1 };

    ghost laws = { spans };

    fn join_into(&mut self, other: &Span) {
        let Span(low, high) = *other;
        self.0 = self.0.min(low);
        self.1 = self.1.max(high);
    }

    fn covers(&self, other: &Span) -> bool {
        let Span(low, high) = *other;
        self.0 <= low && high <= self.1
    }

    fn know(&self) {
        let _first = self.0;
        let _second = self.1;
    }
}
