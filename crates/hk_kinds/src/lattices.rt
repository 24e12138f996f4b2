//! Lattices: values that have joins.
ghost use Rattle.std.specs.Prelude.{◌≡◌, Bool};
ghost use Rattle.hk_kinds.specs.Lattices.{IsLattice};

/// Values of which any two have a join: it covers both, and whatever covers both covers it.
pub trait Lattice: Drop {
    // The fields are numbers of their types.
    ghost valid: { Self → Type 0 };

    ghost join: { Self → Self → Self };

    // Whether the first covers the second.
    ghost above: { Self → Self → Bool };

    /// Becomes the join with `other`.
    fn join_into(&mut self, other: &Self)
        ensures { self.new ≡ join self.old other.now };

    /// Whether this value covers `other`.
    fn covers(&self, other: &Self) -> bool
        ensures { result ≡ above self.now other.now };

    /// Makes known that this value is valid.
    fn know(&self)
        ensures { valid self.now };

    ghost laws: { IsLattice valid join above };
}

/// The join of two values.
pub fn joined<L: Lattice>(mine: L, theirs: L) -> L
    ensures { result ≡ L.join mine theirs }
{
    let mut join = mine;
    join.join_into(&theirs);
    join
}

/// Whether the first value covers the second.
pub fn covers<L: Lattice>(mine: L, theirs: L) -> bool
    ensures { result ≡ L.above mine theirs }
{
    mine.covers(&theirs)
}
