//! What a cell can hold.

ghost use Rattle.std.specs.Prelude.{◌≡◌, ◌↔◌, IsTrue};

/// A value that a cell can hold.
pub(crate) trait Cell: Copy + Eq {
    /// Whether two values are the same one.
    fn is(self, other: Self) -> bool
        ensures { IsTrue result ↔ (self ≡ other) };
}

impl Cell for i64 {
    #[inline]
    fn is(self, other: i64) -> bool {
        self == other
    }
}

impl Cell for u128 {
    #[inline]
    fn is(self, other: u128) -> bool {
        self == other
    }
}

impl Cell for u32 {
    #[inline]
    fn is(self, other: u32) -> bool {
        self == other
    }
}
