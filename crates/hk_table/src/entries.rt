//! The entries of a row.
ghost use Rattle.std.specs.Prelude.{◌≡◌, ◌↔◌, ℕ, Some};

/// Where a row leads by a value.
///
/// A Gone entry leads nowhere, since no path has it or its value was taken away. A Cut one fails
/// its test whatever comes after it. A Dead or a Live one leads to a row of the next layer, a Dead
/// one in vain: no path goes on from there, or the test fails once it is known what comes after.
#[derive(Clone, Copy, Debug, PartialEq, Eq)]
pub enum Entry {
    Gone,
    Cut,
    Dead(u16),
    Live(u16),
}

impl Entry {
    /// The row of the next layer that the entry leads to, where it is Live.
    #[inline]
    pub fn live(self) -> Option<u16>
        ensures { (row : ℕ) → (result ≡ Some row) ↔ (self ≡ Entry.Live row) }
    {
        match self {
            Entry::Live(row) => Some(row),
            Entry::Gone | Entry::Cut | Entry::Dead(_) => None,
        }
    }
}
