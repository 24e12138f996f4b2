//! The names of cells.

ghost use Rattle.std.specs.Prelude.{◌≡◌, ℕ};

use std::alloc::AllocError;
use std::marker::{Model, PhantomData};

/// The name of a cell in a pool of `T`. Contracts see it as the cell's place, counted from 0.
///
/// The type keeps an id of one kind of cell from being used in a pool of another kind. An id doesn't
/// say which pool it is of: a call that takes one asks that the pool has that place.
#[derive(Drop)]
pub struct Id<T> {
    at: u32,
    of: PhantomData<T>,
}

impl<T> Model for Id<T> {
    ghost Value = { ℕ };

    ghost view = { λ i. i.at };

    ghost inverse = { λ n. record { at = n; of = record {} } };
}

impl<T> Copy for Id<T> {}

impl<T> Clone for Id<T> {
    ghost is_clone = { λ x y. y ≡ x };

    ghost is_infallible = { λ _. Unit {0} };

    fn clone(&self) -> Result<Id<T>, AllocError> {
        Ok(Id {
            at: self.at,
            of: PhantomData,
        })
    }
}

impl<T> Id<T> {
    /// The id of a place.
    pub(crate) fn new(at: u32) -> Id<T>
        ensures { result ≡ at }
    {
        Id {
            at,
            of: PhantomData,
        }
    }

    /// The place of the cell in its pool, counted from 0.
    #[inline]
    pub fn place(self) -> u32
        ensures { result ≡ self }
    {
        self.at
    }
}
