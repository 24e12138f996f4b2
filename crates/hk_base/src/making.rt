//! Values that may fail to be made: two together, and lists of plain items. What a failure leaves is
//! dropped by a call: the drops that the compiler writes where a scope ends are proved anew at each way
//! out, and cost the most of a proof.
ghost use Rattle.std.specs.Prelude.{◌≡◌, ◌⊎◌, Ok, Err, IfOk, IfErr};

use crate::list::List;
use std::alloc::{AllocError, Global};

/// Both of two values that are made, or the failure of the first that failed.
pub fn pair<A: Drop, B: Drop>(
    first: Result<A, AllocError>,
    second: Result<B, AllocError>,
) -> Result<(A, B), AllocError>
    ensures first { IfOk result (λ made. first ≡ Ok made.0) }
    ensures second { IfOk result (λ made. second ≡ Ok made.1) }
    ensures failed { IfErr result (λ refused. (first ≡ Err refused) ⊎ (second ≡ Err refused)) }
{
    match first {
        Err(refused) => {
            drop(second);
            Err(refused)
        }
        Ok(a) => match second {
            Err(refused) => {
                drop(a);
                Err(refused)
            }
            Ok(b) => Ok((a, b)),
        },
    }
}

/// A list of plain items, as bytes or numbers.
pub fn list_of<T: Copy>(alloc: Global, items: &[T]) -> Result<List<T>, AllocError>
    ensures { IfOk result (λ list. list ≡ items.now) }
{
    let mut list = List::new(alloc);
    match list.push_all(items) {
        Ok(()) => Ok(list),
        Err(refused) => {
            drop(list);
            Err(refused)
        }
    }
}
