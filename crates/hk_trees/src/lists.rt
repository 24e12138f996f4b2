//! Short lists of values that may fail to be made.
ghost use Rattle.std.specs.Prelude.{◌≡◌, [], ◌∷◌, ◌++◌, IfOk};

use hk_base::List;
use std::alloc::{AllocError, Global};

/// The list of one item.
pub fn list_of_one<T: Drop>(alloc: Global, item: T) -> Result<List<T>, AllocError>
    ensures { IfOk result (λ list. list ≡ item ∷ []) }
{
    with_item(List::new(alloc), item)
}

/// The list of two items.
pub fn list_of_two<T: Drop>(alloc: Global, items: (T, T)) -> Result<List<T>, AllocError>
    ensures { IfOk result (λ list. list ≡ items.0 ∷ items.1 ∷ []) }
{
    let (first, second) = items;
    match list_of_one(alloc, first) {
        Ok(list) => with_item(list, second),
        Err(refused) => {
            drop(second);
            Err(refused)
        }
    }
}

/// The list of three items.
pub fn list_of_three<T: Drop>(alloc: Global, items: ((T, T), T)) -> Result<List<T>, AllocError>
    ensures { IfOk result (λ list. list ≡ items.0.0 ∷ items.0.1 ∷ items.1 ∷ []) }
{
    let (two, third) = items;
    match list_of_two(alloc, two) {
        Ok(list) => with_item(list, third),
        Err(refused) => {
            drop(third);
            Err(refused)
        }
    }
}

/// A list with one more item at its end.
fn with_item<T: Drop>(list: List<T>, item: T) -> Result<List<T>, AllocError>
    ensures { IfOk result (λ longer. longer ≡ list ++ item ∷ []) }
{
    let mut list = list;
    match list.push(item) {
        Ok(()) => Ok(list),
        Err(refused) => {
            drop(list);
            Err(refused)
        }
    }
}
