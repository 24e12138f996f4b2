//! Diagrams without rows.
ghost use Rattle.std.specs.Prelude.{◌≡◌, [], IfOk, OnOk};
ghost use Rattle.hk_arena.specs.inside.Zeros.{zeros};

use crate::layout::Layout;
use hk_trail::Store;
use std::alloc::{AllocError, Global};

/// A store with all cells of a layout: each holds zero, so no layer has a row.
pub(crate) fn blank(alloc: Global, layout: &Layout) -> Result<Store, AllocError>
    ensures content { IfOk result (λ store. store.content ≡ zeros layout.now) }
    ensures stack { IfOk result (λ store. store.stack ≡ []) }
    ensures written { IfOk result (λ store. store.written ≡ []) }
{
    let mut store = Store::new(alloc);
    match grow(&mut store, layout) {
        Ok(()) => Ok(store),
        Err(refused) => {
            drop(store);
            Err(refused)
        }
    }
}

/// Adds all cells of a layout to a store that has none: each holds zero.
fn grow(store: &mut Store, layout: &Layout) -> Result<(), AllocError>
    requires empty { store.old.content ≡ record { nums = []; bits = []; words = [] } }
    requires stack { store.old.stack ≡ [] }
    ensures content { OnOk result (store.new.content ≡ zeros layout.now) }
    ensures stack { store.new.stack ≡ [] }
    ensures written { store.new.written ≡ store.old.written }
{
    store.grow_num(layout.num_count(), 0)?;
    store.grow_bits(layout.bits_count(), 0)?;
    store.grow_word(layout.word_count(), 0)?;
    Ok(())
}
