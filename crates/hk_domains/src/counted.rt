//! Calls of a store by who keeps no count of the steps.

ghost use Rattle.std.specs.Prelude.{◌≡◌, ◌<◌, ◌∷◌, length, slice_index, slice_set, IsOk, OnOk, OnErr};
ghost use Rattle.hk_trail.specs.Pools.{HasSizes};

use hk_cells::{Id, Steps};
use hk_trail::Store;
use std::alloc::AllocError;
use std::marker::Brand;
use std::sync::ledger::{Blank, Ledger};

fn pop_counted<L: Ledger>(store: &mut Store, blank: Blank)
    requires name { blank.name ≡ L.name }
    requires parts { blank.parts ≡ L.parts }
    requires some { 0 < blank.parts }
    requires depth { 0 < length store.old.stack }
    ensures stack { store.old.stack ≡ store.new.content ∷ store.new.stack }
    ensures sizes { HasSizes store.old.content store.new.content }
{
    let mut steps = Steps::<L>::start(blank);
    store.pop(&mut steps);
}

/// Closes the highest level of a store, and keeps no count of the steps.
pub(crate) fn pop(store: &mut Store)
    requires { 0 < length store.old.stack }
    ensures stack { store.old.stack ≡ store.new.content ∷ store.new.stack }
    ensures sizes { HasSizes store.old.content store.new.content }
{
    pop_counted::<Brand>(store, Blank::new(1));
}

fn set_counted<L: Ledger>(
    store: &mut Store,
    id: Id<u128>,
    value: u128,
    blank: Blank,
) -> Result<(), AllocError>
    requires name { blank.name ≡ L.name }
    requires parts { blank.parts ≡ L.parts }
    requires some { 0 < blank.parts }
    requires place { id < length store.old.content.bits }
    ensures content { OnOk result (store.new.content ≡ record store.old.content { bits = slice_set store.old.content.bits id value }) }
    ensures equal { slice_index store.old.content.bits id ≡ value → IsOk result × (store.new ≡ store.old) }
    ensures stack { store.new.stack ≡ store.old.stack }
    ensures refused { OnErr result (store.new ≡ store.old) }
{
    let mut steps = Steps::<L>::start(blank);
    store.set_bits(id, value, &mut steps)
}

/// Makes a cell of a store hold a set, and keeps no count of the steps.
pub(crate) fn set_bits(store: &mut Store, id: Id<u128>, value: u128) -> Result<(), AllocError>
    requires { id < length store.old.content.bits }
    ensures content { OnOk result (store.new.content ≡ record store.old.content { bits = slice_set store.old.content.bits id value }) }
    ensures equal { slice_index store.old.content.bits id ≡ value → IsOk result × (store.new ≡ store.old) }
    ensures stack { store.new.stack ≡ store.old.stack }
    ensures refused { OnErr result (store.new ≡ store.old) }
{
    set_counted::<Brand>(store, id, value, Blank::new(1))
}
