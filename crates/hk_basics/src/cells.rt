//! Cells: pools of no cells, of one and of many.

ghost use Rattle.std.specs.Prelude.{◌≡◌, ◌<◌, []};

use hk_cells::{Pool, Steps};
use std::alloc::{AllocError, Global};
use std::marker::Brand;
use std::sync::ledger::{Blank, Ledger};
use std::test::Fail;

/// How many cells a pool has, and what the first five hold.
type Told = (u32, [i64; 5]);

/// Grows a pool of no cells by three and by two, changes one and reads all five.
fn change<L: Ledger>(pool: &mut Pool<i64>, steps: &mut Steps<L>) -> Result<Told, AllocError>
    requires { pool.old ≡ [] }
{
    pool.grow(3, 7)?;
    pool.grow(2, -1)?;
    pool.set(pool.id(1), 40, steps);
    let mut held = [0; 5];
    for at in 0..5 {
        held[at as usize] = pool.get(pool.id(at));
    }
    Ok((pool.len(), held))
}

/// The five cells of a pool that was grown and changed.
fn changed<L: Ledger>(alloc: Global, blank: Blank) -> Result<Told, AllocError>
    requires name { blank.name ≡ L.name }
    requires parts { blank.parts ≡ L.parts }
    requires some { 0 < blank.parts }
{
    let mut steps = Steps::<L>::start(blank);
    let mut pool = Pool::new(alloc);
    change(&mut pool, &mut steps)
}

/// How many cells a pool has that was grown by so many.
fn grown(alloc: Global, cells: u32) -> Result<u32, AllocError> {
    let mut pool = Pool::new(alloc);
    pool.grow(cells, 7i64)?;
    Ok(pool.len())
}

#[test]
fn a_write_changes_its_cell_alone(rt: HostRuntime) -> Result<(), Fail> {
    let told = changed::<Brand>(rt.alloc(), Blank::new(1))?;
    assert_eq!(rt; told, (5, [7, 40, 7, -1, -1]));
    Ok(())
}

#[test]
fn a_pool_grows_by_none_and_by_many(rt: HostRuntime) -> Result<(), Fail> {
    for cells in [0, 1, 1_000_000] {
        assert_eq!(rt; grown(rt.alloc(), cells)?, cells);
    }
    Ok(())
}
