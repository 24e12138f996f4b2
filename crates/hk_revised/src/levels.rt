//! A thousand levels of a diagram above one another, each with a revision: the pops give back each table.

ghost use Rattle.std.specs.Prelude.{◌≡◌, ◌<◌, [], length, All, IsSome};
ghost use Rattle.hk_group.specs.Groups.{group_down_shape, group_up_shape};
ghost use Rattle.hk_sweep.specs.Revising.{AreFor, IsMadeFor};

use crate::composed::group_of;
use crate::parts::{Part, Rule};
use crate::running::{are_below, is_written, lines_of};
use crate::shapes::is_makeable;
use hk_arena::Diagram;
use hk_base::{Bytes, List};
use hk_cells::Steps;
use hk_group::Group;
use hk_sweep::{Buffers, revise_in, shape_of};
use std::alloc::Global;
use std::marker::Brand;
use std::sync::ledger::{Blank, Ledger};

/// Each pair of values costs another number, from 0 to 950.
const COSTS: &[Part] = &[Part {
    rule: Rule::Objective(&[250, 50]),
    scope: &[0, 1],
}];

/// The values 0 to 3 and 0 to 4.
const SETS: &[u128] = &[0b1111, 0b11111];

const WIDTH: u16 = 16;

const LEVELS: u16 = 1000;

/// Opens the levels, and keeps the lines of the table below each. The bound on the cost is one less at
/// each, so that every fiftieth takes one more pair away. Says whether some table is another one than
/// that below it.
fn go_up<L: Ledger>(
    alloc: Global,
    buffers: &mut Buffers,
    diagram: &mut Diagram,
    group: &Group,
    width: u16,
    last: u16,
    tables: &mut List<Bytes>,
    steps: &mut Steps<L>,
) -> Option<bool>
    requires buffers { AreFor group.now buffers.old }
    requires made { IsMadeFor group.now width diagram.old }
    requires last { last ≡ length diagram.old.shape.domains }
    requires domains { All (λ variable. variable < 2) group.now.vars }
    requires stack { diagram.old.stack ≡ [] }
    requires none { tables.old ≡ [] }
    ensures made { (diagram.new.shape ≡ diagram.old.shape) × (diagram.new.width ≡ diagram.old.width) }
    ensures stack { IsSome result → length diagram.new.stack ≡ 1000 }
    ensures tables { IsSome result → length tables.new ≡ 1000 }
{
    let mut differ = false;
    for level in 0..LEVELS {
        tables.push(lines_of(alloc, diagram, group, last)?).ok()?;
        diagram.push().ok()?;
        let best = i64::from(LEVELS - level);
        revise_in(alloc, buffers, diagram, group, SETS, best, width, steps).ok()?;
        let below = tables.as_slice()[usize::from(level)].as_slice();
        differ |= !is_written(alloc, diagram, group, last, below)?;
    }
    Some(differ)
}

/// Closes the levels, and says whether each pop gives back the table of its level.
fn go_down<L: Ledger>(
    alloc: Global,
    diagram: &mut Diagram,
    group: &Group,
    last: u16,
    tables: &[Bytes],
    steps: &mut Steps<L>,
) -> Option<bool>
    requires down { diagram.old.shape.down ≡ group_down_shape group.now }
    requires up { diagram.old.shape.up ≡ group_up_shape group.now }
    requires last { last ≡ length diagram.old.shape.domains }
    requires stack { length diagram.old.stack ≡ 1000 }
    requires tables { length tables.now ≡ 1000 }
{
    let mut same = true;
    for level in 0..LEVELS {
        diagram.pop(steps);
        let lines = tables[usize::from(LEVELS - 1 - level)].as_slice();
        same = same && is_written(alloc, diagram, group, last, lines)?;
    }
    Some(same)
}

/// Goes up and down again, and says whether some table differed from the one below it, and whether each
/// was given back.
fn go_through<L: Ledger>(
    alloc: Global,
    buffers: &mut Buffers,
    diagram: &mut Diagram,
    group: &Group,
    width: u16,
    last: u16,
    tables: &mut List<Bytes>,
    blank: Blank,
) -> Option<[bool; 2]>
    requires name { blank.name ≡ L.name }
    requires parts { blank.parts ≡ L.parts }
    requires some { 0 < blank.parts }
    requires buffers { AreFor group.now buffers.old }
    requires made { IsMadeFor group.now width diagram.old }
    requires last { last ≡ length diagram.old.shape.domains }
    requires domains { All (λ variable. variable < 2) group.now.vars }
    requires stack { diagram.old.stack ≡ [] }
    requires none { tables.old ≡ [] }
{
    let mut steps = Steps::<L>::start(blank);
    let differ = go_up(
        alloc, buffers, diagram, group, width, last, tables, &mut steps,
    )?;
    let same = go_down(alloc, diagram, group, last, tables.as_slice(), &mut steps)?;
    Some([differ, same])
}

/// The same of a new diagram, in new buffers.
fn are_given_back(
    alloc: Global,
    diagram: &mut Diagram,
    group: &Group,
    width: u16,
    last: u16,
) -> Option<[bool; 2]>
    requires made { IsMadeFor group.now width diagram.old }
    requires last { last ≡ length diagram.old.shape.domains }
    requires domains { All (λ variable. variable < 2) group.now.vars }
    requires stack { diagram.old.stack ≡ [] }
{
    let mut buffers = Buffers::new(alloc, group).ok()?;
    let mut tables = List::new(alloc);
    let told = go_through::<Brand>(
        alloc,
        &mut buffers,
        diagram,
        group,
        width,
        last,
        &mut tables,
        Blank::new(1),
    );
    drop(buffers);
    drop(tables);
    told
}

/// The same of a new diagram of a group, whose variables have these sets of values.
fn of_group(alloc: Global, group: &Group, sets: &[u128], width: u16) -> Option<[bool; 2]> {
    if sets.len() > 2 || !are_below(group.vars(), sets.len()) {
        return None;
    }
    let shape = shape_of(alloc, group, sets).ok()?;
    if !is_makeable(&shape, width) {
        return None;
    }
    let last = shape.domains.as_slice().len() as u16;
    let mut diagram = Diagram::make(alloc, &shape, width).ok()?;
    are_given_back(alloc, &mut diagram, group, width, last)
}

/// The same of the group of the costs.
fn answer(alloc: Global) -> Option<[bool; 2]> {
    let group = group_of(alloc, COSTS)?;
    let told = of_group(alloc, &group, SETS, WIDTH);
    drop(group);
    told
}

#[test]
fn a_thousand_levels_are_given_back(rt: HostRuntime) {
    assert_eq!(rt; answer(rt.alloc()), Some([true; 2]));
}
