//! What revisions make of the opening table of a group's diagram.

ghost use Rattle.std.specs.Prelude.{◌≡◌, ◌+◌, ◌<◌, [], length, All, IsSome, IsTrue};
ghost use Rattle.hk_arena.specs.Diagrams.{DiagramLevels};
ghost use Rattle.hk_group.specs.Groups.{group_down_shape, group_up_shape};
ghost use Rattle.hk_sweep.specs.Revising.{AreFor, IsMadeFor};

use crate::composed::group_of;
use crate::lines::push_table;
use crate::parts::Part;
use crate::shapes::is_makeable;
use hk_arena::Diagram;
use hk_base::{Bytes, List};
use hk_cells::Steps;
use hk_group::Group;
use hk_sweep::{Buffers, revise, revise_in, shape_of};
use hk_table::Shape;
use std::alloc::{AllocError, Global};
use std::marker::Brand;
use std::sync::ledger::{Blank, Ledger};

/// A revision: the domains of all variables and the bound on the cost, and the lines of the table that
/// it makes.
#[derive(Clone, Copy)]
pub struct Revision {
    pub domains: &'static [u128],
    pub best: i64,
    pub text: &'static str,
}

/// The parts of a group, the sets of all variables in the model, the width, and revisions, of which each
/// has the table before it as the old one.
#[derive(Clone, Copy)]
pub struct Case {
    pub parts: &'static [Part],
    pub sets: &'static [u128],
    pub width: u16,
    pub revisions: &'static [Revision],
}

/// Whether each variable is below a number.
pub fn are_below(vars: &[u16], count: usize) -> bool
    ensures { IsTrue result → All (λ variable. variable < count) vars.now }
{
    vars.iter().all(|variable| usize::from(*variable) < count)
}

/// The lines of the table of a diagram.
pub fn lines_of(alloc: Global, diagram: &Diagram, group: &Group, last: u16) -> Option<Bytes>
    requires last { last ≡ length diagram.now.shape.domains }
    requires down { diagram.now.shape.down ≡ group_down_shape group.now }
    requires up { diagram.now.shape.up ≡ group_up_shape group.now }
{
    let mut lines = List::new(alloc);
    push_table(alloc, &mut lines, diagram, group, last).ok()?;
    Some(lines)
}

/// Whether these are the lines of the table of a diagram.
pub fn is_written(
    alloc: Global,
    diagram: &Diagram,
    group: &Group,
    last: u16,
    text: &[u8],
) -> Option<bool>
    requires last { last ≡ length diagram.now.shape.domains }
    requires down { diagram.now.shape.down ≡ group_down_shape group.now }
    requires up { diagram.now.shape.up ≡ group_up_shape group.now }
{
    let lines = lines_of(alloc, diagram, group, last)?;
    let told = lines.as_slice() == text;
    drop(lines);
    Some(told)
}

/// Makes a revision above a push in buffers that are lent, and says whether the table has its lines.
fn is_revised_in<L: Ledger>(
    alloc: Global,
    buffers: &mut Buffers,
    diagram: &mut Diagram,
    group: &Group,
    revision: &Revision,
    width: u16,
    last: u16,
    steps: &mut Steps<L>,
) -> Option<bool>
    requires buffers { AreFor group.now buffers.old }
    requires made { IsMadeFor group.now width diagram.old }
    requires last { last ≡ length diagram.old.shape.domains }
    requires few { length diagram.old.stack < 1000 }
    ensures buffers { AreFor group.now buffers.new }
    ensures diagram { IsSome result → diagram.new ≡ record diagram.old { table = diagram.new.table; numbers = diagram.new.numbers } }
{
    if !are_below(group.vars(), revision.domains.len()) {
        return None;
    }
    let (domains, best) = (revision.domains, revision.best);
    diagram.push().ok()?;
    revise_in(alloc, buffers, diagram, group, domains, best, width, steps).ok()?;
    let told = is_written(alloc, diagram, group, last, revision.text.as_bytes())?;
    diagram.pop(steps);
    Some(told)
}

/// Makes a revision, and says whether the table has its lines.
fn is_revised<L: Ledger>(
    alloc: Global,
    diagram: &mut Diagram,
    group: &Group,
    revision: &Revision,
    width: u16,
    last: u16,
    steps: &mut Steps<L>,
) -> Option<bool>
    requires made { IsMadeFor group.now width diagram.old }
    requires last { last ≡ length diagram.old.shape.domains }
    ensures { diagram.new ≡ record diagram.old { table = diagram.new.table; numbers = diagram.new.numbers } }
{
    if !are_below(group.vars(), revision.domains.len()) {
        return None;
    }
    let (domains, best) = (revision.domains, revision.best);
    revise(alloc, diagram, group, domains, best, width, steps).ok()?;
    is_written(alloc, diagram, group, last, revision.text.as_bytes())
}

/// Makes all revisions, one after the other, and says whether each table has its lines: first in buffers
/// that all of them are lent, and after a pop once more in its own.
fn are_revised<L: Ledger>(
    alloc: Global,
    buffers: &mut Buffers,
    diagram: &mut Diagram,
    group: &Group,
    revisions: &[Revision],
    width: u16,
    last: u16,
    steps: &mut Steps<L>,
) -> Option<bool>
    requires buffers { AreFor group.now buffers.old }
    requires made { IsMadeFor group.now width diagram.old }
    requires last { last ≡ length diagram.old.shape.domains }
    requires few { length diagram.old.stack < 1000 }
    ensures { IsSome result → diagram.new ≡ record diagram.old { table = diagram.new.table; numbers = diagram.new.numbers } }
{
    let mut told = true;
    for revision in revisions {
        let lent = is_revised_in(alloc, buffers, diagram, group, revision, width, last, steps)?;
        let own = is_revised(alloc, diagram, group, revision, width, last, steps)?;
        told = told && lent && own;
    }
    Some(told)
}

/// Whether all revisions above a push make tables of their lines, and whether the table is the one from
/// before, whose lines are told, after the pop.
fn are_taken_back<L: Ledger>(
    alloc: Global,
    buffers: &mut Buffers,
    diagram: &mut Diagram,
    group: &Group,
    case: &Case,
    last: u16,
    opening: &[u8],
    blank: Blank,
) -> Option<[bool; 2]>
    requires name { blank.name ≡ L.name }
    requires parts { blank.parts ≡ L.parts }
    requires some { 0 < blank.parts }
    requires buffers { AreFor group.now buffers.old }
    requires made { IsMadeFor group.now case.now.width diagram.old }
    requires last { last ≡ length diagram.old.shape.domains }
    requires few { length diagram.old.stack ≡ 0 }
{
    let mut steps = Steps::<L>::start(blank);
    diagram.push().ok()?;
    let told = are_revised(
        alloc,
        buffers,
        diagram,
        group,
        case.revisions,
        case.width,
        last,
        &mut steps,
    )?;
    diagram.pop(&mut steps);
    let back = is_written(alloc, diagram, group, last, opening)?;
    Some([told, back])
}

/// The same of a new diagram, whose lines are told, in new buffers.
fn are_buffered(
    alloc: Global,
    diagram: &mut Diagram,
    group: &Group,
    case: &Case,
    last: u16,
    opening: &[u8],
) -> Option<[bool; 2]>
    requires made { IsMadeFor group.now case.now.width diagram.old }
    requires last { last ≡ length diagram.old.shape.domains }
    requires few { length diagram.old.stack ≡ 0 }
{
    let mut buffers = Buffers::new(alloc, group).ok()?;
    let told = are_taken_back::<Brand>(
        alloc,
        &mut buffers,
        diagram,
        group,
        case,
        last,
        opening,
        Blank::new(1),
    );
    drop(buffers);
    told
}

/// The same of a new diagram.
fn are_made(
    alloc: Global,
    diagram: &mut Diagram,
    group: &Group,
    case: &Case,
    last: u16,
) -> Option<[bool; 2]>
    requires made { IsMadeFor group.now case.now.width diagram.old }
    requires last { last ≡ length diagram.old.shape.domains }
    requires few { length diagram.old.stack ≡ 0 }
{
    let opening = lines_of(alloc, diagram, group, last)?;
    let told = are_buffered(alloc, diagram, group, case, last, opening.as_slice());
    drop(opening);
    told
}

/// The same of a new diagram of a group.
fn are_shaped(alloc: Global, group: &Group, case: &Case) -> Option<[bool; 2]> {
    if !are_below(group.vars(), case.sets.len()) {
        return None;
    }
    let shape = shape_of(alloc, group, case.sets).ok()?;
    if !is_makeable(&shape, case.width) {
        return None;
    }
    let last = shape.domains.as_slice().len() as u16;
    let mut diagram = Diagram::make(alloc, &shape, case.width).ok()?;
    are_made(alloc, &mut diagram, group, case, last)
}

/// The same of a new diagram of the group of the parts.
pub fn answers(alloc: Global, case: &Case) -> Option<[bool; 2]> {
    let group = group_of(alloc, case.parts)?;
    let told = are_shaped(alloc, &group, case);
    drop(group);
    told
}
