//! The revision of a diagram in place.
ghost use Rattle.std.specs.Prelude.{◌≡◌, ◌<◌, ℕ, List, length, All, IfOk, OnOk};
ghost use Rattle.hk_sweep.specs.Loose.{group_shape};
ghost use Rattle.hk_sweep.specs.Revising.{AreFor, IsMadeFor};
ghost use Rattle.hk_sweep.specs.Tight.{tight_revision};

use crate::ascents::Ascent;
use crate::descents::Descent;
use crate::frames::Frame;
use hk_arena::Diagram;
use hk_base::pair;
use hk_cells::Steps;
use hk_group::Group;
use std::alloc::{AllocError, Global};
use std::marker::Model;
use std::sync::ledger::Ledger;

/// Lists that revisions of one group's diagrams work in. They keep their memory, so that a
/// later revision grows them only where it needs more room.
#[derive(Drop)]
pub struct Buffers {
    descent: Descent,
    ascent: Ascent,
}

impl Model for Buffers {
    ghost use Rattle.hk_sweep.specs.Revising.{BuffersView};

    ghost Value = { BuffersView };

    ghost view = { λ b. record { downs = b.descent.width; ups = b.ascent.width; top = b.descent.top } };
}

impl Buffers {
    /// Empty buffers for a group's diagrams.
    pub fn new(alloc: Global, group: &Group) -> Result<Buffers, AllocError>
        ensures { IfOk result (AreFor group.now) }
    {
        let (descent, ascent) = pair(Descent::new(alloc, group), Ascent::new(alloc, group))?;
        Ok(Buffers { descent, ascent })
    }
}

/// Makes the table of a diagram its tight revision under the domains of all variables, a bound on the cost and
/// the width, in buffers that are lent. The tables at the open pushes stay. Where memory is refused, the diagram
/// is only good for `pop`, which gives the saved table.
pub fn revise_in<L: Ledger>(
    alloc: Global,
    buffers: &mut Buffers,
    diagram: &mut Diagram,
    group: &Group,
    domains: &[u128],
    best: i64,
    width: u16,
    steps: &mut Steps<L>,
) -> Result<(), AllocError>
    requires buffers { AreFor group.now buffers.old }
    requires made { IsMadeFor group.now width diagram.old }
    requires domains { All (λ variable. variable < length domains.now) group.now.vars }
    ensures table { (sets : List ℕ) → diagram.old.shape ≡ group_shape group.now sets → OnOk result (diagram.new.table ≡ tight_revision group.now sets domains.now best width diagram.old.table) }
    ensures others { diagram.new ≡ record diagram.old { table = diagram.new.table; numbers = diagram.new.numbers } }
    ensures buffers { AreFor group.now buffers.new }
{
    let _variables = group.vars();
    let frame = Frame {
        group,
        domains,
        best,
        width,
    };
    buffers.descent.fall(alloc, &frame, diagram)?;
    buffers
        .ascent
        .rise(&frame, diagram, &buffers.descent, steps)?;
    Ok(())
}

/// `revise_in` with buffers of its own.
pub fn revise<L: Ledger>(
    alloc: Global,
    diagram: &mut Diagram,
    group: &Group,
    domains: &[u128],
    best: i64,
    width: u16,
    steps: &mut Steps<L>,
) -> Result<(), AllocError>
    requires made { IsMadeFor group.now width diagram.old }
    requires domains { All (λ variable. variable < length domains.now) group.now.vars }
    ensures table { (sets : List ℕ) → diagram.old.shape ≡ group_shape group.now sets → OnOk result (diagram.new.table ≡ tight_revision group.now sets domains.now best width diagram.old.table) }
    ensures others { diagram.new ≡ record diagram.old { table = diagram.new.table; numbers = diagram.new.numbers } }
{
    let mut buffers = Buffers::new(alloc, group)?;
    let result = revise_in(
        alloc,
        &mut buffers,
        diagram,
        group,
        domains,
        best,
        width,
        steps,
    );
    drop(buffers);
    result
}
