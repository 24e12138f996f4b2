//! Revisions of the diagrams of all groups, in chunks.

ghost use Rattle.std.specs.Prelude.{◌≡◌, ℕ, ◌<◌, length, slice_index_or, All, IfOk, IfSome, OnOk};
ghost use Rattle.hk_group.specs.Groups.{PlainGroup};
ghost use Rattle.hk_sweep.specs.Loose.{group_shape};
ghost use Rattle.hk_sweep.specs.Revising.{AreFor};
ghost use Rattle.hk_sweep.specs.Tight.{tight_revision};
ghost use Rattle.hk_prop.specs.Works.{AreWorksFor, IsWorkFor, WorkView};
ghost use Rattle.hk_prop.specs.inside.Revised.{IsRevised, IsTellable};

use crate::rounds::Round;
use crate::work::Work;
use hk_arena::Diagram;
use hk_base::Gate;
use hk_cells::Steps;
use hk_group::Group;
use hk_sweep::{Buffers, revise_in};
use std::alloc::{AllocError, Global};
use std::marker::Brand;
use std::sync::ledger::{Blank, Ledger};

fn revise_counted<L: Ledger>(
    alloc: Global,
    buffers: &mut Buffers,
    diagram: &mut Diagram,
    group: &Group,
    round: &Round<'_>,
    blank: Blank,
) -> Result<(), AllocError>
    requires name { blank.name ≡ L.name }
    requires parts { blank.parts ≡ L.parts }
    requires some { 0 < blank.parts }
    requires buffers { AreFor group.now buffers.old }
    requires shape { diagram.old.shape ≡ group_shape group.now round.now.problem.domains }
    requires wide { diagram.old.width ≡ round.now.width }
    requires domains { All (λ variable. variable < length round.now.domains) group.now.vars }
    ensures table { OnOk result (diagram.new.table ≡ tight_revision group.now round.now.problem.domains round.now.domains round.now.best round.now.width diagram.old.table) }
    ensures others { diagram.new ≡ record diagram.old { table = diagram.new.table; numbers = diagram.new.numbers } }
    ensures buffers { AreFor group.now buffers.new }
{
    let mut steps = Steps::<L>::start(blank);
    let (domains, best) = (round.domains, round.best);
    revise_in(
        alloc,
        buffers,
        diagram,
        group,
        domains,
        best,
        round.width,
        &mut steps,
    )
}

/// Makes the table of a diagram its tight revision, in buffers that are lent, and keeps no count of the steps.
fn revise_uncounted(
    alloc: Global,
    buffers: &mut Buffers,
    diagram: &mut Diagram,
    group: &Group,
    round: &Round<'_>,
) -> Result<(), AllocError>
    requires buffers { AreFor group.now buffers.old }
    requires shape { diagram.old.shape ≡ group_shape group.now round.now.problem.domains }
    requires wide { diagram.old.width ≡ round.now.width }
    requires domains { All (λ variable. variable < length round.now.domains) group.now.vars }
    ensures table { OnOk result (diagram.new.table ≡ tight_revision group.now round.now.problem.domains round.now.domains round.now.best round.now.width diagram.old.table) }
    ensures tellable { OnOk result (IsTellable diagram.new.table) }
    ensures others { diagram.new ≡ record diagram.old { table = diagram.new.table; numbers = diagram.new.numbers } }
    ensures buffers { AreFor group.now buffers.new }
{
    diagram.fits();
    let _variables = group.vars();
    revise_counted::<Brand>(alloc, buffers, diagram, group, round, Blank::new(1))
}

/// Buffers for a group: those that are there, or else new ones.
fn buffers_of(alloc: Global, buffers: Option<Buffers>, group: &Group) -> Result<Buffers, AllocError>
    requires { IfSome buffers (AreFor group.now) }
    ensures { IfOk result (AreFor group.now) }
{
    match buffers {
        Some(buffers) => Ok(buffers),
        None => Buffers::new(alloc, group),
    }
}

impl Work {
    /// Makes the table of the diagram its tight revision.
    fn try_revise(
        &mut self,
        alloc: Global,
        group: &Group,
        round: &Round<'_>,
    ) -> Result<(), AllocError>
        requires work { IsWorkFor group.now round.now.problem.domains round.now.width self.old }
        requires domains { All (λ variable. variable < length round.now.domains) group.now.vars }
        ensures table { OnOk result (self.new.diagram.table ≡ tight_revision group.now round.now.problem.domains round.now.domains round.now.best round.now.width self.old.diagram.table) }
        ensures tellable { OnOk result (IsTellable self.new.diagram.table) }
        ensures others { self.new.diagram ≡ record self.old.diagram { table = self.new.diagram.table; numbers = self.new.diagram.numbers } }
        ensures buffers { IfSome self.new.buffers (AreFor group.now) }
    {
        let had = self.buffers.take();
        let mut buffers = buffers_of(alloc, had, group)?;
        let result = revise_uncounted(alloc, &mut buffers, &mut self.diagram, group, round);
        let none = self.buffers.replace(buffers);
        drop(none);
        result
    }

    /// Makes the table of the diagram its tight revision, or says in `refused` that memory was refused.
    fn revise(&mut self, alloc: Global, group: &Group, round: &Round<'_>)
        requires work { IsWorkFor group.now round.now.problem.domains round.now.width self.old }
        requires domains { All (λ variable. variable < length round.now.domains) group.now.vars }
        ensures { IsRevised group.now round.now self.old self.new }
    {
        self.refused = self.try_revise(alloc, group, round).is_err();
    }
}

/// Tells a gate that a chunk of so many diagrams begins with this diagram, where one does: its number, from 1.
fn enter<G: Gate>(gate: &G, at: usize, size: usize)
    requires some { 0 < size }
    requires few { at < 65536 }
{
    if at % size == 0 {
        gate.enter((at / size) as u32 + 1);
    }
}

/// Revises the diagrams of all groups, chunk after chunk, in as many chunks as there are workers or fewer.
/// The gate is told the number of each chunk, from 1.
pub(crate) fn revise_all<G: Gate>(
    alloc: Global,
    work: &mut [Work],
    round: &Round<'_>,
    workers: u16,
    gate: &G,
)
    requires workers { 0 < workers }
    requires works { AreWorksFor round.now.problem round.now.width work.old }
    requires domains { length round.now.domains ≡ length round.now.problem.domains }
    ensures long { length work.new ≡ length work.old }
    ensures revised { (k : ℕ) (g : PlainGroup) (w : WorkView) → k < length work.old → IsRevised (slice_index_or round.now.problem.groups k g) round.now (slice_index_or work.old k w) (slice_index_or work.new k w) }
{
    let groups = round.problem.groups();
    if work.is_empty() {
        return;
    }
    let size = work.len().div_ceil(usize::from(workers));
    'diagrams: for at in 0..work.len() {
        enter(gate, at, size);
        work[at].revise(alloc, &groups[at], round);
    }
}
