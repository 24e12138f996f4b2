//! The way up: the entries and up states of each layer, from the last one to the first.
ghost use Rattle.std.specs.Prelude.{◌≡◌, ◌<◌, ◌≤◌, ◌+◌, ◌∷◌, [], suc, List, length, slice_index_or, IfOk, OnOk};
ghost use Rattle.hk_group.specs.Groups.{group_up_shape};
ghost use Rattle.hk_layers.specs.Layers.{Half};
ghost use Rattle.hk_table.specs.Tables.{PlainRow};
ghost use Rattle.hk_sweep.specs.inside.Fallen.{AreFallen, FallsTo, IsFallen, no_layer, reached};
ghost use Rattle.hk_sweep.specs.inside.Frames.{IsFramed};
ghost use Rattle.hk_sweep.specs.inside.Rising.{IsRisen, IsRisenBelow};

use crate::descents::Descent;
use crate::fallen::Fallen;
use crate::frames::Frame;
use crate::writing::write_layer;
use hk_arena::Diagram;
use hk_base::pair;
use hk_cells::Steps;
use hk_group::Group;
use hk_kinds::State;
use hk_layers::{Rising, Ups, up_layer};
use hk_table::Entry;
use std::alloc::{AllocError, Global};
use std::marker::Model;
use std::mem::swap;
use std::sync::ledger::Ledger;

/// The up states of the layer that was written last, and lists that the way up works in; all keep their memory
/// for the next one.
#[derive(Drop)]
pub(crate) struct Ascent {
    below: Ups,
    ups: Ups,
    entries: Vec<Entry>,
    rising: Rising,
    initial: State,
}

impl Model for Ascent {
    ghost use Rattle.std.specs.Prelude.{◌≡◌, length};
    ghost use Rattle.hk_sweep.specs.Views.{AscentView};

    ghost Value = { AscentView };

    ghost view = { λ a. record { width = a.below.width; below = a.below.ups } };

    ghost invariant = { λ a. (length a.initial ≡ a.below.width) × (a.ups.width ≡ a.below.width) × (a.rising.width ≡ a.below.width) };
}

impl Ascent {
    /// No layer, for a group.
    pub(crate) fn new(alloc: Global, group: &Group) -> Result<Ascent, AllocError>
        ensures { IfOk result (λ ascent. ascent.width ≡ length (group_up_shape group.now)) }
    {
        let (_, shape) = group.shapes();
        let (rising, initial) = pair(Rising::new(alloc, shape), State::top(alloc, shape))?;
        let width = shape.as_slice().len();
        Ok(Ascent {
            below: Ups::new(alloc, width),
            ups: Ups::new(alloc, width),
            entries: Vec::new(alloc),
            rising,
            initial,
        })
    }

    /// Writes the last layer of a diagram, whose rows were reached on the way down.
    fn begin<L: Ledger>(
        &mut self,
        frame: &Frame<'_>,
        diagram: &mut Diagram,
        last: &Fallen,
        steps: &mut Steps<L>,
    ) -> Result<(), AllocError>
        requires framed { IsFramed frame.now diagram.old }
        requires width { self.old.width ≡ length (group_up_shape frame.now.group) }
        requires last { IsFallen frame.now last.now }
        ensures risen { (old : List (List PlainRow)) → length old ≡ length diagram.old.table → OnOk result (IsRisen frame.now diagram.old.shape.domains old (length diagram.old.shape.domains) last.now.halves diagram.new.table self.new.below) }
        ensures others { diagram.new ≡ record diagram.old { table = diagram.new.table; numbers = diagram.new.numbers } }
        ensures width { self.new.width ≡ self.old.width }
    {
        diagram.fits();
        let layer = frame.group.vars().len() as u16;
        frame.group.init_up(&mut self.initial);
        self.below.last(last.front.len(), &self.initial.view())?;
        self.entries.clear();
        write_layer(
            diagram,
            layer,
            &last.front,
            self.entries.as_slice(),
            &self.below,
            steps,
        )?;
        Ok(())
    }

    /// Goes up by one layer of a diagram, which led on to these rows.
    fn step<L: Ledger>(
        &mut self,
        frame: &Frame<'_>,
        diagram: &mut Diagram,
        layer: u16,
        fallen: &Fallen,
        steps: &mut Steps<L>,
    ) -> Result<(), AllocError>
        requires framed { IsFramed frame.now diagram.old }
        requires layer { layer < length diagram.old.shape.domains }
        requires width { self.old.width ≡ length (group_up_shape frame.now.group) }
        requires risen { IsRisenBelow frame.now diagram.old.shape.domains layer fallen.now diagram.old.table self.old.below }
        ensures risen { (old : List (List PlainRow)) (next : List Half) → FallsTo frame.now diagram.old.shape.domains old layer fallen.now next → IsRisen frame.now diagram.old.shape.domains old (suc layer) next diagram.old.table self.old.below → OnOk result (IsRisen frame.now diagram.old.shape.domains old layer fallen.now.halves diagram.new.table self.new.below) }
        ensures others { diagram.new ≡ record diagram.old { table = diagram.new.table; numbers = diagram.new.numbers } }
        ensures width { self.new.width ≡ self.old.width }
    {
        diagram.fits();
        let spot = frame.spot(diagram, layer);
        up_layer(
            &spot,
            &fallen.front,
            fallen.leads.as_slice(),
            &self.below,
            &mut self.entries,
            &mut self.ups,
            &mut self.rising,
        )?;
        write_layer(
            diagram,
            layer,
            &fallen.front,
            self.entries.as_slice(),
            &self.ups,
            steps,
        )?;
        swap(&mut self.below, &mut self.ups);
        Ok(())
    }

    /// Goes up from the last layer of a diagram to the first.
    pub(crate) fn rise<L: Ledger>(
        &mut self,
        frame: &Frame<'_>,
        diagram: &mut Diagram,
        descent: &Descent,
        steps: &mut Steps<L>,
    ) -> Result<(), AllocError>
        requires framed { IsFramed frame.now diagram.old }
        requires width { self.old.width ≡ length (group_up_shape frame.now.group) }
        requires room { length diagram.old.shape.domains ≤ length descent.now.layers }
        requires here { IsFallen frame.now descent.now.here }
        requires fallen { AreFallen frame.now diagram.old.shape.domains diagram.old.table (reached (length diagram.old.shape.domains) descent.now) }
        ensures risen { OnOk result (IsRisen frame.now diagram.old.shape.domains diagram.old.table 0 (slice_index_or (reached (length diagram.old.shape.domains) descent.now) 0 no_layer).halves diagram.new.table self.new.below) }
        ensures others { diagram.new ≡ record diagram.old { table = diagram.new.table; numbers = diagram.new.numbers } }
        ensures width { self.new.width ≡ self.old.width }
    {
        diagram.fits();
        self.begin(frame, diagram, &descent.here, steps)?;
        let mut layer = frame.group.vars().len() as u16;
        while layer > 0 {
            layer -= 1;
            let fallen = &descent.layers.as_slice()[layer as usize];
            self.step(frame, diagram, layer, fallen, steps)?;
        }
        Ok(())
    }
}
