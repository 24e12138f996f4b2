//! The way down: the rows of each layer, and where their values lead.
ghost use Rattle.std.specs.Prelude.{◌≡◌, ◌<◌, ◌≤◌, ◌+◌, ◌∷◌, [], length, IfOk, OnOk};
ghost use Rattle.hk_group.specs.Groups.{group_down_shape, group_up_shape};
ghost use Rattle.hk_kinds.specs.Tops.{top_state};
ghost use Rattle.hk_layers.specs.Flat.{AreShaped};
ghost use Rattle.hk_layers.specs.Transitions.{transitions_of};
ghost use Rattle.hk_sweep.specs.Tight.{first_half};
ghost use Rattle.hk_sweep.specs.inside.Fallen.{AreFallen, IsFallen, reached};
ghost use Rattle.hk_sweep.specs.inside.Frames.{IsFramed};

use crate::fallen::{Fallen, add_layers, exchange};
use crate::frames::Frame;
use hk_arena::Diagram;
use hk_base::pair;
use hk_group::Group;
use hk_kinds::State;
use hk_layers::DownBuffers;
use hk_table::Entry;
use std::alloc::{AllocError, Global};
use std::marker::Model;
use std::mem::swap;

/// The layers of a way down, and lists that it works in; all keep their memory for the next one.
#[derive(Drop)]
pub(crate) struct Descent {
    pub(crate) layers: Vec<Fallen>,
    pub(crate) here: Fallen,
    next: Fallen,
    initial: State,
    top: State,
    olds: Vec<Entry>,
    buffers: DownBuffers,
}

impl Model for Descent {
    ghost use Rattle.std.specs.Prelude.{◌≡◌, length, All};
    ghost use Rattle.hk_sweep.specs.Views.{DescentView, FallenView};

    ghost Value = { DescentView };

    ghost view = { λ d. record { width = d.buffers; top = d.top; layers = d.layers.items; here = d.here } };

    ghost invariant = { λ d. (length d.initial ≡ d.buffers) × (d.here.width ≡ d.buffers) × (d.next.width ≡ d.buffers) × All (λ (layer : FallenView). layer.width ≡ d.buffers) d.layers.items };
}

impl Descent {
    /// No layers, for a group.
    pub(crate) fn new(alloc: Global, group: &Group) -> Result<Descent, AllocError>
        ensures width { IfOk result (λ descent. descent.width ≡ length (group_down_shape group.now)) }
        ensures top { IfOk result (λ descent. descent.top ≡ top_state (group_up_shape group.now)) }
    {
        let (down, up) = group.shapes();
        let (initial, top) = pair(State::top(alloc, down), State::top(alloc, up))?;
        let width = initial.view().len();
        match DownBuffers::new(alloc, down) {
            Ok(buffers) => Ok(Descent {
                layers: Vec::new(alloc),
                here: Fallen::new(alloc, width),
                next: Fallen::new(alloc, width),
                initial,
                top,
                olds: Vec::new(alloc),
                buffers,
            }),
            Err(refused) => {
                drop(initial);
                drop(top);
                Err(refused)
            }
        }
    }

    /// Makes room for so many layers, beside the one that is reached.
    fn make_room(&mut self, alloc: Global, count: usize) -> Result<(), AllocError>
        ensures room { OnOk result (count ≤ length self.new.layers) }
        ensures kept { (self.new.width ≡ self.old.width) × (self.new.top ≡ self.old.top) }
    {
        let width = self.initial.view().len();
        add_layers(&mut self.layers, alloc, width, count)
    }

    /// Reaches the first layer.
    fn begin(&mut self, group: &Group) -> Result<(), AllocError>
        requires { self.old.width ≡ length (group_down_shape group.now) }
        ensures here { OnOk result (self.new.here.halves ≡ first_half (transitions_of group.now) ∷ []) }
        ensures shape { OnOk result (AreShaped (group_down_shape group.now) self.new.here.halves) }
        ensures kept { self.new ≡ record self.old { here = self.new.here } }
    {
        group.init_down(&mut self.initial);
        self.here.begin(&self.initial.view())
    }

    /// Goes down by one layer, over the table of a diagram.
    fn step(
        &mut self,
        alloc: Global,
        frame: &Frame<'_>,
        diagram: &Diagram,
        layer: u16,
    ) -> Result<(), AllocError>
        requires framed { IsFramed frame.now diagram.now }
        requires layer { layer < length diagram.now.shape.domains }
        requires room { layer < length self.old.layers }
        requires width { self.old.width ≡ length (group_down_shape frame.now.group) }
        requires top { self.old.top ≡ top_state (group_up_shape frame.now.group) }
        requires here { IsFallen frame.now self.old.here }
        requires fallen { AreFallen frame.now diagram.now.shape.domains diagram.now.table (reached layer self.old) }
        ensures fallen { OnOk result (AreFallen frame.now diagram.now.shape.domains diagram.now.table (reached (layer + 1) self.new)) }
        ensures here { OnOk result (IsFallen frame.now self.new.here) }
        ensures room { length self.new.layers ≡ length self.old.layers }
        ensures kept { (self.new.width ≡ self.old.width) × (self.new.top ≡ self.old.top) }
    {
        diagram.fits();
        diagram.entries_into(layer, &mut self.olds)?;
        let spot = frame.spot(diagram, layer);
        let count = diagram.rows(layer + 1);
        self.here.lead(
            alloc,
            &spot,
            &self.top.view(),
            self.olds.as_slice(),
            count,
            &mut self.next,
            &mut self.buffers,
        )?;
        exchange(&mut self.layers, layer as usize, &mut self.here);
        swap(&mut self.here, &mut self.next);
        Ok(())
    }

    /// Goes down from the first layer to the last, over the table of a diagram.
    pub(crate) fn fall(
        &mut self,
        alloc: Global,
        frame: &Frame<'_>,
        diagram: &Diagram,
    ) -> Result<(), AllocError>
        requires framed { IsFramed frame.now diagram.now }
        requires width { self.old.width ≡ length (group_down_shape frame.now.group) }
        requires top { self.old.top ≡ top_state (group_up_shape frame.now.group) }
        ensures fallen { OnOk result (AreFallen frame.now diagram.now.shape.domains diagram.now.table (reached (length diagram.now.shape.domains) self.new)) }
        ensures here { OnOk result (IsFallen frame.now self.new.here) }
        ensures room { OnOk result (length diagram.now.shape.domains ≤ length self.new.layers) }
        ensures kept { (self.new.width ≡ self.old.width) × (self.new.top ≡ self.old.top) }
    {
        diagram.fits();
        let count = frame.group.vars().len();
        self.make_room(alloc, count)?;
        self.begin(frame.group)?;
        for layer in 0..count as u16 {
            self.step(alloc, frame, diagram, layer)?;
        }
        Ok(())
    }
}
