//! What a group's diagram is revised under.
ghost use Rattle.std.specs.Prelude.{◌≡◌, ◌<◌, length};
ghost use Rattle.hk_sweep.specs.inside.Frames.{IsFramed, spot_at};

use hk_arena::Diagram;
use hk_group::Group;
use hk_layers::Spot;
use std::marker::Model;

/// A group, the domains of all variables, the bound on the cost, and how many rows a layer has at most.
#[derive(Drop)]
pub(crate) struct Frame<'a> {
    pub(crate) group: &'a Group,
    pub(crate) domains: &'a [u128],
    pub(crate) best: i64,
    pub(crate) width: u16,
}

impl<'a> Model for Frame<'a> {
    ghost use Rattle.std.specs.Coded.{codes};
    ghost use Rattle.hk_group.specs.contracts.group.Group as composed;
    ghost use Rattle.hk_sweep.specs.inside.Frames.{PlainFrame};

    ghost Value = { PlainFrame };

    ghost coded = { Prim.hlevel (codes, composed.the_row.coded) };

    ghost view = { λ f. record { group = f.group.now; domains = f.domains.now; best = f.best; width = f.width } };
}

impl<'a> Frame<'a> {
    /// A layer of a diagram, as it is revised.
    pub(crate) fn spot(&self, diagram: &Diagram, layer: u16) -> Spot<'a>
        requires framed { IsFramed self.now diagram.now }
        requires layer { layer < length diagram.now.shape.domains }
        ensures { result ≡ spot_at self.now diagram.now.shape.domains layer }
    {
        let variable = self.group.vars()[layer as usize];
        Spot {
            group: self.group,
            layer,
            values: diagram.domain(layer),
            domain: self.domains[variable as usize],
            best: self.best,
            width: self.width,
        }
    }
}
