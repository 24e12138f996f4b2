//! A layer that is revised, and under what.

use hk_group::Group;
use std::marker::Model;

/// A layer of a group: its place, the values of its variable in the model and those that are left, the
/// bound on the cost, and how many rows a layer has at most.
#[derive(Drop)]
pub struct Spot<'a> {
    pub group: &'a Group,
    pub layer: u16,
    pub values: u128,
    pub domain: u128,
    pub best: i64,
    pub width: u16,
}

impl<'a> Model for Spot<'a> {
    ghost use Rattle.std.specs.Coded.{codes};
    ghost use Rattle.hk_group.specs.contracts.group.Group as composed;
    ghost use Rattle.hk_layers.specs.Spots.{PlainSpot};

    ghost Value = { PlainSpot };

    ghost coded = { Prim.hlevel (codes, composed.the_row.coded) };

    ghost view = { λ s. record { group = s.group.now; layer = s.layer; values = s.values; domain = s.domain; best = s.best; width = s.width } };
}
