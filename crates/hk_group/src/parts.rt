//! The parts of groups: specifications with the variables that they are about.
ghost use Rattle.std.specs.Prelude.{◌≡◌, length};
ghost use Rattle.std.specs.List.Sorted.{IsStrictlyIncreasing};
ghost use Rattle.hk_group.specs.Groups.{IsPart, down_width, up_width};

use hk_base::List;
use hk_spec::Bound;
use std::marker::Model;

/// A specification with its arguments, and the variables that it is about.
#[derive(Debug, Drop)]
pub struct GroupPart {
    pub bound: Bound,
    pub scope: List<u16>,
}

impl Model for GroupPart {
    ghost use Rattle.std.specs.Coded.{codes};
    ghost use Rattle.hk_spec.specs.contracts.bindings.Bound as specified;
    ghost use Rattle.hk_group.specs.Groups.{Part, IsPart};

    ghost Value = { Part };

    ghost coded = { Prim.hlevel (codes, specified.the_row.coded) };

    ghost view = { λ p. record { bound = p.bound; scope = p.scope } };

    ghost invariant = { λ p. IsPart (record { bound = p.bound; scope = p.scope }) };
}

impl GroupPart {
    /// The part of a specification and a rising scope of as many variables as it is for.
    pub fn new(bound: Bound, scope: List<u16>) -> GroupPart
        requires len { bound.len ≡ length scope }
        requires rising { IsStrictlyIncreasing scope }
        ensures part { result ≡ record { bound = bound; scope = scope } }
        ensures rules { IsPart result }
    {
        GroupPart { bound, scope }
    }

    /// How many properties its down states have.
    pub fn down_count(&self) -> usize
        ensures count { result ≡ down_width self.now }
        ensures rules { IsPart self.now }
    {
        self.bound.spec.down.as_slice().len()
    }

    /// How many properties its up states have.
    pub fn up_count(&self) -> usize
        ensures count { result ≡ up_width self.now }
        ensures rules { IsPart self.now }
    {
        self.bound.spec.up.as_slice().len()
    }
}
