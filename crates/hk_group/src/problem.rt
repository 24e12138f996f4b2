//! Problems: variables, constraints and the objective.

ghost use Rattle.std.specs.Prelude.{◌≡◌};
ghost use Rattle.hk_group.specs.Problems.{IsValid};

use crate::group::Group;
use crate::linear::Linear;
use hk_base::{Bytes, List};
use hk_spec::Bound;
use std::marker::Model;

/// The variables' names, in the order of declaration.
pub type Names = List<Bytes>;

/// The constraints, in the order of their lines.
pub type Constraints = List<Constraint>;

/// The groups, in the order of their lines.
pub type Groups = List<Group>;

/// A constraint. A scope lists variables by their places, from 0, in the order of declaration.
#[derive(Debug, Drop)]
pub enum Constraint {
    /// The values of the scope's variables are pairwise distinct.
    AllDifferent {
        scope: List<u16>,
    },
    /// How many of the scope's variables have a value of the set lies from `least` to `most`.
    Among {
        scope: List<u16>,
        set: u128,
        least: i64,
        most: i64,
    },
    /// Of each `window` consecutive variables of the scope, how many have a value of the set lies
    /// from `least` to `most`. A scope of fewer variables has no window.
    Sequence {
        scope: List<u16>,
        window: u16,
        set: u128,
        least: i64,
        most: i64,
    },
    /// For each row, a value with its bounds, how many of the scope's variables have the value lies
    /// within the bounds. A value without a row is free.
    Gcc {
        scope: List<u16>,
        rows: List<(u8, i64, i64)>,
    },
    /// The sum of coefficient times value over the scope's variables, which have one coefficient
    /// each, lies from `least` to `most`.
    Sum {
        scope: List<u16>,
        coefs: List<i64>,
        least: i64,
        most: i64,
    },
    /// The specification accepts the values of the scope's variables, for whose number it is bound.
    User {
        bound: Bound,
        scope: List<u16>,
    },
}

/// A valid problem: for each variable a name and a nonempty set of values, the constraints, the groups
/// of them that share a diagram, and the objective, where there is one: the sum that is to be least.
/// Bit v of a set stands for the value v, from 0 to 127. Groups are no part of what a problem means.
#[derive(Debug, Drop)]
pub struct Problem {
    names: Names,
    domains: List<u128>,
    constraints: Constraints,
    groups: Groups,
    objective: Option<Linear>,
}

impl Model for Problem {
    ghost use Rattle.std.specs.Coded.{codes};
    ghost use Rattle.hk_group.specs.contracts.group.Group as composed;
    ghost use Rattle.hk_spec.specs.contracts.bindings.Bound as bound;
    ghost use Rattle.hk_group.specs.Problems.{PlainProblem, IsValid};

    ghost Value = { PlainProblem };

    ghost coded = { Prim.hlevel (codes, bound.the_row.coded, composed.the_row.coded) };

    ghost view = { λ p. record { names = p.names; domains = p.domains; constraints = p.constraints; groups = p.groups; objective = p.objective } };

    ghost invariant = { λ p. IsValid (record { names = p.names; domains = p.domains; constraints = p.constraints; groups = p.groups; objective = p.objective }) };
}

impl Problem {
    /// The problem with these names, sets, constraints, groups and objective.
    pub fn new(
        names: Names,
        domains: List<u128>,
        constraints: Constraints,
        groups: Groups,
        objective: Option<Linear>,
    ) -> Problem
        requires valid { IsValid (record { names = names; domains = domains; constraints = constraints; groups = groups; objective = objective }) }
        ensures { result ≡ record { names = names; domains = domains; constraints = constraints; groups = groups; objective = objective } }
    {
        Problem {
            names,
            domains,
            constraints,
            groups,
            objective,
        }
    }

    /// The variables' names, in the order of declaration.
    pub fn names(&self) -> &[Bytes]
        ensures { result.now ≡ self.now.names }
    {
        self.names.as_slice()
    }

    /// The variables' sets of values, one for each name.
    pub fn domains(&self) -> &[u128]
        ensures domains { result.now ≡ self.now.domains }
        ensures valid { IsValid self.now }
    {
        self.domains.as_slice()
    }

    /// The constraints, in the order of their lines.
    pub fn constraints(&self) -> &[Constraint]
        ensures constraints { result.now ≡ self.now.constraints }
        ensures valid { IsValid self.now }
    {
        self.constraints.as_slice()
    }

    /// The groups, in the order of their lines.
    pub fn groups(&self) -> &[Group]
        ensures groups { result.now ≡ self.now.groups }
        ensures valid { IsValid self.now }
    {
        self.groups.as_slice()
    }

    /// What is to be least, where the problem says so.
    pub fn objective(&self) -> &Option<Linear>
        ensures objective { result.now ≡ self.now.objective }
        ensures valid { IsValid self.now }
    {
        &self.objective
    }
}
