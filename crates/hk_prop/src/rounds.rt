//! What all tables are revised under in a pass.

use hk_group::Problem;
use std::marker::Model;

/// The problem, the domains of all variables at the opening of the pass, the bound on the cost, and how many
/// rows a layer has at most.
#[derive(Drop)]
pub(crate) struct Round<'a> {
    pub(crate) problem: &'a Problem,
    pub(crate) domains: &'a [u128],
    pub(crate) best: i64,
    pub(crate) width: u16,
}

impl<'a> Model for Round<'a> {
    ghost use Rattle.std.specs.Coded.{codes};
    ghost use Rattle.hk_group.specs.contracts.problem.Problem as posed;
    ghost use Rattle.hk_prop.specs.inside.Revised.{PlainRound};

    ghost Value = { PlainRound };

    ghost coded = { Prim.hlevel (codes, posed.the_row.coded) };

    ghost view = { λ r. record { problem = r.problem.now; domains = r.domains.now; best = r.best; width = r.width } };
}
