//! The names that an expression may use.

use hk_spec::{Param, PropDecl};
use std::marker::Model;

/// What an expression may name: parameters, and properties of both sides.
#[derive(Drop)]
pub struct Names<'a> {
    pub params: &'a [Param],
    pub down: &'a [PropDecl],
    pub up: &'a [PropDecl],
}

impl<'a> Model for Names<'a> {
    ghost use Rattle.hk_terms.specs.Names.{Names};

    ghost Value = { Names };

    ghost view = { λ n. record { params = n.params.now; down = n.down.now; up = n.up.now } };
}
