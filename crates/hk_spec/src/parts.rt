//! The parts of a specification: parameters, properties and their steps.
use crate::expressions::{NumExpr, SetExpr};
use hk_base::Bytes;
use hk_kinds::{Kind, Prop};

/// What a parameter stands for.
#[derive(Clone, Copy, Debug, PartialEq, Eq)]
pub enum ParamKind {
    Num,
    Set,
    List,
}

/// A parameter of a specification.
#[derive(Debug, Drop)]
pub struct Param {
    pub name: Bytes,
    pub kind: ParamKind,
}

/// A property of a specification, with its value before the first or after the last position.
#[derive(Debug, Drop)]
pub struct PropDecl {
    pub name: Bytes,
    pub kind: Kind,
    pub init: Prop,
}

/// How a property's next value is computed: of one number, of two, or of a set, as its kind asks.
#[derive(Debug, Drop)]
pub enum StepExpr {
    Num(NumExpr),
    Pair(NumExpr, NumExpr),
    Set(SetExpr),
}
