//! The shapes of states.
ghost use Rattle.std.specs.Prelude.{◌≡◌, [], ◌∷◌, ◌++◌, IfOk, OnOk, OnErr};

use crate::kinds::Kind;
use smallvec::SmallVec;
use std::alloc::{AllocError, Global};
use std::marker::Model;

/// The kinds of a state's properties, in order.
#[derive(Debug, Drop)]
pub struct Shape1 {
    kinds: SmallVec<Kind, 8>,
}

impl Model for Shape1 {
    ghost use Rattle.std.specs.Prelude.{List};
    ghost use Rattle.hk_kinds.specs.declared.kinds.Kind.{Kind};

    ghost Value = { List Kind };

    ghost view = { λ shape. shape.kinds.items };
}

impl Shape1 {
    /// The shape with no kind.
    pub fn new(alloc: Global) -> Shape1
        ensures { result ≡ [] }
    {
        Shape1 {
            kinds: SmallVec::new(alloc),
        }
    }

    /// Adds a kind at the end; a refused one changes nothing.
    pub fn push(&mut self, kind: Kind) -> Result<(), AllocError>
        ensures ok { OnOk result (self.new ≡ self.old ++ kind ∷ []) }
        ensures err { OnErr result (self.new ≡ self.old) }
    {
        self.kinds.push(kind)?;
        Ok(())
    }

    /// The kinds, first to last.
    pub fn as_slice(&self) -> &[Kind]
        ensures { result.now ≡ self.now }
    {
        self.kinds.as_slice()
    }

    /// An equal shape.
    pub fn copy(&self) -> Result<Shape1, AllocError>
        ensures { IfOk result (λ shape. shape ≡ self.now) }
    {
        Ok(Shape1 {
            kinds: SmallVec::from_slice(*self.kinds.allocator(), self.kinds.as_slice())?,
        })
    }
}
