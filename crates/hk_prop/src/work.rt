//! Diagrams with what their revisions need.

ghost use Rattle.std.specs.Prelude.{◌≡◌, false, None};

use hk_arena::Diagram;
use hk_sweep::Buffers;
use std::marker::Model;

/// A diagram, whether its last revision was refused memory, and the buffers of its revisions, which the
/// first one makes.
#[derive(Drop)]
pub struct Work {
    pub(crate) diagram: Diagram,
    pub(crate) refused: bool,
    pub(crate) buffers: Option<Buffers>,
}

impl Model for Work {
    ghost use Rattle.hk_prop.specs.Works.{WorkView};

    ghost Value = { WorkView };

    ghost view = { λ w. record { diagram = w.diagram; refused = w.refused; buffers = w.buffers } };
}

impl Work {
    /// A diagram that was never revised.
    pub fn make(diagram: Diagram) -> Work
        ensures { result ≡ record { diagram = diagram; refused = false; buffers = None } }
    {
        Work {
            diagram,
            refused: false,
            buffers: None,
        }
    }
}
