//! A writer that is lent for a while.

ghost use Rattle.std.specs.Prelude.{◌≡◌, ℕ, []};
ghost use Rattle.doc_model.specs.declared.canvas.Canvas.{Canvas};
ghost use Rattle.live_view.specs.Shown.{Rows};
ghost use Rattle.live_run.specs.Lent.{no_canvas};

use live_view::{LiveWriter, Naming};
use std::marker::Brand;

/// By which reference a writer is lent, what it had published before, and for which canvas. Each call picks them.
pub(crate) trait Lending {
    ghost reference: { ℕ };

    ghost before: { Rows };

    ghost canvas: { Canvas };
}

impl Lending for Brand {
    ghost reference = { 0 };

    ghost before = { [] };

    ghost canvas = { no_canvas };
}

/// A writer that is lent. Its reference stays the same wherever the value is moved.
#[derive(Drop)]
pub(crate) struct Lent<'w, K: Naming> {
    pub(crate) writer: &'w mut LiveWriter<K>,
}

impl<'w, K: Naming> Lent<'w, K> {
    /// Lends a writer.
    pub(crate) fn new(writer: &'w mut LiveWriter<K>) -> Lent<'w, K>
        ensures same_reference { result.writer.ghost_name ≡ writer.entry.ghost_name }
        ensures same { result.writer.now ≡ writer.old }
    {
        Lent { writer }
    }
}
