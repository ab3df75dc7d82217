//! What a thread does outside the lock: it paints tiles of a job or composes those of a walk.

ghost use Rattle.std.specs.Prelude.{◌≡◌, IfOk};

use geom_core::NoMemory;
use stamped_desk::{StampNaming, StampedPainting, StampedWalk};
use std::alloc::Global;
use std::sync::Arc;
use walker_core::{Composed, compose_keys};

/// Some tiles of a job: those from one place of its list to before another. Several threads may paint
/// tiles of one job.
#[derive(Drop)]
pub(crate) struct Tiles<J: StampNaming> {
    pub(crate) job: Arc<StampedPainting<J>, Global>,
    pub(crate) from: usize,
    pub(crate) to: usize,
    /// Whether they are all that the job has, for one thread.
    pub(crate) are_all: bool,
}

/// Some tiles of a walk: those of its patch from one place to before another.
#[derive(Drop)]
pub(crate) struct WalkRows<J: StampNaming> {
    pub(crate) walk: Arc<StampedWalk<J>, Global>,
    pub(crate) from: usize,
    pub(crate) to: usize,
}

impl<J: StampNaming> WalkRows<J> {
    /// Composes them, of all groups of the walk.
    ///
    /// # Errors
    /// `NoMemory`.
    pub(crate) fn compose(&self, alloc: Global) -> Result<Composed<'_>, NoMemory>
        ensures { IfOk result (λ c. c.readings ≡ self.now.walk.value.inputs) }
    {
        let inputs = &self.walk.ticket().inputs;
        let rect = inputs.patch().rect;
        let to = self.to.min(rect.tile_count() as usize);
        let mut keys = Vec::with_capacity(alloc, to.saturating_sub(self.from))?;
        for i in self.from..to {
            keys.push(rect.tile_at(i as u32))?;
        }
        compose_keys(alloc, inputs, &keys)
    }
}

/// Work that a thread took from the board. Something may be left then at once that is worth another
/// thread.
#[derive(Drop)]
pub(crate) enum Work<J: StampNaming> {
    Paint { tiles: Tiles<J>, leaves: bool },
    Compose { rows: WalkRows<J>, leaves: bool },
}

impl<J: StampNaming> Work<J> {
    /// Whether something is left that is worth another thread.
    pub(crate) fn leaves(&self) -> bool {
        match self {
            Work::Paint { leaves, .. } => *leaves,
            Work::Compose { leaves, .. } => *leaves,
        }
    }
}
