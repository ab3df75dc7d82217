//! Blurs.

ghost use Rattle.std.specs.Prelude.{[], ◌∷◌, IfOk};
ghost use Rattle.doc_model.specs.declared.job.Job.TheVariants.{Blur};
ghost use Rattle.job_core.specs.Paints.{Leaves};
ghost use Rattle.job_core.specs.Due.{IsDue};

use crate::part::part_in;
use blur_core::blur_block;
use geom_core::{NoMemory, Rect, TileKey};
use std::alloc::Global;
use tile_core::{Block, Shot};

/// What a blur leaves in the key's tile.
pub fn blurred(
    alloc: Global,
    shot: &Shot,
    key: TileKey,
    rect: &Rect,
    r: u8,
) -> Result<Block, NoMemory>
    requires { IsDue (Blur rect.now r) shot.now key }
    ensures { IfOk result (λ b. Leaves (Blur rect.now r) shot.now key (b ∷ [])) }
{
    let part = part_in(key, rect);
    blur_block(alloc, shot, key, &part, r)
}
