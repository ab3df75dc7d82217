//! What is known of a walk's values as it starts.

ghost use Rattle.std.specs.Prelude.{◌≡◌, true, IfOk, IfSome};
ghost use Rattle.geom_core.specs.Areas.{holds, Point};
ghost use Rattle.tile_core.specs.Shots.{sight_at};
ghost use Rattle.walker_core.specs.Readings.{path_in};
ghost use Rattle.desk_core.specs.UpToDate.{cached_at};
ghost use Rattle.desk_core.specs.Keeping.{AreOfFolds};
ghost use Rattle.desk_core.specs.Shown.{ShowCachesOn, TellDamage};

use crate::folds::Folds;
use crate::spread::Spread;
use geom_core::{NoMemory, Rect};
use group_caches::Caches;
use paint_device::Device;
use pixel_core::Pixel;
use std::alloc::Global;
use std::slice;
use tile_core::Shot;
use walker_core::{Damaged, Inputs, Known};

/// The caches of a walk's groups on its patch, and the damaged parts of the patch's tiles. Tiles are
/// shared, and no pixel is copied.
pub(crate) fn known_of(
    alloc: Global,
    inputs: &Inputs,
    caches: &Caches,
    damage: &Spread,
    folds: &Folds,
) -> Result<Known, NoMemory>
    ensures shots { IfOk result (λ k.
        ShowCachesOn inputs.now.patch.rect caches.now (path_in inputs.now) k.shots.items) }
    ensures damaged { IfOk result (λ k.
        TellDamage inputs.now.patch.rect damage.now k.damaged.items) }
    ensures footing { IfOk result (λ k.
        IfSome k.footing (AreOfFolds folds.now)) }
{
    let rect = inputs.patch().rect;
    let shots = shots_of(alloc, inputs.path(), caches, &rect)?;
    let damaged = damaged_on(alloc, damage, &rect)?;
    let footing = folds.footing(alloc, &rect)?;
    Ok(Known {
        shots,
        damaged,
        footing,
    })
}

/// The caches of groups on a rectangle.
fn shots_of(
    alloc: Global,
    groups: &[u16],
    caches: &Caches,
    rect: &Rect,
) -> Result<Vec<Shot>, NoMemory>
    ensures { IfOk result (λ shots. ShowCachesOn rect.now caches.now groups.now shots.items) }
{
    let mut shots = Vec::with_capacity(alloc, groups.len())?;
    for group in groups {
        shots.push(shot_of(alloc, *group, caches, rect)?)?;
    }
    Ok(shots)
}

/// The cache of a group on a rectangle.
fn shot_of(alloc: Global, group: u16, caches: &Caches, rect: &Rect) -> Result<Shot, NoMemory>
    ensures { IfOk result (λ s. (p : Point) → holds rect.now p ≡ true
        → sight_at s p ≡ cached_at caches.now p group) }
{
    match caches.device(group) {
        Some(device) => device.grab(alloc, slice::from_ref(rect)),
        None => {
            let clear = Device::new(alloc, Pixel::CLEAR);
            clear.grab(alloc, slice::from_ref(rect))
        }
    }
}

/// The damaged parts of the tiles that a rectangle meets.
fn damaged_on(alloc: Global, damage: &Spread, rect: &Rect) -> Result<Vec<Damaged>, NoMemory>
    ensures { IfOk result (λ parts. TellDamage rect.now damage.now parts.items) }
{
    let mut parts = Vec::new(alloc);
    for i in 0..rect.tile_count() {
        let key = rect.tile_at(i);
        if let Some(part) = damage.part(key) {
            parts.push(Damaged { key, part })?;
        }
    }
    Ok(parts)
}
