//! What a new reader sees, as a frame.

ghost use Rattle.std.specs.Prelude.{◌≡◌, [], ◌∷◌, IfOk, IfSome, OnOk};
ghost use Rattle.doc_model.specs.Canvases.{IsOfLimits};
ghost use Rattle.desk_state.specs.Cached.{ShowsCache, PutsCache};
ghost use Rattle.frame_core.specs.Frames.{IsTileOf};
ghost use Rattle.live_view.specs.Shown.{updates_of, shown};
ghost use Rattle.live_view.specs.Views.{published, pending, IsOnCanvas};
ghost use Rattle.live_run.specs.Showing.{ShowsTiles, ShowsRoot};

use desk_core::Desk;
use frame_core::Frame;
use geom_core::{NoMemory, TileKey};
use live_view::{LiveWriter, Naming};
use std::alloc::Global;
use tile_core::Tile;

/// The frame that new readers see of a desk whose root is published, on the canvas's paper. Where no place was
/// free for a reader or a look was refused, the tile is the desk's own. Tiles are shared.
pub fn live_frame<K: Naming>(
    alloc: Global,
    live: &mut LiveWriter<K>,
    desk: &Desk,
) -> Result<Frame, NoMemory>
    requires limits { IsOfLimits desk.now.canvas }
    requires none { pending live.old ≡ [] }
    requires root { ShowsRoot (updates_of (published live.old)) desk.now }
    ensures kept { live.new ≡ live.old }
    ensures cache { IfOk result (λ f. ShowsCache desk.now.caches desk.now.canvas f) }
{
    let canvas = desk.canvas();
    let mut frame = Frame::new(alloc, canvas.w, canvas.h, canvas.paper)?;
    let shown = canvas.rect();
    for i in 0..shown.tile_count() {
        put_seen(live, desk, shown.tile_at(i), &mut frame)?;
    }
    Ok(frame)
}

/// Puts the tile that a new reader sees into the frame, if there is one.
fn put_seen<K: Naming>(
    live: &mut LiveWriter<K>,
    desk: &Desk,
    key: TileKey,
    frame: &mut Frame,
) -> Result<(), NoMemory>
    requires key { IsOnCanvas key }
    requires inside { IsTileOf frame.old key }
    requires none { pending live.old ≡ [] }
    requires shows { ShowsTiles (updates_of (published live.old)) desk.now (key ∷ []) }
    ensures kept { live.new ≡ live.old }
    ensures ok { OnOk result (PutsCache desk.now.caches key frame.old frame.new) }
{
    match seen(live, key) {
        Some(Some(tile)) => frame.put(key, &tile),
        Some(None) => Ok(()),
        None => put_own(desk, key, frame),
    }
}

/// Puts the tile of the desk's own cache into the frame, if there is one.
fn put_own(desk: &Desk, key: TileKey, frame: &mut Frame) -> Result<(), NoMemory>
    requires { IsTileOf frame.old key }
    ensures { OnOk result (PutsCache desk.now.caches key frame.old frame.new) }
{
    match desk.root_tile(key) {
        Some(tile) => frame.put(key, tile),
        None => Ok(()),
    }
}

/// The tile, or none, that a new reader sees under a key, where it sees just what is published by now.
fn seen<K: Naming>(live: &mut LiveWriter<K>, key: TileKey) -> Option<Option<Tile>>
    requires key { IsOnCanvas key }
    requires none { pending live.old ≡ [] }
    ensures tile { IfSome result (λ tile. tile ≡ shown (updates_of (published live.old)) key) }
    ensures kept { live.new ≡ live.old }
{
    let Ok(mut reader) = live.reader() else {
        return None;
    };
    match reader.look(key) {
        Ok(seen) if seen.version == live.count() => Some(seen.tile),
        _ => None,
    }
}
