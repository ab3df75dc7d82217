//! Frames of the root's cache, and of what it is composed of.

ghost use Rattle.std.specs.Prelude.{IfOk, OnOk};
ghost use Rattle.doc_model.specs.Canvases.{IsOfLimits};
ghost use Rattle.desk_state.specs.Cached.{ShowsCache, PutsCache};
ghost use Rattle.frame_core.specs.Frames.{IsTileOf};
ghost use Rattle.filmed_caches.specs.Made.{HasCache, HasTile, IsBefore, IsComposedOf, PutsShown};

use crate::plies::plies_of;
use crate::thrift::Thrift;
use desk_steps::Store;
use doc_model::Canvas;
use frame_core::{Frame, Marks, Ply};
use geom_core::{NoMemory, TileKey};
use group_caches::Caches;
use std::alloc::Global;
use tile_core::Tile;
use tree_core::Stage;

/// The id of the root.
pub(crate) const ROOT: u16 = 0;

/// The root's cache on the canvas's paper. Tiles are shared.
pub(crate) fn frame_of_cache(
    alloc: Global,
    caches: &Caches,
    canvas: Canvas,
) -> Result<Frame, NoMemory>
    requires { IsOfLimits canvas }
    ensures { IfOk result (ShowsCache caches.now canvas) }
{
    let mut frame = Frame::new(alloc, canvas.w, canvas.h, canvas.paper)?;
    let shown = canvas.rect();
    for i in 0..shown.tile_count() {
        put_cached(caches, shown.tile_at(i), &mut frame)?;
    }
    Ok(frame)
}

/// Puts the tile of the root's cache into the frame, if there is one.
fn put_cached(caches: &Caches, key: TileKey, frame: &mut Frame) -> Result<(), NoMemory>
    requires { IsTileOf frame.old key }
    ensures { OnOk result (PutsCache caches.now key frame.old frame.new) }
{
    match caches.tile(ROOT, key) {
        Some(tile) => frame.put(key, tile),
        None => Ok(()),
    }
}

/// What a frame is made of: the visible nodes of a document, its layers, and the caches of its groups.
#[derive(Clone, Copy)]
pub(crate) struct Scenery<'a> {
    pub(crate) stages: &'a [Stage],
    pub(crate) store: &'a Store,
    pub(crate) caches: &'a Caches,
    pub(crate) canvas: Canvas,
}

/// The frame before, and the tiles in which the root's cache may differ from it.
#[derive(Clone, Copy)]
pub(crate) struct Before<'a> {
    pub(crate) frame: Option<&'a Frame>,
    pub(crate) laid: &'a Marks,
}

/// The root's cache on the canvas's paper, where tiles that differ from the frame before may be kept as what they
/// are composed of. All tiles are shared.
pub(crate) fn frame_after(
    alloc: Global,
    scenery: &Scenery<'_>,
    before: &Before<'_>,
    thrift: &mut Thrift,
) -> Result<Frame, NoMemory>
    requires limits { IsOfLimits scenery.now.canvas }
    requires before { IsBefore scenery.now before.now }
    requires settled { IsComposedOf scenery.now }
    ensures { IfOk result (ShowsCache scenery.now.caches.now scenery.now.canvas) }
{
    let canvas = scenery.canvas;
    let mut frame = Frame::new(alloc, canvas.w, canvas.h, canvas.paper)?;
    let shown = canvas.rect();
    for i in 0..shown.tile_count() {
        put_shown(alloc, scenery, before, thrift, shown.tile_at(i), &mut frame)?;
    }
    Ok(frame)
}

/// Puts what the root's cache has on a tile into the frame, as the frame before has it or anew.
fn put_shown(
    alloc: Global,
    scenery: &Scenery<'_>,
    before: &Before<'_>,
    thrift: &mut Thrift,
    key: TileKey,
    frame: &mut Frame,
) -> Result<(), NoMemory>
    requires key { HasTile scenery.now.canvas key }
    requires inside { IsTileOf frame.old key }
    requires before { IsBefore scenery.now before.now }
    requires settled { IsComposedOf scenery.now }
    ensures { OnOk result (PutsShown scenery.now.caches.now scenery.now.canvas
        key frame.old frame.new) }
{
    let Some(other) = before.frame else {
        return put_anew(alloc, scenery, &[], thrift, key, frame);
    };
    if before.laid.has(key) {
        return put_anew(alloc, scenery, plies_in(other, key), thrift, key, frame);
    }
    frame.put_of(key, other)
}

/// The plies of which a frame composes the tile under the key; none where it has the pixels, or nothing.
fn plies_in(frame: &Frame, key: TileKey) -> &[Ply]
    requires { IsTileOf frame.now key }
{
    match frame.cell(key) {
        Some(cell) => cell.plies(),
        None => &[],
    }
}

/// Puts the tile of the root's cache into the frame, if there is one, or that of which it is composed. The frame
/// before has these plies on the tile, if any.
fn put_anew(
    alloc: Global,
    scenery: &Scenery<'_>,
    plies: &[Ply],
    thrift: &mut Thrift,
    key: TileKey,
    frame: &mut Frame,
) -> Result<(), NoMemory>
    requires inside { IsTileOf frame.old key }
    requires settled { IsComposedOf scenery.now }
    ensures { OnOk result (PutsShown scenery.now.caches.now scenery.now.canvas
        key frame.old frame.new) }
{
    match scenery.caches.tile(ROOT, key) {
        Some(tile) => put_tile(alloc, scenery, tile, plies, thrift, key, frame),
        None => Ok(()),
    }
}

/// Puts that tile of the root's cache into the frame, or that of which it is composed where this is less.
fn put_tile(
    alloc: Global,
    scenery: &Scenery<'_>,
    tile: &Tile,
    plies: &[Ply],
    thrift: &mut Thrift,
    key: TileKey,
    frame: &mut Frame,
) -> Result<(), NoMemory>
    requires tile { HasCache scenery.now.caches.now key tile.now }
    requires inside { IsTileOf frame.old key }
    requires settled { IsComposedOf scenery.now }
    ensures { OnOk result (PutsShown scenery.now.caches.now scenery.now.canvas
        key frame.old frame.new) }
{
    thrift.earn();
    if !thrift.saves() {
        return frame.put(key, tile);
    }
    let mut made = plies_of(alloc, scenery.store, scenery.stages, key)?;
    if thrift.pays(&mut made, plies)? {
        return frame.put_plies(alloc, key, made);
    }
    frame.put(key, tile)
}
