//! What a document's picture is composed of on a tile.

ghost use Rattle.std.specs.Prelude.{◌≡◌, ◌↔◌, ◌-◌, ℕ, IfOk, IsTrue, List, OnOk, Option, Some, length, slice_get};
ghost use Rattle.pixel_core.specs.Rgba.{Rgba};
ghost use Rattle.geom_core.specs.Grid.{Key};
ghost use Rattle.doc_model.specs.Laws.{IsDocument};
ghost use Rattle.doc_model.specs.Picture.{Doc};
ghost use Rattle.frame_core.specs.OpenRows.{laid_on};
ghost use Rattle.frame_core.specs.Plies.{then_open, with_ply};
ghost use Rattle.frame_core.specs.declared.ply.Ply.TheVariants as ply_is;
ghost use Rattle.compose_core.specs.Children.{given_at};
ghost use Rattle.desk_steps.specs.Archives.{shape};
ghost use Rattle.tree_core.specs.Outline.{outline};
ghost use Rattle.tree_core.specs.declared.outline.Stage.TheVariants as stage_is;
ghost use Rattle.filmed_caches.specs.Made.{AddsStage, AreClean, HasLayer, MakesPicture};

use compose_core::Given;
use desk_steps::Store;
use doc_model::Look;
use frame_core::Ply;
use geom_core::{NoMemory, TileKey};
use pixel_core::Pixel;
use std::alloc::Global;
use tree_core::Stage;

/// The plies of which the picture of the store's document is composed on a tile, by the document's stages. Tiles
/// are shared.
pub(crate) fn plies_of(
    alloc: Global,
    store: &Store,
    stages: &[Stage],
    key: TileKey,
) -> Result<Vec<Ply>, NoMemory>
    requires stages { stages.now ≡ outline (shape store.now.present) }
    requires limits { IsDocument store.now.present }
    ensures { IfOk result (λ plies. MakesPicture store.now.present key plies.items) }
{
    let mut plies = Vec::new(alloc);
    for stage in stages {
        add_stage(store, stage, key, &mut plies)?;
    }
    Ok(plies)
}

/// Adds the ply of a stage, if it lays anything on the tile.
fn add_stage(
    store: &Store,
    stage: &Stage,
    key: TileKey,
    plies: &mut Vec<Ply>,
) -> Result<(), NoMemory>
    requires { AreClean plies.old.items }
    ensures { OnOk result (AddsStage store.now.present key
        stage.now plies.old.items plies.new.items) }
{
    match stage {
        Stage::Layer { id, look } => add_layer(store, *id, *look, key, plies),
        Stage::Open => {
            plies.push(Ply::Open)?;
            Ok(())
        }
        Stage::Close { look } => close(*look, plies),
    }
}

/// Ends a group. Where nothing is laid in it on the tile, it leaves no ply.
fn close(look: Look, plies: &mut Vec<Ply>) -> Result<(), NoMemory>
    requires { AreClean plies.old.items }
    ensures { OnOk result ((doc : Doc) (key : Key) →
        AddsStage doc key (stage_is.Close look) plies.old.items plies.new.items) }
{
    if ends_open(plies) {
        plies.pop();
        return Ok(());
    }
    let Look { op, opacity, .. } = look;
    plies.push(Ply::Close { op, opacity })?;
    Ok(())
}

/// Whether the last ply opens a group.
fn ends_open(plies: &[Ply]) -> bool
    ensures { IsTrue result ↔ (slice_get plies.now (length plies.now - 1) ≡ Some ply_is.Open) }
{
    matches!(plies.last(), Some(Ply::Open))
}

/// Adds the ply of a visible layer, unless it is clear on the tile.
fn add_layer(
    store: &Store,
    id: u16,
    look: Look,
    key: TileKey,
    plies: &mut Vec<Ply>,
) -> Result<(), NoMemory>
    requires { AreClean plies.old.items }
    ensures { OnOk result (AddsStage store.now.present key
        (stage_is.Layer id look) plies.old.items plies.new.items) }
{
    let given = layer_on(store, id, key)?;
    given.tell_clean();
    if given.is_clear() {
        return Ok(());
    }
    plies.push(ply_of(given, look))?;
    Ok(())
}

/// What a layer has on a tile, which is shared. It is clear where the id is no paint layer.
fn layer_on(store: &Store, id: u16, key: TileKey) -> Result<Given, NoMemory>
    ensures { IfOk result (HasLayer store.now.present id key) }
{
    let Some(device) = store.layer(id) else {
        return Ok(Given::Plain(Pixel::CLEAR));
    };
    match device.tile(key) {
        Some(tile) => Ok(Given::Held(tile.share()?)),
        None => Ok(Given::Plain(device.ground())),
    }
}

/// The ply that lays with a look what is given.
fn ply_of(given: Given, look: Look) -> Ply
    ensures laid { (col row : ℕ) (ps : List Rgba) → with_ply col row ps result
        ≡ laid_on look.op look.opacity (given_at col row given) ps }
    ensures count { (n : Option ℕ) → then_open n result ≡ n }
{
    let Look { op, opacity, .. } = look;
    match given {
        Given::Held(tile) => Ply::Tile { tile, op, opacity },
        Given::Plain(pixel) => Ply::Plain { pixel, op, opacity },
    }
}
