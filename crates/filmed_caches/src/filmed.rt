//! The caches of groups, and the frames that were taken of the root's.

ghost use Rattle.std.specs.Prelude.{◌≡◌, ◌≤◌, ◌==◌, ◌&&◌, ◌||◌, [], ◌∷◌, ◌++◌, length, nat_eq, IfOk, OnOk, OnErr};
ghost use Rattle.std.specs.FinMap as map;
ghost use Rattle.std.specs.List.{IsDistinct};
ghost use Rattle.pixel_core.specs.Rgba.{Rgba, clear};
ghost use Rattle.geom_core.specs.Areas.{Point};
ghost use Rattle.geom_core.specs.Grid.{Key, same_key};
ghost use Rattle.geom_core.specs.Keys.{IsWorldKey};
ghost use Rattle.frame_core.specs.Marks.{has_mark, on_canvas};
ghost use Rattle.doc_model.specs.Canvases.{IsOfLimits};
ghost use Rattle.doc_model.specs.Layers.{plain};
ghost use Rattle.doc_model.specs.Picture.{Doc};
ghost use Rattle.doc_model.specs.Readers.{order};
ghost use Rattle.machine_model.specs.Effects.{caches_for};
ghost use Rattle.compose_core.specs.Spots.{given_on};
ghost use Rattle.group_caches.specs.Kept.{with_picture, SameThere};
ghost use Rattle.desk_state.specs.Cached.{ShowsCache};
ghost use Rattle.filmed_caches.specs.Filmed.{filmed_as, TakesFrame};
ghost use Rattle.filmed_caches.specs.Made.{IsOfCanvas, ShowsDocument};

use crate::exports::{Before, ROOT, Scenery, frame_after, frame_of_cache};
use crate::thrift::Thrift;
use compose_core::Given;
use desk_steps::Store;
use doc_model::Canvas;
use frame_core::{Film, Frame, Marks};
use geom_core::{NoMemory, Rect, TileKey};
use group_caches::Caches;
use std::alloc::Global;
use std::marker::Model;

/// The caches of the groups, and a film of the frames that were taken of the root's. The tiles that were
/// laid on the root's cache since the newest frame are marked, so no frame is compared with another.
#[derive(Drop)]
pub struct FilmedCaches {
    caches: Caches,
    film: Film,
    laid: Marks,
    thrift: Thrift,
}

impl Model for FilmedCaches {
    ghost use Rattle.filmed_caches.specs.Filmed.{Filmed, filmed_as, filmed_code, IsMarked};

    ghost Value = { Filmed };

    ghost coded = { filmed_code };

    ghost view = { λ c. filmed_as c.caches c.film };

    ghost invariant = { λ c. IsMarked c.caches c.film c.laid };
}

impl FilmedCaches {
    /// A clear cache for the root, and no frame.
    pub fn new(alloc: Global) -> Result<FilmedCaches, NoMemory>
        ensures { IfOk result (λ c. c ≡ filmed_as (map.insert map.empty 0 (plain clear)) []) }
    {
        let caches = Caches::new(alloc)?;
        Ok(FilmedCaches {
            caches,
            film: Film::new(alloc),
            laid: Marks::none(),
            thrift: Thrift::new(),
        })
    }

    /// The caches.
    pub fn caches(&self) -> &Caches
        ensures { result.now ≡ self.now.caches }
    {
        &self.caches
    }

    /// The frames, from the first on.
    pub fn frames(&self) -> &[Frame]
        ensures { result.now ≡ self.now.frames }
    {
        self.film.frames()
    }

    /// The film on its own.
    pub fn into_film(self) -> Film
        ensures { result ≡ self.frames }
    {
        let FilmedCaches { film, .. } = self;
        film
    }

    /// Lays a walk's picture of a group on its cache, at the points of the rectangle in the key's tile.
    /// The cache of a group that has none yet is clear before.
    ///
    /// # Errors
    /// `NoMemory`; all is as it was.
    pub fn put(
        &mut self,
        group: u16,
        rect: &Rect,
        key: TileKey,
        given: &Given,
    ) -> Result<(), NoMemory>
        requires { IsWorldKey key }
        ensures ok { OnOk result ((f : Point → Rgba) → SameThere rect.now key (given_on given.now) f
            → self.new.caches ≡ with_picture self.old.caches group rect.now key f) }
        ensures err { OnErr result (self.new.caches ≡ self.old.caches) }
        ensures frames { self.new.frames ≡ self.old.frames }
    {
        self.caches.put(group, rect, key, given)?;
        mark_laid(&mut self.laid, group, key);
        Ok(())
    }

    /// Keeps the caches of a tree's groups, and makes a clear one for each that has none. The others go.
    /// No memory.
    pub fn keep(&mut self, groups: &[u16])
        requires few { length groups.now ≤ 257 }
        requires once { IsDistinct nat_eq groups.now }
        requires of_tree { (doc : Doc) × (groups.now ≡ order doc ++ 0 ∷ []) }
        ensures caches { (doc : Doc) → groups.now ≡ order doc ++ 0 ∷ [] → self.new.caches
            ≡ caches_for self.old.caches doc }
        ensures frames { self.new.frames ≡ self.old.frames }
    {
        self.caches.keep(groups);
        self.thrift.turn();
    }

    /// The root's cache as a frame on the canvas's paper, which isn't kept. Tiles are shared.
    ///
    /// # Errors
    /// `NoMemory`.
    pub fn root_frame(&self, alloc: Global, canvas: Canvas) -> Result<Frame, NoMemory>
        requires { IsOfLimits canvas }
        ensures { IfOk result (ShowsCache self.now.caches canvas) }
    {
        frame_of_cache(alloc, &self.caches, canvas)
    }

    /// Takes a frame of the root's cache on the canvas's paper, where the caches are up to date with the store's
    /// document, and all frames are of this canvas. Tiles are shared. Tiles that differ from those of the newest frame may be kept as the layers'
    /// tiles of which they are composed, so that many frames of few layers take little memory.
    ///
    /// # Errors
    /// `NoMemory`; all is as it was.
    pub fn take_frame(
        &mut self,
        alloc: Global,
        canvas: Canvas,
        store: &Store,
    ) -> Result<(), NoMemory>
        requires limits { IsOfLimits canvas }
        requires sides { IsOfCanvas canvas self.old.frames }
        requires settled { ShowsDocument self.old.caches canvas store.now.present }
        ensures ok { OnOk result (TakesFrame canvas self.old self.new) }
        ensures err { OnErr result (self.new ≡ self.old) }
    {
        let stages = store.tree().outline(alloc)?;
        let scenery = Scenery {
            stages: &stages,
            store,
            caches: &self.caches,
            canvas,
        };
        let before = Before {
            frame: self.film.newest(),
            laid: &self.laid,
        };
        let frame = frame_after(alloc, &scenery, &before, &mut self.thrift)?;
        self.film.push(frame, self.laid.copy())?;
        self.laid = Marks::none();
        self.thrift.take();
        Ok(())
    }
}

/// Marks the tile, where it is one of the root.
fn mark_laid(laid: &mut Marks, group: u16, key: TileKey)
    ensures { (k : Key) → has_mark laid.new k
        ≡ (has_mark laid.old k || ((group == 0) && (same_key k key && on_canvas k))) }
{
    if group == ROOT {
        laid.mark(key);
    }
}
