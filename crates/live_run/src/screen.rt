//! What the root shows is published.

ghost use Rattle.std.specs.Prelude.{◌≡◌, ◌≤◌, ◌+◌, ◌^◌, [], OnOk, OnErr, length, replicate};
ghost use Rattle.pixel_core.specs.Rgba.{clear};
ghost use Rattle.geom_core.specs.Grid.{keys_of};
ghost use Rattle.doc_model.specs.Canvases.{IsOfLimits};
ghost use Rattle.doc_model.specs.Picture.{canvas_area};
ghost use Rattle.crew_run.specs.Watched.{SeesRoot};
ghost use Rattle.live_view.specs.Shown.{updates_of, StartsWith};
ghost use Rattle.live_view.specs.Views.{published, pending, all_updates, total};
ghost use Rattle.live_run.specs.Owing.{seen_in, BeginsWith, LaysDown};
ghost use Rattle.live_run.specs.Showing.{PutsRoot, ShowsTiles};

use crate::lent::{Lending, Lent};
use crate::owed::{Owed, forgive, owe, owe_all};
use arrayvec::ArrayVec;
use crew_run::Watching;
use desk_core::Desk;
use doc_model::Canvas;
use geom_core::{NoMemory, Rect, TileKey};
use live_view::{LiveWriter, Naming};
use std::marker::PhantomData;
use std::sync::Wait;
use tile_core::Tile;

/// How many updates a writer takes at most.
pub(crate) const MOST: u64 = 1 << 62;

/// Puts a tile as the root's cache has it, and a blank one where it has none.
///
/// # Errors
/// `NoMemory`, also where the writer takes no more; no update is put.
fn put_tile<K: Naming>(
    live: &mut LiveWriter<K>,
    blank: &Tile,
    desk: &Desk,
    key: TileKey,
) -> Result<(), NoMemory>
    requires blank { blank.now ≡ replicate 4096 clear }
    requires few { total live.old ≤ 2 ^ 62 }
    ensures few { total live.new ≤ 2 ^ 62 }
    ensures published { published live.new ≡ published live.old }
    ensures ok { OnOk result
        (PutsRoot (all_updates live.old) (all_updates live.new) desk.now key) }
    ensures err { OnErr result (all_updates live.new ≡ all_updates live.old) }
{
    if live.count() >= MOST {
        return Err(NoMemory);
    }
    match desk.root_tile(key) {
        Some(tile) => live.put(key, tile),
        None => live.put(key, blank),
    }
}

/// Publishes what is pending.
///
/// # Errors
/// `NoMemory`; it is still pending.
fn publish<K: Naming, R: Wait>(rt: &R, live: &mut LiveWriter<K>) -> Result<(), NoMemory>
    ensures updates { all_updates live.new ≡ all_updates live.old }
    ensures few { total live.new ≡ total live.old }
    ensures goes_on { StartsWith (published live.new) (published live.old) }
    ensures pending { OnOk result (pending live.new ≡ []) }
{
    live.publish(rt)
}

/// Puts each tile that is owed as the root's cache has it.
///
/// # Errors
/// `NoMemory`; only some of the tiles are put.
fn put_owed<K: Naming>(
    live: &mut LiveWriter<K>,
    blank: &Tile,
    desk: &Desk,
    owed: &[Owed],
) -> Result<(), NoMemory>
    requires blank { blank.now ≡ replicate 4096 clear }
    requires few { total live.old ≤ 2 ^ 62 }
    ensures few { total live.new ≤ 2 ^ 62 }
    ensures published { published live.new ≡ published live.old }
    ensures laid { OnOk result
        (LaysDown owed.now (all_updates live.old) (all_updates live.new) desk.now) }
{
    for i in 0..owed.len() {
        put_tile(live, blank, desk, owed[i].key)?;
    }
    Ok(())
}

/// Shows what a crew composes, by a writer that is lent. Its type says what others see: on each tile of the canvas
/// that isn't owed the last update, published or pending, is the root's cache.
#[derive(Drop)]
pub(crate) struct Screen<'w, K: Naming, B: Lending> {
    lent: Lent<'w, K>,
    blank: Tile,
    tiles: Rect,
    owed: ArrayVec<Owed, 1024>,
    of: PhantomData<B>,
    ghost is_blank: { blank ≡ replicate 4096 clear },
    ghost tiles_are: { tiles ≡ canvas_area B.canvas },
    ghost few_tiles: { length (keys_of tiles) ≤ 1024 },
    ghost few: { total lent.writer.now ≤ 2 ^ 62 },
    ghost goes_on: { BeginsWith (published lent.writer.now) B.before },
    ghost same_reference: { lent.writer.ghost_name ≡ B.reference },
}

impl<'w, K: Naming, B: Lending> Screen<'w, K, B> {
    /// A screen of that canvas.
    #[tactic(auto, using(crate::proofs::Owing::tiles_few, crate::proofs::Owing::begins_self))]
    pub(crate) fn new(lent: Lent<'w, K>, blank: Tile, canvas: &Canvas) -> Screen<'w, K, B>
        requires limits { IsOfLimits canvas.now }
        requires canvas { canvas.now ≡ B.canvas }
        requires blank { blank ≡ replicate 4096 clear }
        requires few { total lent.writer.now ≤ 2 ^ 62 }
        requires before { published lent.writer.now ≡ B.before }
        requires reference { lent.writer.ghost_name ≡ B.reference }
    {
        Screen {
            lent,
            blank,
            tiles: canvas.rect(),
            owed: ArrayVec::new(),
            of: PhantomData,
        }
    }

    /// Lays down what is owed, and publishes it.
    ///
    /// # Errors
    /// `NoMemory`.
    #[tactic(auto, using(crate::proofs::Owing::begins_on, crate::proofs::Owing::laid_shown))]
    pub(crate) fn lay_owed<R: Wait>(&mut self, rt: &R, desk: &Desk) -> Result<(), NoMemory>
        requires { SeesRoot (seen_in self.old.tiles self.old.owed.items
            (all_updates self.old.lent.writer.now)) desk.now }
        ensures pending { OnOk result (pending self.new.lent.writer.now ≡ []) }
        ensures shows { OnOk result (ShowsTiles (updates_of (published self.new.lent.writer.now))
            desk.now (keys_of (canvas_area B.canvas))) }
    {
        let lent = &mut self.lent;
        publish(rt, lent.writer)?;
        put_owed(lent.writer, &self.blank, desk, &self.owed)?;
        publish(rt, lent.writer)
    }

    /// The writer that was lent.
    #[tactic(auto, using(crate::proofs::Owing::begins_starts))]
    pub(crate) fn into_lent(self) -> Lent<'w, K>
        ensures same { result.writer.now ≡ self.entry.lent.writer.now }
        ensures goes_on { StartsWith (published result.writer.now) B.before }
        ensures reference { result.writer.ghost_name ≡ B.reference }
    {
        let Screen { lent, .. } = self;
        lent
    }
}

impl<'w, K: Naming, B: Lending> Watching for Screen<'w, K, B> {
    ghost use Rattle.live_view.specs.Views.{all_updates};
    ghost use Rattle.live_run.specs.Owing.{seen_in};

    ghost seen = { λ s. seen_in s.tiles s.owed.items (all_updates s.lent.writer.now) };

    #[tactic(auto, using(crate::proofs::Owing::put_seen, crate::proofs::Owing::refused_seen))]
    fn composed(&mut self, desk: &Desk, key: TileKey) {
        let lent = &mut self.lent;
        match put_tile(lent.writer, &self.blank, desk, key) {
            Ok(()) => forgive(&mut self.owed, key),
            Err(NoMemory) => owe(&mut self.owed, &self.tiles, key),
        }
    }

    #[tactic(auto, using(crate::proofs::Owing::begins_on, crate::proofs::Owing::same_seen))]
    fn publish<R: Wait>(&mut self, rt: &R) {
        let lent = &mut self.lent;
        let _ = publish(rt, lent.writer);
    }

    #[tactic(auto, using(crate::proofs::Owing::each_owed))]
    fn owe_all(&mut self) {
        owe_all(&mut self.owed, &self.tiles);
    }
}
