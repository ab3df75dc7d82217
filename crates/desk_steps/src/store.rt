//! The store.

ghost use Rattle.std.specs.Prelude.{◌≡◌, ◌+◌, ℕ, true, false, [], None, Some, Ok, Err, is_some, take, IfOk, OnOk, OnErr, IfSome, IfNone, IsNone, ◌↔◌};
ghost use Rattle.std.specs.FinSet as set;
ghost use Rattle.geom_core.specs.Grid.{key_of, same_key};
ghost use Rattle.geom_core.specs.Areas.{Point};
ghost use Rattle.tile_core.specs.Pixels.{pixel_at};
ghost use Rattle.doc_model.specs.Layers.{Layer, at, plain};
ghost use Rattle.doc_model.specs.Shots.{shot_of};
ghost use Rattle.doc_model.specs.Forest.{content};
ghost use Rattle.doc_model.specs.Changes.{changed, there};
ghost use Rattle.doc_model.specs.Laws.{IsDocument};
ghost use Rattle.doc_model.specs.declared.tree.TreeFault.{TreeFault};
ghost use Rattle.machine_model.specs.Effects.{layer_in};
ghost use Rattle.paint_device.specs.Seen as seen;
ghost use Rattle.job_core.specs.Paints.{Paint, Makes, IsMade, layer_of};
ghost use Rattle.whole_tiles.specs.Wholes.{IsEntire, IsOf};
ghost use Rattle.desk_steps.specs.declared.exchanging.Base.TheVariants.{Known};
ghost use Rattle.desk_steps.specs.declared.reach.Reach.TheVariants as tells;
ghost use Rattle.desk_steps.specs.declared.reach.TreeRefusal.TheVariants as refusal;
ghost use Rattle.desk_steps.specs.declared.reach.Begun.TheVariants.{Ready, NoLayer, NotPaint};
ghost use Rattle.geom_core.specs.Exchanged.{HasTouched};
ghost use Rattle.desk_steps.specs.Tiles.{IsMadeFrom, ShowsTiles};
ghost use Rattle.desk_steps.specs.Archives.{Archive, IsArchive, Changes, TellsFirst, empty_archive, layer_now, shape, with_put, with_painted, finished, reverted, undone, redone, tiles_in_first};

use crate::document::Document;
use crate::entry::{HistoryEntry, Way};
use crate::exchanging::Base;
use crate::reach::{Begun, Reach, TreeRefusal};
use doc_model::Change;
use geom_core::{NoMemory, Rect, TileKey, Touched};
use history_core::UndoStack;
use job_core::{Made, Painted, PointWork};
use memento_core::{Revision, Steps};
use paint_device::Device;
use pixel_core::Pixel;
use std::alloc::Global;
use std::marker::Model;
use std::sync::ledger::Ledger;
use tile_core::{Shot, Tile};
use tree_core::Tree;
use whole_tiles::Whole;

/// A document of layers and groups, what can be undone and redone, and the stroke under way.
///
/// A stroke notes what stood in each tile that it puts, and a change of the tree the nodes that differ
/// and the devices of the layers that it brings or takes. To undo or redo is to exchange them, so no tile is
/// ever copied back.
#[derive(Drop)]
pub struct Store {
    alloc: Global,
    doc: Document,
    history: UndoStack<HistoryEntry>,
    way: Option<Way>,
    room: bool,
}

impl Model for Store {
    ghost use Rattle.desk_steps.specs.Archives.{Archive, archive_code};
    ghost use Rattle.desk_steps.specs.Documents.{doc_in};
    ghost use Rattle.desk_steps.specs.Entries.{archive_of, IsStored};

    ghost Value = { Archive };

    ghost coded = { archive_code };

    ghost view = { λ s. archive_of (doc_in s.doc) s.history s.way s.room };

    ghost invariant = { λ s. IsStored s.doc s.history s.way s.room };
}

impl Store {
    /// An empty document, and nothing to undo or redo.
    pub fn new(alloc: Global) -> Result<Store, NoMemory>
        ensures { IfOk result (λ s. s ≡ empty_archive) }
    {
        Ok(Store {
            alloc,
            doc: Document::new(alloc),
            history: UndoStack::new(alloc),
            way: None,
            room: false,
        })
    }

    /// Takes room for one more change. It stays until the next stroke is finished or change is made.
    pub fn prepare(&mut self) -> Result<(), NoMemory>
        ensures ok { OnOk result (self.new ≡ record self.old { room = true }) }
        ensures err { OnErr result (self.new ≡ self.old) }
    {
        self.history.reserve(1)?;
        self.room = true;
        Ok(())
    }

    /// Begins a stroke on a paint layer. Where the id is none, nothing begins. It takes no memory yet,
    /// however many tiles the layer has.
    pub fn begin(&mut self, layer: u16) -> Result<Begun, NoMemory>
        requires { self.old.way ≡ None }
        ensures ready { result ≡ Ok Ready → (is_some (content layer self.old.present) ≡ true)
            × (self.new ≡ record self.old { way = Some (layer, set.empty) }) }
        ensures no_layer { result ≡ Ok NoLayer → (there layer self.old.present ≡ false)
            × (self.new ≡ self.old) }
        ensures not_paint { result ≡ Ok NotPaint → ((there layer self.old.present ≡ true)
            × (content layer self.old.present ≡ None)) × (self.new ≡ self.old) }
        ensures err { OnErr result (self.new ≡ self.old) }
    {
        match self.doc.layer(layer) {
            Some(_) => {
                self.way = Some(Way {
                    id: layer,
                    found: Revision::new(self.alloc),
                });
                Ok(Begun::Ready)
            }
            None if self.doc.tree().has(layer) => Ok(Begun::NotPaint),
            None => Ok(Begun::NoLayer),
        }
    }

    /// The pixels of the stroke's layer on these rectangles, and in the whole of each tile that they meet.
    pub fn grab(&self, alloc: Global, rects: &[Rect]) -> Result<Shot, NoMemory>
        requires { is_some self.now.way ≡ true }
        ensures rects { IfOk result (λ s. s.rects ≡ rects.now) }
        ensures shot { IfOk result (λ s. layer_of s ≡ shot_of rects.now (layer_now self.now)) }
        ensures tiles { IfOk result (ShowsTiles rects.now (layer_now self.now)) }
    {
        let Some(way) = &self.way else {
            unreachable!();
        };
        match self.doc.layer(way.id) {
            Some(device) => device.grab(alloc, rects),
            None => unreachable!(),
        }
    }

    /// Lays what was painted on the stroke's layer. No other point changes.
    pub fn put(&mut self, alloc: Global, painted: &Painted<'_>) -> Result<(), NoMemory>
        requires { is_some self.old.way ≡ true }
        ensures ok { OnOk result (self.new ≡ with_put self.old.way painted.now self.old) }
        ensures err { OnErr result (self.new ≡ self.old) }
    {
        self.put_made(alloc, painted.made())
    }

    /// Lays what a job left in a tile, by its blocks alone, on the stroke's layer. Where the stroke has put
    /// their tile before and nobody shares it, one block is laid in place, and takes no memory.
    pub fn put_made(&mut self, alloc: Global, made: &Made) -> Result<(), NoMemory>
        requires { is_some self.old.way ≡ true }
        ensures ok { (w : Paint) → Makes w made.now → OnOk result (self.new ≡ with_put self.old.way
            w self.old) }
        ensures err { OnErr result (self.new ≡ self.old) }
        ensures known { IsMade made.now }
    {
        let _key = made.key();
        match &mut self.way {
            Some(way) => self.doc.put(alloc, way.id, &mut way.found, made),
            None => unreachable!(),
        }
    }

    /// Lays what a job leaves in a tile, made whole, on the stroke's layer. Where the layer has still the
    /// pixels that the tile was made from, the new tile takes the old one's place and no pixel is copied;
    /// else only what the job writes is laid, on a copy of the layer's tile.
    pub fn put_whole(&mut self, alloc: Global, whole: &Whole, base: Base) -> Result<(), NoMemory>
        requires under_way { is_some self.old.way ≡ true }
        requires known { base ≡ Known → IsMadeFrom whole.now (layer_now self.old) }
        ensures ok { (w : Paint) → IsOf w whole.now → OnOk result (self.new ≡ with_put self.old.way
            w self.old) }
        ensures err { OnErr result (self.new ≡ self.old) }
        ensures known { IsEntire whole.now }
    {
        let _key = whole.key();
        match &mut self.way {
            Some(way) => self
                .doc
                .put_whole(alloc, way.id, &mut way.found, whole, base),
            None => unreachable!(),
        }
    }

    /// Paints point operations in one tile of the stroke's layer, in place where the stroke has put
    /// the tile before and nobody shares it. On `NoMemory` nothing has changed.
    pub fn paint(&mut self, alloc: Global, work: &PointWork<'_>) -> Result<(), NoMemory>
        requires { is_some self.old.way ≡ true }
        ensures ok { OnOk result (self.new ≡ with_painted self.old.way work.now self.old) }
        ensures err { OnErr result (self.new ≡ self.old) }
    {
        match &mut self.way {
            Some(way) => self.doc.paint(alloc, way.id, &mut way.found, work),
            None => unreachable!(),
        }
    }

    /// Ends the stroke: it is the newest change, and nothing can be redone any more. No memory.
    pub fn finish(&mut self)
        requires under_way { is_some self.old.way ≡ true }
        requires room { self.old.room ≡ true }
        ensures { self.new ≡ finished self.old.way self.old }
    {
        let Some(way) = self.way.take() else {
            unreachable!();
        };
        self.history.commit(HistoryEntry::Layer {
            id: way.id,
            found: way.found,
        });
        self.room = false;
    }

    /// Takes the stroke back: the document is that from before it began, and what could be undone and
    /// redone still can. It tells the tiles that were put back. No memory, and a step for each of them.
    pub fn revert<L: Ledger>(&mut self, steps: &mut Steps<L>) -> Touched
        requires { is_some self.old.way ≡ true }
        ensures new { self.new ≡ reverted self.old }
        ensures touched { (layer : ℕ) (keys : set.FinSet _) → self.old.way ≡ Some (layer, keys)
            → HasTouched keys result }
        ensures counts { steps.new ≡ steps.old + result.count }
    {
        match self.way.take() {
            Some(mut way) => {
                self.doc.exchange(way.id, &mut way.found, steps);
                way.found.touched()
            }
            None => unreachable!(),
        }
    }

    /// Makes the change of the tree, which is then the newest one.
    ///
    /// # Errors
    /// `Tree` with the first refusal, exactly where there is one. After any error all is as it was.
    pub fn change(&mut self, alloc: Global, change: &Change) -> Result<Reach, TreeRefusal>
        requires { self.old.way ≡ None }
        ensures whole { IfOk result (λ r. r ≡ tells.Whole) }
        ensures ok { OnOk result (Changes change.now self.old self.new) }
        ensures tree { (fault : TreeFault) → result ≡ Err (refusal.Tree fault)
            → changed plain change.now self.old.base ≡ Err fault }
        ensures err { OnErr result (self.new ≡ self.old) }
    {
        let mut other = self.doc.changed(alloc, change)?;
        self.history.reserve(1)?;
        self.doc.arrange(&mut other);
        self.history.commit(HistoryEntry::Tree(other));
        self.room = false;
        Ok(Reach::Whole)
    }

    /// Undoes the newest change, and tells how far it reached. None exactly where there is none; then
    /// all stays. No memory. The tiles of a stroke are exchanged, a step each; after a change of the
    /// tree the tree is, with the devices that differ, without a step.
    pub fn undo<L: Ledger>(&mut self, steps: &mut Steps<L>) -> Option<Reach>
        requires { self.old.way ≡ None }
        ensures none { IsNone result ↔ (self.old.past ≡ []) }
        ensures new { self.new ≡ undone self.old.past self.old }
        ensures reach { IfSome result (TellsFirst self.old.past self.new.present) }
        ensures known { IsArchive self.old }
        ensures counts { steps.new ≡ steps.old + tiles_in_first self.old.past }
    {
        let entry = self.history.undo()?;
        Some(entry.exchange(&mut self.doc, steps))
    }

    /// Redoes the change that was undone last. None exactly where there is none. No memory, and the
    /// steps of `undo`.
    pub fn redo<L: Ledger>(&mut self, steps: &mut Steps<L>) -> Option<Reach>
        requires { self.old.way ≡ None }
        ensures none { IsNone result ↔ (self.old.future ≡ []) }
        ensures new { self.new ≡ redone self.old.future self.old }
        ensures reach { IfSome result (TellsFirst self.old.future self.new.present) }
        ensures known { IsArchive self.old }
        ensures counts { steps.new ≡ steps.old + tiles_in_first self.old.future }
    {
        let entry = self.history.redo()?;
        Some(entry.exchange(&mut self.doc, steps))
    }

    /// Forgets all changes that can be undone but the newest `keep`. No memory.
    pub fn purge(&mut self, keep: usize)
        requires { self.old.way ≡ None }
        ensures { self.new ≡ record self.old { past = take keep self.old.past } }
    {
        self.history.purge(keep);
    }

    /// The tree of the document, which keeps to the limits that every document does.
    pub fn tree(&self) -> &Tree
        ensures value { result.now ≡ shape self.now.present }
        ensures limits { IsDocument self.now.present }
        ensures known { IsArchive self.now }
    {
        self.doc.tree()
    }

    /// The device of a paint layer, which tells its tiles. None exactly where the id is no paint layer.
    pub fn layer(&self, id: u16) -> Option<&Device>
        ensures some { IfSome result (λ d. content id self.now.present
            ≡ Some (seen.layer_of d.now)) }
        ensures none { IfNone result (content id self.now.present ≡ None) }
    {
        self.doc.layer(id)
    }

    /// The tile of a layer under a key, with the layer's pixels there. None where the id is no paint
    /// layer, and else only where the layer has its default pixel at each point of that tile; `layer`
    /// tells whether a tile stands there.
    pub fn tile(&self, layer: u16, key: TileKey) -> Option<&Tile>
        ensures some { IfSome result (λ t. is_some (content layer self.now.present) ≡ true) }
        ensures held { IfSome result (λ t. (p : Point) → same_key (key_of p) key ≡ true
            → at (layer_in layer self.now.present) p ≡ pixel_at t.now p) }
        ensures plain { IfNone result ((p : Point) → same_key (key_of p) key ≡ true
            → is_some (content layer self.now.present) ≡ true → at (layer_in layer self.now.present)
            p ≡ (layer_in layer self.now.present).default_pixel) }
    {
        self.doc.layer(layer)?.tile(key)
    }

    /// The default pixel of a paint layer.
    pub fn ground(&self, layer: u16) -> Pixel
        requires { is_some (content layer self.now.present) ≡ true }
        ensures { result ≡ (layer_in layer self.now.present).default_pixel }
    {
        match self.doc.layer(layer) {
            Some(device) => device.ground(),
            None => Pixel::CLEAR,
        }
    }
}
