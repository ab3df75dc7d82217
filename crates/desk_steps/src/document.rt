//! The document: a tree, and the pixels of its layers.

ghost use Rattle.std.specs.Prelude.{◌≡◌, ◌+◌, true, None, Some, Ok, Err, is_some, IfOk, OnOk, OnErr, IfSome, IfNone};
ghost use Rattle.std.specs.FinSet as set;
ghost use Rattle.std.specs.Borrow.{sem};
ghost use Rattle.std.specs.Option.{option_copied_mut};
ghost use Rattle.desk_steps.specs.Lends.{LendsDevice};
ghost use Rattle.doc_model.specs.Layers.{Layer, plain};
ghost use Rattle.doc_model.specs.Shots.{published};
ghost use Rattle.doc_model.specs.Forest.{none, content};
ghost use Rattle.doc_model.specs.Adjusting.{adjusted};
ghost use Rattle.doc_model.specs.Changes.{changed};
ghost use Rattle.doc_model.specs.Laws.{IsDocument};
ghost use Rattle.doc_model.specs.declared.tree.TreeFault.{TreeFault};
ghost use Rattle.job_core.specs.Paints as paints;
ghost use Rattle.job_core.specs.Paints.{Paint, Makes};
ghost use Rattle.job_core.specs.Points.{all_painted_in};
ghost use Rattle.whole_tiles.specs.Wholes.{Shows};
ghost use Rattle.paint_device.specs.Seen.{layer_of};
ghost use Rattle.desk_steps.specs.declared.exchanging.Base.TheVariants.{Known};
ghost use Rattle.desk_steps.specs.declared.reach.TreeRefusal.TheVariants as refusal;
ghost use Rattle.desk_steps.specs.Archives.{shape};
ghost use Rattle.memento_core.specs.Revisions.{keys_in};
ghost use Rattle.desk_steps.specs.Founds.{StandIn, patched};
ghost use Rattle.desk_steps.specs.Slots.{HasDevices, device_in, standing};
ghost use Rattle.desk_steps.specs.Tiles.{HasBaseIn};

use crate::arrangement::{Arrangement, exchange_devices, slots_of};
use crate::exchanging::{Base, put_whole};
use crate::laying::lay;
use crate::painting::paint;
use crate::reach::TreeRefusal;
use doc_model::Change;
use geom_core::NoMemory;
use job_core::{Made, PointWork};
use memento_core::{Revision, Steps};
use paint_device::Device;
use std::alloc::Global;
use std::collections::BTreeMap;
use std::sync::ledger::Ledger;
use tile_core::Tile;
use tree_core::Tree;
use whole_tiles::Whole;

/// A tree, and a slot for each id that was a paint layer: with the device of a paint layer of the tree,
/// and else with None.
#[derive(Drop)]
pub struct Document {
    pub tree: Tree,
    pub slots: BTreeMap<u16, Option<Device>>,
    ghost fits: { HasDevices tree slots },
}

impl Document {
    ghost use Rattle.desk_steps.specs.Documents.{Fits, Regains, arranged, arranged_standing, doc_in};
    ghost use Rattle.desk_steps.specs.Slots.{Grows};

    /// The root alone.
    pub fn new(alloc: Global) -> Document
        ensures { doc_in result ≡ none }
    {
        Document {
            tree: Tree::new(),
            slots: BTreeMap::new(alloc),
        }
    }

    /// The tree. It tells the limits that every document keeps to.
    pub fn tree(&self) -> &Tree
        ensures value { result.now ≡ shape (doc_in self.now) }
        ensures known { IsDocument (doc_in self.now) }
    {
        let _count = self.tree.node_count();
        &self.tree
    }

    /// The device of a paint layer. None exactly where the id is no paint layer.
    pub fn layer(&self, id: u16) -> Option<&Device>
        ensures some { IfSome result (λ d. content id (doc_in self.now) ≡ Some (layer_of d.now)) }
        ensures none { IfNone result (content id (doc_in self.now) ≡ None) }
    {
        self.slots.get(&id)?.as_ref()
    }

    /// Exchanges what was noted with the tiles of a paint layer under the same keys, which are there.
    /// One step for each key, and no memory.
    pub fn exchange<L: Ledger>(&mut self, id: u16, found: &mut Revision<Tile>, steps: &mut Steps<L>)
        requires layer { is_some (device_in self.old.slots id) ≡ true }
        requires there { StandIn found.old (device_in self.old.slots id) }

        // The noted tiles stand in the layer, and what was noted gives back the document from before.
        ensures new { doc_in self.new ≡ adjusted id (patched found.old) (doc_in self.old) }
        ensures back { adjusted id (patched found.new) (doc_in self.new) ≡ doc_in self.old }
        ensures keys { keys_in found.new ≡ keys_in found.old }

        // No key goes away, so it can be exchanged again.
        ensures stand { StandIn found.new (device_in self.new.slots id) }
        ensures kept { standing self.old.tree self.old.slots ≡ standing self.new.tree
            self.new.slots }
        ensures counts { steps.new ≡ steps.old + set.len (keys_in found.old) }
    {
        match device_mut(&mut self.slots, id) {
            Some(device) => found.exchange(device, steps),
            None => unreachable!(),
        }
    }

    /// Lays what was painted on a paint layer, and notes what stood in its tile before the stroke.
    pub fn put(
        &mut self,
        alloc: Global,
        id: u16,
        found: &mut Revision<Tile>,
        made: &Made,
    ) -> Result<(), NoMemory>
        requires layer { is_some (device_in self.old.slots id) ≡ true }
        requires there { StandIn found.old (device_in self.old.slots id) }

        // The tile is changed, and what was noted still gives back the document from before the stroke.
        ensures ok { (w : Paint) → Makes w made.now → OnOk result (doc_in self.new
            ≡ adjusted id (published w.job (paints.layer_of w.shot) w.key) (doc_in self.old)) }
        ensures keys { OnOk result (keys_in found.new ≡ set.insert (keys_in found.old)
            made.now.key) }
        ensures back { Regains id found.old found.new self.old self.new }

        // Without memory no pixel has changed, and nothing was noted.
        ensures err { OnErr result (doc_in self.new ≡ doc_in self.old) }
        ensures no_note { OnErr result (found.new ≡ found.old) }
    {
        let _key = made.key();
        match device_mut(&mut self.slots, id) {
            Some(device) => lay(alloc, device, found, made),
            None => unreachable!(),
        }
    }

    /// What a job leaves in a tile, made whole, comes onto a paint layer, and what stood there before the
    /// stroke is noted.
    pub fn put_whole(
        &mut self,
        alloc: Global,
        id: u16,
        found: &mut Revision<Tile>,
        whole: &Whole,
        base: Base,
    ) -> Result<(), NoMemory>
        requires layer { is_some (device_in self.old.slots id) ≡ true }
        requires there { StandIn found.old (device_in self.old.slots id) }
        requires known { base ≡ Known → HasBaseIn whole.now (device_in self.old.slots id) }

        // The tile is changed, and what was noted still gives back the document from before the stroke.
        ensures ok { (shot : Layer) → Shows whole.now.needs whole.now.base shot
            → OnOk result (doc_in self.new ≡ adjusted id (published whole.now.job shot
            whole.now.key) (doc_in self.old)) }
        ensures keys { OnOk result (keys_in found.new ≡ set.insert (keys_in found.old)
            whole.now.key) }
        ensures back { Regains id found.old found.new self.old self.new }

        // Without memory no pixel has changed, and nothing was noted.
        ensures err { OnErr result (doc_in self.new ≡ doc_in self.old) }
        ensures no_note { OnErr result (found.new ≡ found.old) }
    {
        match device_mut(&mut self.slots, id) {
            Some(device) => put_whole(alloc, device, found, whole, base),
            None => unreachable!(),
        }
    }

    /// Paints point operations in one tile of a paint layer, and notes what stood in the tile before
    /// the stroke.
    pub fn paint(
        &mut self,
        alloc: Global,
        id: u16,
        found: &mut Revision<Tile>,
        work: &PointWork<'_>,
    ) -> Result<(), NoMemory>
        requires layer { is_some (device_in self.old.slots id) ≡ true }
        requires there { StandIn found.old (device_in self.old.slots id) }

        // The tile is changed, and what was noted still gives back the document from before the stroke.
        ensures ok { OnOk result (doc_in self.new
            ≡ adjusted id (all_painted_in work.now.jobs work.now.key) (doc_in self.old)) }
        ensures keys { OnOk result (keys_in found.new ≡ set.insert (keys_in found.old)
            work.now.key) }
        ensures back { Regains id found.old found.new self.old self.new }

        // Without memory no pixel has changed, and nothing was noted.
        ensures err { OnErr result (doc_in self.new ≡ doc_in self.old) }
        ensures no_note { OnErr result (found.new ≡ found.old) }
    {
        match device_mut(&mut self.slots, id) {
            Some(device) => paint(alloc, device, found, work),
            None => unreachable!(),
        }
    }

    /// The arrangement that a change makes of the document. Of the document itself it may make the slot
    /// of a new layer, which is empty yet.
    ///
    /// # Errors
    /// `Tree` with the first refusal, exactly where there is one.
    pub fn changed(&mut self, alloc: Global, change: &Change) -> Result<Arrangement, TreeRefusal>
        ensures ok { IfOk result (λ a. changed plain change.now (doc_in self.old)
            ≡ Ok (arranged a (doc_in self.old))) }
        ensures fits { IfOk result (λ a. Fits a (standing self.new.tree self.new.slots)) }
        ensures tree { (fault : TreeFault) → result ≡ Err (refusal.Tree fault)
            → changed plain change.now (doc_in self.old) ≡ Err fault }
        ensures same { doc_in self.new ≡ doc_in self.old }
        ensures grows { Grows (standing self.old.tree self.old.slots)
            (standing self.new.tree self.new.slots) }
    {
        let _count = self.tree.node_count();
        let mut tree = self.tree.copy();
        match tree.change(change) {
            Ok(()) => {
                let slots = slots_of(alloc, &mut self.slots, &tree, change)?;
                let tree = self.tree.exchange_for(alloc, &tree)?;
                Ok(Arrangement { tree, slots })
            }
            Err(fault) => Err(TreeRefusal::Tree(fault)),
        }
    }

    /// Exchanges the nodes and the devices with another arrangement, which then gives back this one.
    /// No tile is touched, and no memory taken.
    pub fn arrange(&mut self, other: &mut Arrangement)
        requires { Fits other.old (standing self.old.tree self.old.slots) }
        ensures new { doc_in self.new ≡ arranged other.old (doc_in self.old) }
        ensures back { arranged other.new (doc_in self.new) ≡ doc_in self.old }
        ensures stands { arranged_standing other.old (standing self.old.tree self.old.slots)
            ≡ standing self.new.tree self.new.slots }
        ensures stood { arranged_standing other.new (standing self.new.tree self.new.slots)
            ≡ standing self.old.tree self.old.slots }
        ensures fits { Fits other.new (standing self.new.tree self.new.slots) }
    {
        self.tree.exchange(&mut other.tree);
        exchange_devices(&mut self.slots, &mut other.slots);
    }
}

/// The device under an id, lent to be changed in its slot. None where it isn't there.
fn device_mut(devices: &mut BTreeMap<u16, Option<Device>>, id: u16) -> Option<&mut Device>
    ensures* lends { sem 𝓛 (LendsDevice devices.entry id result) }
    ensures value { option_copied_mut result ≡ device_in devices.old id }
{
    let slot = devices.get_mut(&id)?;
    slot.as_mut()
}
