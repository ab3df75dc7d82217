//! The folds of lower children that a desk keeps from walk to walk.

ghost use Rattle.std.specs.Prelude.{All, ◌≡◌, ◌≤◌, ◌⊎◌, [], true, IfOk, IfSome};
ghost use Rattle.compose_core.specs.Spots.{IsSpot};
ghost use Rattle.desk_core.specs.Keeping.{AreOfFolds, AreSpots, IsBeside, Lowers, Shows, ShowsWithin, Turns};

use doc_model::Walk;
use geom_core::{NoMemory, Rect};
use std::alloc::Global;
use walker_core::{Fold, Footing};

/// The most folds that are kept: for each tile of the largest canvas one.
const MOST: usize = 1024;

/// What walks have made of the children that lie below the painted layer, so that further walks go on from there. It
/// is let go where these children may change.
#[derive(Drop)]
pub(crate) struct Folds {
    /// The layer of the stroke that was begun last.
    layer: u16,
    /// The walks that made them.
    walk: Walk,
    /// Walks at work with this serial or a later one read the lower children as they are.
    since: u64,
    folds: Vec<Fold>,
}

impl Folds {
    /// None, and no layer is painted.
    pub(crate) fn new(alloc: Global) -> Folds
        ensures folds { result.folds.items ≡ [] }
        ensures since { result.since ≡ 0 }
    {
        Folds {
            layer: 0,
            walk: Walk::All,
            since: 0,
            folds: Vec::new(alloc),
        }
    }

    /// A stroke on a layer begins. The folds below another layer go; walks with serials before the next one may have
    /// read other pixels.
    pub(crate) fn turn_to(&mut self, layer: u16, next: u64)
        ensures layer { self.new.layer ≡ layer }
        ensures folds { (self.new ≡ self.old) ⊎
            ((self.new.folds.items ≡ []) × (self.new.since ≡ next)) }
    {
        if self.layer != layer {
            self.layer = layer;
            self.forget(next);
        }
    }

    /// All folds go, and what walks read that are at work isn't known.
    pub(crate) fn forget(&mut self, next: u64)
        ensures layer { self.new.layer ≡ self.old.layer }
        ensures folds { self.new.folds.items ≡ [] }
        ensures since { self.new.since ≡ next }
    {
        self.since = next;
        self.walk = Walk::All;
        self.folds.clear();
    }

    /// A walk starts. Folds of other walks go, since what it composes may be among their children.
    pub(crate) fn begin_walk(&mut self, walk: Walk)
        ensures { Turns self.old self.new walk }
    {
        if self.walk != walk {
            self.walk = walk;
            self.folds.clear();
        }
    }

    /// What the walk that was begun last may stand on, if it is on this rectangle. None where it composes all groups: then
    /// nothing of it is kept. Tiles are shared.
    ///
    /// # Errors
    /// `NoMemory`.
    pub(crate) fn footing(&self, alloc: Global, rect: &Rect) -> Result<Option<Footing>, NoMemory>
        ensures { IfOk result (λ o. IfSome o (AreOfFolds self.now)) }
    {
        if self.walk == Walk::All {
            return Ok(None);
        }
        let folds = self.folds_on(alloc, rect)?;
        Ok(Some(Footing {
            layer: self.layer,
            folds,
        }))
    }

    /// The folds whose parts a rectangle meets.
    fn folds_on(&self, alloc: Global, rect: &Rect) -> Result<Vec<Fold>, NoMemory>
        ensures { (x : Lowers) → All (Shows x) self.now.folds.items
            → IfOk result (λ folds. All (Shows x) folds.items) }
    {
        let mut folds = Vec::new(alloc);
        for fold in &self.folds {
            if rect.meets(&fold.spot.part) {
                folds.push(fold.share()?)?;
            }
        }
        Ok(folds)
    }

    /// Whether a walk of that sort and serial read the lower children as they are, if it is at work.
    pub(crate) fn are_read_by(&self, walk: Walk, serial: u64) -> bool
        ensures walk { result ≡ true → self.now.walk ≡ walk }
        ensures since { result ≡ true → self.now.since ≤ serial }
    {
        self.walk == walk && self.since <= serial
    }

    /// Keeps what such a walk made that lies in its rectangle. All walks at work compose the same groups.
    ///
    /// # Errors
    /// `NoMemory`; some of it isn't kept.
    pub(crate) fn keep(&mut self, alloc: Global, rect: &Rect, made: &[Fold]) -> Result<(), NoMemory>
        requires own { AreSpots self.old.folds.items }
        requires made { AreSpots made.now }
        ensures layer { self.new.layer ≡ self.old.layer }
        ensures walk { self.new.walk ≡ self.old.walk }
        ensures since { self.new.since ≡ self.old.since }
        ensures folds { (x : Lowers) → All (ShowsWithin x self.old.layer rect.now) made.now
            → All (Shows x) self.old.folds.items → All (Shows x) self.new.folds.items }
    {
        for fold in made {
            self.keep_within(alloc, rect, fold)?;
        }
        Ok(())
    }

    /// Keeps a fold, if it is of the layer and lies in the rectangle.
    fn keep_within(&mut self, alloc: Global, rect: &Rect, fold: &Fold) -> Result<(), NoMemory>
        requires one { IsSpot fold.now.spot }
        requires own { AreSpots self.old.folds.items }
        ensures spots { AreSpots self.new.folds.items }
        ensures layer { self.new.layer ≡ self.old.layer }
        ensures walk { self.new.walk ≡ self.old.walk }
        ensures since { self.new.since ≡ self.old.since }
        ensures folds { (x : Lowers) → ShowsWithin x self.old.layer rect.now fold.now
            → All (Shows x) self.old.folds.items → All (Shows x) self.new.folds.items }
    {
        if fold.layer == self.layer && fold.spot.part.lies_in(rect) {
            return self.keep_one(alloc, fold);
        }
        Ok(())
    }

    /// Keeps a fold, together with what is kept of the same children on the same tile.
    fn keep_one(&mut self, alloc: Global, fold: &Fold) -> Result<(), NoMemory>
        requires one { IsSpot fold.now.spot }
        requires own { AreSpots self.old.folds.items }
        ensures spots { AreSpots self.new.folds.items }
        ensures layer { self.new.layer ≡ self.old.layer }
        ensures walk { self.new.walk ≡ self.old.walk }
        ensures since { self.new.since ≡ self.old.since }
        ensures folds { (x : Lowers) → Shows x fold.now
            → All (Shows x) self.old.folds.items → All (Shows x) self.new.folds.items }
    {
        if let Some(place) = self.place_of(fold) {
            self.folds[place] = self.folds[place].joined(alloc, fold)?;
            return Ok(());
        }
        if self.folds.len() < MOST {
            self.folds.push(fold.share()?)?;
        }
        Ok(())
    }

    /// The place of what is kept of the same children on the same tile.
    fn place_of(&self, fold: &Fold) -> Option<usize>
        ensures { IfSome result (IsBeside self.now.folds.items fold.now) }
    {
        for i in 0..self.folds.len() {
            let kept = &self.folds[i];
            if kept.group == fold.group && kept.spot.key == fold.spot.key {
                return Some(i);
            }
        }
        None
    }
}
