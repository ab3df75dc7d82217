//! What is known of a walk's values before it is composed.

ghost use Rattle.std.specs.Prelude.{◌≡◌, IfSome};
ghost use Rattle.walker_core.specs.Folds.{IsFoldIn};
ghost use Rattle.walker_core.specs.Knowing.{stale_in};

use crate::folds::Fold;
use compose_core::{Given, Spot};
use geom_core::{Rect, TileKey};
use tile_core::Shot;

/// The damaged part of a tile.
#[derive(Clone, Copy, Debug)]
pub struct Damaged {
    pub key: TileKey,
    pub part: Rect,
}

/// Folds of lower children on which a walk may stand.
#[derive(Drop)]
pub struct Footing {
    /// The painted layer.
    pub layer: u16,
    /// What is known: at most one fold of a group on a tile.
    pub folds: Vec<Fold>,
}

impl Footing {
    /// What is known of the lower children of a group on a tile.
    pub(crate) fn fold(&self, group: u16, key: TileKey) -> Option<&Fold>
        ensures { IfSome result (λ f. IsFoldIn self.now group key f.now) }
    {
        for fold in &self.folds {
            if fold.layer == self.layer && fold.group == group && fold.spot.key == key {
                return Some(fold);
            }
        }
        None
    }
}

/// Pixels that have a walk's values but on damaged parts of tiles.
#[derive(Drop)]
pub struct Known {
    /// Pixels on the patch for each group that the walk composes, in their order.
    pub shots: Vec<Shot>,
    /// The parts of tiles on which the walk's values may be others, at most one of a tile.
    pub damaged: Vec<Damaged>,
    /// What is known of the groups' lower children, where what is new of it is to come back with what is composed.
    pub footing: Option<Footing>,
}

impl Known {
    /// The damaged part of a tile.
    pub fn part(&self, key: TileKey) -> Option<Rect>
        ensures { result ≡ stale_in self.now.damaged.items key }
    {
        for damaged in &self.damaged {
            if damaged.key == key {
                return Some(damaged.part);
            }
        }
        None
    }
}

/// What of a group's picture on a tile is known.
#[derive(Drop)]
pub(crate) enum Kept {
    /// Nothing is.
    Nothing,
    /// It is this.
    Whole(Given),
    /// It is this outside a part of the tile.
    Outside(Spot, Given),
}
