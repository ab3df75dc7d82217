//! Blocks on their own, without the shot that they were painted on.

ghost use Rattle.std.specs.Prelude.{◌≡◌, length, ◌<◌, ◌≤◌, Some, slice_get};
ghost use Rattle.job_core.specs.Paints.{IsMade, is_whole};

use geom_core::TileKey;
use std::marker::Model;
use tile_core::Block;

/// The blocks that a job leaves in one tile, on their own: the shot that they were painted on may
/// be let go.
#[derive(Drop)]
pub struct Made {
    pub(crate) key: TileKey,
    pub(crate) first: Block,
    pub(crate) second: Option<Block>,
}

impl Model for Made {
    ghost use Rattle.std.specs.Prelude.{◌∷◌, option_to_list};
    ghost use Rattle.job_core.specs.Paints.{Stuff, stuff, stuff_code, IsMade};

    ghost Value = { Stuff };

    ghost coded = { stuff_code };

    ghost view = { λ m. stuff m.key (m.first ∷ option_to_list m.second) };

    ghost invariant = { λ m. IsMade (stuff m.key (m.first ∷ option_to_list m.second)) };
}

impl Made {
    /// The key of the tile.
    pub fn key(&self) -> TileKey
        ensures value { result ≡ self.now.key }
        ensures known { IsMade self.now }
    {
        self.key
    }

    /// How many blocks there are: one or two.
    pub fn block_count(&self) -> usize
        ensures value { result ≡ length self.now.blocks }
        ensures some { 1 ≤ result }
        ensures few { result ≤ 2 }
    {
        match self.second {
            None => 1,
            Some(_) => 2,
        }
    }

    /// The block with that index, which counts from 0.
    pub fn block(&self, i: usize) -> &Block
        requires { i < length self.now.blocks }
        ensures { Some result.now ≡ slice_get self.now.blocks i }
    {
        match &self.second {
            Some(second) if i == 1 => second,
            _ => &self.first,
        }
    }

    /// Whether it is one block that has all points of the tile.
    pub(crate) fn is_whole(&self) -> bool
        ensures { result ≡ is_whole self.now.blocks }
    {
        let rect = self.first.rect();
        match self.second {
            None => rect.w() == 64 && rect.h() == 64,
            Some(_) => false,
        }
    }

    /// The first block. The other one goes.
    pub(crate) fn into_first(self) -> Block
        ensures { Some result ≡ slice_get self.blocks 0 }
    {
        let Made { first, .. } = self;
        first
    }
}
