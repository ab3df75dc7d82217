//! What was composed of a walk, apart from what the walk reads.

ghost use Rattle.std.specs.Prelude.{◌≡◌, [], ◌∷◌, ◌++◌, OnOk, OnErr, length};
ghost use Rattle.geom_core.specs.Keys.{IsWorldKey};
ghost use Rattle.walker_core.specs.Readings.{Readings};
ghost use Rattle.walker_core.specs.Composing.{AreOf, composition, tiles_in};

use crate::composed::Composed;
use crate::inputs::Inputs;
use crate::row::{Row, compose_row};
use compose_core::Pile;
use geom_core::{NoMemory, TileKey};
use std::alloc::Global;

/// The pictures of all groups of a walk on some tiles, apart from what the walk reads: so both may lie side by
/// side, and tile after tile is composed as there is time and memory.
#[derive(Drop)]
pub struct Rows {
    pub(crate) rows: Vec<Row>,
}

impl Rows {
    /// No tile of any walk.
    pub fn none(alloc: Global) -> Rows
        ensures tiles { tiles_in result ≡ [] }
        ensures of { (r : Readings) → AreOf r result }
    {
        Rows {
            rows: Vec::new(alloc),
        }
    }

    /// How many tiles there are.
    pub fn len(&self) -> usize
        ensures { result ≡ length (tiles_in self.now) }
    {
        self.rows.len()
    }

    /// Composes all groups of the walk on one more tile.
    ///
    /// # Errors
    /// `NoMemory`; the tiles are those that there were.
    pub fn compose(&mut self, alloc: Global, inputs: &Inputs, key: TileKey) -> Result<(), NoMemory>
        requires key { IsWorldKey key }
        requires of { AreOf inputs.now self.old }
        ensures ok { OnOk result (tiles_in self.new ≡ tiles_in self.old ++ key ∷ []) }
        ensures err { OnErr result (tiles_in self.new ≡ tiles_in self.old) }
        ensures of { AreOf inputs.now self.new }
    {
        let mut pile = Pile::new(alloc);
        self.compose_on(alloc, inputs, key, &mut pile)
    }

    /// The same with a pile that serves one tile after another.
    pub(crate) fn compose_on(
        &mut self,
        alloc: Global,
        inputs: &Inputs,
        key: TileKey,
        pile: &mut Pile,
    ) -> Result<(), NoMemory>
        requires key { IsWorldKey key }
        requires of { AreOf inputs.now self.old }
        ensures ok { OnOk result (tiles_in self.new ≡ tiles_in self.old ++ key ∷ []) }
        ensures err { OnErr result (tiles_in self.new ≡ tiles_in self.old) }
        ensures of { AreOf inputs.now self.new }
    {
        let row = compose_row(alloc, inputs, key, pile)?;
        self.rows.push(row)?;
        Ok(())
    }

    /// The same beside what the walk reads.
    pub fn on<'a>(self, inputs: &'a Inputs) -> Composed<'a>
        requires { AreOf inputs.now self }
        ensures { result ≡ composition inputs.now (tiles_in self) }
    {
        Composed {
            inputs,
            rows: self.rows,
        }
    }
}
