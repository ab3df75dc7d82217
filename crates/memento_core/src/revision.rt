//! What stood under some keys of a plane.

ghost use Rattle.std.specs.Prelude.{◌≡◌, ◌+◌, ◌<◌, ◌++◌, ◌∷◌, [], length, vec_capacity, OnOk, OnErr};
ghost use Rattle.std.specs.FinMap as map;
ghost use Rattle.std.specs.FinSet as set;
ghost use Rattle.geom_core.specs.Keys.{IsWorldKey};
ghost use Rattle.geom_core.specs.Exchanged.{HasTouched};
ghost use Rattle.memento_core.specs.Notes.{IsEachOnce, keys_noted, noted};
ghost use Rattle.memento_core.specs.Revisions.{AllStand, Exchanges, keys_in, noted_under};

use crate::keys::KeySet;
use crate::{Plane, Steps};
use geom_core::{NoMemory, TileKey, Touched};
use std::alloc::Global;
use std::marker::Model;
use std::mem;
use std::sync::ledger::Ledger;

/// What stood under a key: a tile, or None.
#[derive(Drop)]
pub struct Note<T> {
    pub key: TileKey,
    pub tile: Option<T>,
}

/// What stood under some keys of a plane, each noted once: a tile, or None. To put a plane back, or
/// forth again, is to exchange it with a revision, so no tile is ever copied back.
#[derive(Drop)]
pub struct Revision<T> {
    keys: KeySet,
    notes: Vec<Note<T>>,
}

impl<T> Model for Revision<T> {
    ghost use Rattle.memento_core.specs.Planes.{Keyed};
    ghost use Rattle.memento_core.specs.Notes.{IsRevision, noted};
    ghost use Rattle.memento_core.specs.Revisions.{keyed_code};

    ghost Value = { Keyed T };

    ghost coded = { keyed_code T.code };

    ghost view = { λ r. noted r.notes.items };

    ghost invariant = { λ r. IsRevision r.keys r.notes.items };
}

impl<T: Drop> Revision<T> {
    /// Nothing was noted.
    pub fn new(alloc: Global) -> Revision<T>
        ensures { result ≡ map.empty }
    {
        Revision {
            keys: KeySet::new(alloc),
            notes: Vec::new(alloc),
        }
    }

    /// Whether something was noted of the key.
    pub fn has(&self, key: TileKey) -> bool
        ensures { result ≡ map.contains_key self.now key }
    {
        self.keys.has(key)
    }

    /// How many keys there are, and the least rectangle round their tiles.
    pub fn touched(&self) -> Touched
        ensures { HasTouched (keys_in self.now) result }
    {
        self.keys.touched()
    }

    /// Notes that `old` stands under a key of the world, if nothing was noted of it before.
    pub fn note(&mut self, key: TileKey, old: Option<T>) -> Result<(), NoMemory>
        requires { IsWorldKey key }
        ensures ok { OnOk result (self.new ≡ noted_under self.old key old) }
        ensures err { OnErr result (self.new ≡ self.old) }
    {
        self.notes.reserve(1)?;
        if self.keys.insert(key)? {
            push(&mut self.notes, Note { key, tile: old });
        }
        Ok(())
    }

    /// Exchanges what was noted with what stands in the plane under the same keys, which are there.
    /// One step for each key, and no memory.
    pub fn exchange<P: Plane<T>, L: Ledger>(&mut self, plane: &mut P, steps: &mut Steps<L>)
        requires { AllStand self.old (P.plane plane.old) }
        ensures exchanges { Exchanges self.old self.new (P.plane plane.old) (P.plane plane.new) }
        ensures rest { P.bare plane.new ≡ P.bare plane.old }
        ensures counts { steps.new ≡ steps.old + set.len (keys_in self.old) }
    {
        exchange_all(&mut self.notes, plane, steps);
    }
}

/// One note more, where there is room for it.
fn push<T: Drop>(notes: &mut Vec<Note<T>>, note: Note<T>)
    requires { length notes.old.items < vec_capacity notes.old }
    ensures { notes.new.items ≡ notes.old.items ++ note ∷ [] }
{
    if notes.push(note).is_err() {
        unreachable!();
    }
}

/// Exchanges each noted tile with what stands under its key, in order.
fn exchange_all<T: Drop, P: Plane<T>, L: Ledger>(
    notes: &mut [Note<T>],
    plane: &mut P,
    steps: &mut Steps<L>,
)
    requires once { IsEachOnce (keys_noted notes.old) }
    requires there { AllStand (noted notes.old) (P.plane plane.old) }
    ensures exchanges { Exchanges (noted notes.old) (noted notes.new)
        (P.plane plane.old) (P.plane plane.new) }
    ensures rest { P.bare plane.new ≡ P.bare plane.old }
    ensures keys { keys_noted notes.new ≡ keys_noted notes.old }
    ensures counts { steps.new ≡ steps.old + length notes.old }
{
    for note in notes.iter_mut() {
        let tile = mem::replace(&mut note.tile, None);
        note.tile = plane.exchange(note.key, tile, steps);
    }
}
