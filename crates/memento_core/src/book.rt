//! Books of revisions.

ghost use Rattle.std.specs.Prelude.{◌≡◌, ◌+◌, true, [], None, Some, is_some, take, OnOk, OnErr, IsNone, IfSome, IfNone, ◌↔◌};
ghost use Rattle.std.specs.FinMap as map;
ghost use Rattle.std.specs.FinSet as set;
ghost use Rattle.geom_core.specs.Keys.{IsWorldKey};
ghost use Rattle.geom_core.specs.Exchanged.{HasTouched};
ghost use Rattle.memento_core.specs.Planes.{Keyed};
ghost use Rattle.memento_core.specs.Revisions.{AllStand, PutsBack, keys_in, noted_under};
ghost use Rattle.memento_core.specs.Books.{FirstStands, RollsBack, RollsForward, committed, empty_book, first_keys};

use crate::{Plane, Revision, Steps};
use geom_core::{NoMemory, TileKey, Touched};
use history_core::UndoStack;
use std::alloc::Global;
use std::marker::Model;
use std::sync::ledger::Ledger;

/// The revisions of one plane: those that can be rolled back, those that can be rolled forward again,
/// and an open transaction, in which what stands under each key is noted before it changes.
///
/// For hosts that keep a plane of tiles of their own and let a user undo its changes. A store keeps
/// its revisions beside the other entries of its history.
///
/// What the calls below call a step is the exchange of one tile with the plane.
#[derive(Drop)]
pub struct Book<T> {
    alloc: Global,
    history: UndoStack<Revision<T>>,
    index: Option<Revision<T>>,
}

impl<T> Model for Book<T> {
    ghost use Rattle.std.specs.Prelude.{◌≡◌, ◌≤◌, true, is_some};
    ghost use Rattle.memento_core.specs.Books.{Pages, pages_code};

    ghost Value = { Pages T };

    ghost coded = { pages_code T.code };

    ghost view = { λ b. record {
      past = b.history.past;
      redo = b.history.future;
      index = b.index;
    } };

    ghost invariant = { λ b. is_some b.index ≡ true → 1 ≤ b.history.spare };
}

impl<T: Drop> Book<T> {
    /// No revision, and no open transaction.
    pub fn new(alloc: Global) -> Book<T>
        ensures { result ≡ empty_book }
    {
        Book {
            alloc,
            history: UndoStack::new(alloc),
            index: None,
        }
    }

    /// Opens a transaction, and takes room for its commit. To roll back or forward takes none.
    pub fn begin(&mut self) -> Result<(), NoMemory>
        requires { self.old.index ≡ None }
        ensures ok { OnOk result (self.new ≡ record self.old { index = Some map.empty }) }
        ensures err { OnErr result (self.new ≡ self.old) }
    {
        self.history.reserve(1)?;
        self.index = Some(Revision::new(self.alloc));
        Ok(())
    }

    /// Notes that `old` stands under a key of the world, if nothing was noted of it since `begin`.
    pub fn note(&mut self, key: TileKey, old: Option<T>) -> Result<(), NoMemory>
        requires open { is_some self.old.index ≡ true }
        requires world { IsWorldKey key }
        ensures ok { (r : Keyed T) → self.old.index ≡ Some r
            → OnOk result (self.new ≡ record self.old { index = Some (noted_under r key old) }) }
        ensures err { OnErr result (self.new ≡ self.old) }
    {
        match &mut self.index {
            Some(index) => index.note(key, old),
            None => unreachable!(),
        }
    }

    /// Closes the transaction: it is the newest revision, and nothing can be rolled forward any more.
    /// No memory.
    pub fn commit(&mut self)
        requires { is_some self.old.index ≡ true }
        ensures { (r : Keyed T) → self.old.index ≡ Some r → self.new ≡ committed r self.old }
    {
        let Some(index) = self.index.take() else {
            unreachable!();
        };
        self.history.commit(index);
    }

    /// Drops the transaction: what was noted goes back into the plane, and all revisions stay. No
    /// memory, and a step for each key.
    pub fn drop_open<P: Plane<T>, L: Ledger>(
        &mut self,
        plane: &mut P,
        steps: &mut Steps<L>,
    ) -> Touched
        requires open { is_some self.old.index ≡ true }
        requires stand { (r : Keyed T) → self.old.index ≡ Some r → AllStand r (P.plane plane.old) }

        // Only the index is gone, and what was noted in it stands in the plane again.
        ensures new { self.new ≡ record self.old { index = None } }
        ensures back { (r : Keyed T) → self.old.index ≡ Some r
            → PutsBack r (P.plane plane.old) (P.plane plane.new) }
        ensures rest { P.bare plane.new ≡ P.bare plane.old }

        // What the call tells, and what it counts.
        ensures touched { (r : Keyed T) → self.old.index ≡ Some r → HasTouched (keys_in r) result }
        ensures counts { steps.new ≡ steps.old + result.count }
    {
        let Some(mut index) = self.index.take() else {
            unreachable!();
        };
        index.exchange(plane, steps);
        index.touched()
    }

    /// Exchanges the newest revision with the plane, and what stood there can be rolled forward. None
    /// exactly where there is none; then all stays. The keys that it was noted under still stand. No
    /// memory, and a step for each key.
    pub fn rollback<P: Plane<T>, L: Ledger>(
        &mut self,
        plane: &mut P,
        steps: &mut Steps<L>,
    ) -> Option<Touched>
        requires closed { self.old.index ≡ None }
        requires stand { FirstStands self.old.past (P.plane plane.old) }

        // Where there is no revision, all stays.
        ensures none { IsNone result ↔ (self.old.past ≡ []) }
        ensures kept { IfNone result ((self.new ≡ self.old) × (plane.new ≡ plane.old)) }

        // Else the newest is exchanged, and can be again.
        ensures back { IfSome result
            (λ t. RollsBack self.old self.new (P.plane plane.old) (P.plane plane.new)) }
        ensures stands { IfSome result (λ t. FirstStands self.new.redo (P.plane plane.new)) }
        ensures rest { P.bare plane.new ≡ P.bare plane.old }

        // What the call tells, and what it counts.
        ensures touched { IfSome result (HasTouched (first_keys self.old.past)) }
        ensures counts { steps.new ≡ steps.old + set.len (first_keys self.old.past) }
    {
        let newest = self.history.undo()?;
        newest.exchange(plane, steps);
        Some(newest.touched())
    }

    /// Exchanges what was rolled back last with the plane, and it is the newest revision again. None
    /// exactly where nothing was; then all stays. The keys that it was noted under still stand. No
    /// memory, and a step for each key.
    pub fn rollforward<P: Plane<T>, L: Ledger>(
        &mut self,
        plane: &mut P,
        steps: &mut Steps<L>,
    ) -> Option<Touched>
        requires closed { self.old.index ≡ None }
        requires stand { FirstStands self.old.redo (P.plane plane.old) }

        // Where nothing was rolled back, all stays.
        ensures none { IsNone result ↔ (self.old.redo ≡ []) }
        ensures kept { IfNone result ((self.new ≡ self.old) × (plane.new ≡ plane.old)) }

        // Else the last of it is exchanged, and can be again.
        ensures forth { IfSome result
            (λ t. RollsForward self.old self.new (P.plane plane.old) (P.plane plane.new)) }
        ensures stands { IfSome result (λ t. FirstStands self.new.past (P.plane plane.new)) }
        ensures rest { P.bare plane.new ≡ P.bare plane.old }

        // What the call tells, and what it counts.
        ensures touched { IfSome result (HasTouched (first_keys self.old.redo)) }
        ensures counts { steps.new ≡ steps.old + set.len (first_keys self.old.redo) }
    {
        let next = self.history.redo()?;
        next.exchange(plane, steps);
        Some(next.touched())
    }

    /// Keeps the newest `keep` of the revisions that can be rolled back. The others stay. No memory.
    pub fn purge(&mut self, keep: usize)
        ensures { self.new ≡ record self.old { past = take keep self.old.past } }
    {
        self.history.purge(keep);
    }

    /// Nothing can be rolled forward any more. All else stays. No memory.
    pub fn forget_redo(&mut self)
        ensures { self.new ≡ record self.old { redo = [] } }
    {
        self.history.forget();
    }
}
