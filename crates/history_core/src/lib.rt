//! The history of a document: what can be undone, and what can be redone.
//!
//! # Decisions
//!
//! - An undo stack lends the entry that was undone or redone, so that its owner exchanges it for what goes the
//!   other way. Past and future are seen from the next entry on.
#![tactic(auto)]

ghost use Rattle.std.specs.Prelude.{◌≡◌, ◌≢◌, ◌+◌, ◌≤◌, [], ◌∷◌, ◌++◌, take, drop, OnOk, OnErr, IsSome, IfSome, ◌↔◌, length};
ghost use Rattle.std.specs.Borrow.{sem};

use geom_core::NoMemory;
use std::alloc::Global;
use std::marker::Model;

/// An undo stack: one vector of entries, oldest first, and a cursor behind those that are done.
/// Entries before the cursor can be undone, the others redone.
#[derive(Drop)]
pub struct UndoStack<R> {
    entries: Vec<R>,
    done: usize,
}

impl<R> Model for UndoStack<R> {
    ghost use Rattle.std.specs.Prelude.{◌≤◌, ◌-◌, take, drop, reverse, vec_len, vec_capacity};
    ghost use Rattle.history_core.specs.Stacks.{Stack, stack_code};

    ghost Value = { Stack R };

    ghost coded = { stack_code R.code };

    ghost view = { λ s. record {
      past = reverse (take s.done s.entries.items);
      future = drop s.done s.entries.items;
      spare = vec_capacity s.entries - vec_len s.entries;
    } };

    ghost invariant = { λ s. s.done ≤ vec_len s.entries };
}

impl<R: Drop> UndoStack<R> {
    ghost use Rattle.history_core.specs.Lends.{LendsUndone, LendsRedone};

    /// Nothing to undo and nothing to redo.
    pub fn new(alloc: Global) -> UndoStack<R>
        ensures past { result.past ≡ [] }
        ensures future { result.future ≡ [] }
    {
        UndoStack {
            entries: Vec::new(alloc),
            done: 0,
        }
    }

    /// Takes room for at least `n` more entries. Past and future stay, also where there is no memory.
    pub fn reserve(&mut self, n: usize) -> Result<(), NoMemory>
        ensures room { OnOk result (n ≤ self.new.spare) }
        ensures past { self.new.past ≡ self.old.past }
        ensures future { self.new.future ≡ self.old.future }
        ensures spare { self.old.spare ≤ self.new.spare }
    {
        self.entries.reserve(n)?;
        Ok(())
    }

    /// The entry is the newest of the past, and nothing can be redone any more.
    pub fn commit(&mut self, entry: R)
        requires { 1 ≤ self.old.spare }
        ensures past { self.new.past ≡ entry ∷ self.old.past }
        ensures future { self.new.future ≡ [] }
        ensures spare { self.old.spare ≤ self.new.spare + 1 }
    {
        self.entries.truncate(self.done);
        match self.entries.push(entry) {
            Ok(()) => self.done += 1,
            Err(_) => unreachable!(),
        }
    }

    /// The newest of the past becomes the next of the future and is lent, to be changed into what redoes it.
    /// None where nothing can be undone; then all stays.
    pub fn undo(&mut self) -> Option<&mut R>
        ensures* lends { sem 𝓛 (LendsUndone R.row self.entry result) }
        ensures some { IsSome result ↔ (self.old.past ≢ []) }
        ensures entry { IfSome result (λ r. take 1 self.old.past ≡ r.now ∷ []) }
    {
        let place = self.step_back();
        self.entries.get_mut(place)
    }

    /// The next of the future becomes the newest of the past and is lent, to be changed into what undoes it.
    /// None where nothing can be redone; then all stays.
    pub fn redo(&mut self) -> Option<&mut R>
        ensures* lends { sem 𝓛 (LendsRedone R.row self.entry result) }
        ensures some { IsSome result ↔ (self.old.future ≢ []) }
        ensures entry { IfSome result (λ r. take 1 self.old.future ≡ r.now ∷ []) }
    {
        let place = self.step_on();
        self.entries.get_mut(place)
    }

    /// Keeps the newest `keep` entries of the past. The future stays.
    pub fn purge(&mut self, keep: usize)
        ensures past { self.new.past ≡ take keep self.old.past }
        ensures future { self.new.future ≡ self.old.future }
        ensures spare { self.old.spare ≤ self.new.spare }
    {
        if keep < self.done {
            let gone = self.done - keep;
            self.entries.rotate_left(gone);
            self.entries.truncate(self.entries.len() - gone);
            self.done = keep;
        }
    }

    /// Forgets what can be redone. The past stays.
    pub fn forget(&mut self)
        ensures past { self.new.past ≡ self.old.past }
        ensures future { self.new.future ≡ [] }
        ensures spare { self.old.spare ≤ self.new.spare }
    {
        let done = self.done;
        self.entries.truncate(done);
    }

    // Steps back where there is a past. The place of the entry that was undone, or of none.
    fn step_back(&mut self) -> usize
        ensures past { self.new.past ≡ drop 1 self.old.past }
        ensures future { self.new.future ≡ take 1 self.old.past ++ self.old.future }
        ensures spare { self.new.spare ≡ self.old.spare }
        ensures place { self.old.past ≢ [] → result ≡ length self.new.past }
        ensures none { self.old.past ≡ [] → result ≡ length self.new.past + length self.new.future }
    {
        if self.done == 0 {
            self.entries.len()
        } else {
            self.done -= 1;
            self.done
        }
    }

    // Steps on where there is a future. The place of the entry that was redone, or of none.
    fn step_on(&mut self) -> usize
        ensures past { self.new.past ≡ take 1 self.old.future ++ self.old.past }
        ensures future { self.new.future ≡ drop 1 self.old.future }
        ensures spare { self.new.spare ≡ self.old.spare }
        ensures place { self.old.future ≢ [] → result + 1 ≡ length self.new.past }
        ensures none { self.old.future ≡ [] → result ≡ length self.new.past }
    {
        let place = self.done;
        if place < self.entries.len() {
            self.done += 1;
        }
        place
    }
}
